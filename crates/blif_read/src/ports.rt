//! The output ports of the network.
ghost use Rattle.std.specs.Prelude.{◌≡◌, ◌+◌, ◌++◌, ◌∷◌, ◌<◌, ◌^◌, [], length, map, All, if◌then◌else◌, Some, None, IfOk, OnOk};
ghost use Rattle.ae_base.specs.Twins.{is_among};
ghost use Rattle.blif_read.specs.Build as spec;

use crate::build::renumbered;
use crate::seen::Seen;
use ae_base::{Memory, Name, Seq};
use ae_net::{Gate, Pins};
use std::alloc::Global;

/// A gate that is constant 0.
fn constant_0(alloc: Global, name: &Name) -> Result<Gate, Memory>
    ensures { IfOk result (λ gate. gate ≡ spec.zero_gate name.now) }
{
    Ok(Gate {
        out: name.copy(alloc)?,
        pins: Pins::new(alloc),
        rows: Seq::new(alloc),
        on: true,
    })
}

/// The signal of the gate that drives an output, where one does.
fn port_of(seen: &Seen, name: &Name, ranks: &[Option<u32>]) -> Option<u32>
    requires size { length ranks.now ≡ length seen.now.driven }
    requires short { length seen.now.inputs + length ranks.now < 2 ^ 32 }
    requires ranked { All (spec.IsRankBelow (length ranks.now)) ranks.now }
    ensures { result ≡ (if is_among name.now seen.now.driven then Some (spec.port_of seen.now ranks.now name.now) else None) }
{
    let inputs = seen.inputs.len() as u32;
    let place = seen.driven.place(name)?;
    Some(renumbered(inputs, ranks, inputs + place as u32))
}

/// Adds the port of an output, and where no gate drives it the constant 0 that it shows.
fn add_port(
    alloc: Global,
    seen: &Seen,
    name: &Name,
    ranks: &[Option<u32>],
    gates: &mut Seq<Gate>,
    ports: &mut Seq<u32>,
) -> Result<(), Memory>
    requires size { length ranks.now ≡ length seen.now.driven }
    requires short { length seen.now.inputs + length ranks.now < 2 ^ 32 }
    requires ranked { All (spec.IsRankBelow (length ranks.now)) ranks.now }
    requires room { length seen.now.inputs + length gates.old < 2 ^ 32 }
    ensures gates { OnOk result (gates.new ≡ gates.old ++ map spec.zero_gate (spec.idle seen.now (name.now ∷ []))) }
    ensures ports { OnOk result (ports.new ≡ ports.old ++ (if is_among name.now seen.now.driven then spec.port_of seen.now ranks.now name.now else length seen.now.inputs + length gates.old) ∷ []) }
{
    match port_of(seen, name, ranks) {
        Some(port) => ports.push(port)?,
        None => {
            ports.push(seen.inputs.len() as u32 + gates.len() as u32)?;
            gates.push(constant_0(alloc, name)?)?;
        }
    }
    Ok(())
}

/// Adds the ports of all outputs, where there are none yet, and the constants that they show.
pub fn add_ports(
    alloc: Global,
    seen: &Seen,
    ranks: &[Option<u32>],
    gates: &mut Seq<Gate>,
    ports: &mut Seq<u32>,
) -> Result<(), Memory>
    requires ports { spec.ArePorts seen.now ranks.now (length gates.old) }
    requires none { ports.old ≡ [] }
    ensures gates { OnOk result (gates.new ≡ gates.old ++ map spec.zero_gate (spec.idle seen.now seen.now.outputs)) }
    ensures ports { OnOk result (ports.new ≡ map (spec.shown_by seen.now ranks.now (length gates.old)) seen.now.outputs) }
{
    for name in seen.outputs.as_slice() {
        add_port(alloc, seen, name, ranks, gates, ports)?;
    }
    Ok(())
}
