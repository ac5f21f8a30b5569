//! The names of a network's output ports, and its faults by names.
ghost use Rattle.std.specs.Prelude.{◌≡◌, ◌<◌, IfOk, length};
ghost use Rattle.ae_net.specs.Blif.{name_of, signal_names};
ghost use Rattle.ae_net.specs.Implements.{port_names};
ghost use Rattle.ae_net.specs.Network.{signals};
ghost use Rattle.ae_net.specs.Faults.{IsPlace};
ghost use Rattle.named_faults.specs.Names as spec;
ghost use Rattle.named_faults.specs.Within.{IsWithin};

use ae_base::{Memory, Name, Seq};
use ae_net::{Fault, Net, Place, Sig, fault_laws, valid_law};
use std::alloc::Global;
use vec_text::PlaceName;

/// A stuck-at fault by the name of its site and its stuck value.
#[derive(Drop, Debug)]
pub struct NamedFault {
    pub place: PlaceName,
    pub value: bool,
}

/// The name of a signal.
fn signal_name(net: &Net, s: Sig) -> &Name
    requires { s < signals net.now }
    ensures { result.now ≡ name_of (signal_names net.now) s }
{
    let s = s as usize;
    let inputs = net.inputs();
    if s < inputs.len() {
        &inputs[s]
    } else {
        &net.gates()[s - inputs.len()].out
    }
}

/// The name of an output port.
fn port_name(net: &Net, o: u32) -> &Name
    requires { o < length net.now.outputs }
    ensures { result.now ≡ name_of (port_names net.now) o }
{
    let signal = net.outputs()[o as usize] as usize;
    &net.gate(signal - net.inputs().len()).out
}

/// The names of the output ports: each has the name of the gate whose signal it shows.
pub fn port_names(alloc: Global, net: &Net) -> Result<Seq<Name>, Memory>
    ensures { IfOk result (λ names. names ≡ port_names net.now) }
{
    let first = net.inputs().len();
    let mut names = Seq::new(alloc);
    for signal in net.outputs() {
        names.push(net.gate(*signal as usize - first).out.copy(alloc)?)?;
    }
    Ok(names)
}

/// The name of a fault site.
fn place_name(alloc: Global, net: &Net, place: Place) -> Result<PlaceName, Memory>
    requires { IsWithin net.now place }
    ensures { IfOk result (λ name. name ≡ spec.place_name net.now place) }
{
    match place {
        Place::Stem(s) => Ok(PlaceName::Stem(signal_name(net, s).copy(alloc)?)),
        Place::Pin(i, k) => {
            let gate = net.gate(i as usize);
            Ok(PlaceName::Pin(gate.out.copy(alloc)?, k + 1))
        }
        Place::Port(o) => Ok(PlaceName::Port(port_name(net, o).copy(alloc)?)),
    }
}

/// A fault by the names of its network.
#[tactic(auto, unfolding(crate::specs::Names::named))]
pub fn named(alloc: Global, net: &Net, fault: Fault) -> Result<NamedFault, Memory>
    requires { IsPlace net.now fault.place }
    ensures { IfOk result (λ name. name ≡ spec.named net.now fault) }
{
    fault_laws();
    valid_law(net);
    let place = place_name(alloc, net, fault.place)?;
    Ok(NamedFault {
        place,
        value: fault.value,
    })
}
