//! The gates of the outputs, with their names.
ghost use Rattle.std.specs.Prelude.{◌≡◌, suc, ◌<◌, ◌≤◌, ◌+◌, ◌-◌, ◌*◌, ◌++◌, ◌∷◌, [], if◌then◌else◌, length, codes, All, IfOk, OnOk};
ghost use Rattle.std.specs.Fmt.{decimal};
ghost use Rattle.ae_base.specs.declared.limits.TheConstants.{GATES, PINS, SOURCE_NAME_BYTES};
ghost use Rattle.ae_net.specs.Gates as gate;
ghost use Rattle.ae_net.specs.Names.{inner};
ghost use Rattle.factor.specs.Cells as cell;
ghost use Rattle.factor.specs.Factored as spec;
ghost use Rattle.factor.specs.Plan.{IsPlan, sums_of};
ghost use Rattle.factor.specs.Seen.{seen, IsWithin};
ghost use Rattle.factor.specs.Sums as sum_spec;

use crate::parts::{Wires, output_cells};
use crate::sums::Sum;
use ae_base::{Memory, Name, Seq};
use ae_net::{Cell, NetBuilder, Sig, numbered_name};
use std::alloc::Global;

/// What is worked out before the gates are made.
#[derive(Drop)]
pub struct Plan {
    /// The number of underscores that inner names begin with.
    pub lead: u32,
    pub wires: Wires,
    /// The sum of each output.
    pub sums: Vec<Sum>,
}

/// Adds the inverters of the inputs, in order.
pub fn push_inverters(
    alloc: Global,
    lead: u32,
    turned: &[u32],
    net: &mut NetBuilder,
) -> Result<(), Memory>
    requires short { lead ≤ SOURCE_NAME_BYTES + 1 }
    requires room { length net.old.gates + length turned.now ≤ GATES }
    ensures gates { OnOk result (net.new.gates ≡ net.old.gates ++ spec.inverters lead turned.now) }
    ensures inputs { net.new.inputs ≡ net.old.inputs }
{
    for j in turned {
        let name = numbered_name(alloc, lead, b'i', *j as usize + 1)?;
        net.push(name, &Cell::Inverter(*j))?;
    }
    Ok(())
}

/// The name of a gate of an output: the output's for the last one, else the inner name with the number after `number`.
fn cell_name(
    alloc: Global,
    lead: u32,
    number: usize,
    out: &Name,
    last: bool,
) -> Result<Name, Memory>
    requires short { lead ≤ SOURCE_NAME_BYTES + 1 }
    requires small { number ≤ GATES }
    ensures { IfOk result (λ name. name ≡ (if last then out.now else inner lead (codes "g" ++ decimal (suc number)))) }
{
    if last {
        out.copy(alloc)
    } else {
        numbered_name(alloc, lead, b'g', number + 1)
    }
}

/// Adds the gates of an output. The last one has the output's name, and each other one the next number.
fn push_named(
    alloc: Global,
    lead: u32,
    number: usize,
    out: &Name,
    cells: &[Cell],
    net: &mut NetBuilder,
) -> Result<(), Memory>
    requires short { lead ≤ SOURCE_NAME_BYTES + 1 }
    requires small { number + length cells.now ≤ GATES }
    requires room { length net.old.gates + length cells.now ≤ GATES }
    requires few_pins { All (λ c. length (gate.pins_of c) ≤ PINS) cells.now }
    ensures gates { OnOk result (net.new.gates ≡ net.old.gates ++ spec.named lead number out.now cells.now) }
    ensures inputs { net.new.inputs ≡ net.old.inputs }
{
    for i in 0..cells.len() {
        let name = cell_name(alloc, lead, number + i, out, i + 1 == cells.len())?;
        net.push(name, &cells[i])?;
    }
    Ok(())
}

/// Adds the gates of an output, before which `number` inner gates have a number, and answers how many stand before its last one.
fn push_output(
    alloc: Global,
    plan: &Plan,
    sum: &Sum,
    name: &Name,
    number: usize,
    net: &mut NetBuilder,
) -> Result<usize, Memory>
    requires plan { IsPlan plan.now }
    requires within { IsWithin plan.now.wires.inputs (seen sum.now) }
    requires small { number ≤ length net.old.gates }
    requires room { length net.old.gates + (3 * sum_spec.nodes (seen sum.now) + 1) ≤ GATES }
    ensures gates { OnOk result (net.new.gates ≡ net.old.gates ++ spec.named plan.now.lead number name.now (cell.output_cells plan.now.wires (plan.now.wires.inputs + length net.old.gates) (seen sum.now))) }
    ensures inputs { net.new.inputs ≡ net.old.inputs }
    ensures few { IfOk result (λ inner. inner ≤ GATES) }
    ensures inner { IfOk result (λ inner. inner ≡ length (cell.output_cells plan.now.wires (plan.now.wires.inputs + length net.old.gates) (seen sum.now)) - 1) }
{
    let first = plan.wires.inputs + net.gates().len() as Sig;
    let cells = output_cells(alloc, &plan.wires, first, sum)?;
    push_named(alloc, plan.lead, number, name, cells.as_slice(), net)?;
    Ok(cells.len().saturating_sub(1))
}

/// Adds the gates of the outputs, and answers the signals of their last gates.
pub fn push_outputs(
    alloc: Global,
    plan: &Plan,
    names: &[Name],
    net: &mut NetBuilder,
) -> Result<Seq<Sig>, Memory>
    requires plan { IsPlan plan.now }
    requires fits { length plan.now.sums.items ≡ length names.now }
    requires first { length net.old.gates ≡ length plan.now.wires.turned }
    ensures gates { OnOk result (net.new.gates ≡ net.old.gates ++ spec.output_gates plan.now.lead plan.now.wires (plan.now.wires.inputs + length net.old.gates) 0 (sums_of plan.now) names.now) }
    ensures inputs { net.new.inputs ≡ net.old.inputs }
    ensures ports { IfOk result (λ ports. ports ≡ spec.ends plan.now.wires (plan.now.wires.inputs + length net.old.gates) (sums_of plan.now)) }
{
    let mut ports = Seq::new(alloc);
    let mut number = 0;
    for o in 0..plan.sums.len() {
        let first = plan.wires.inputs + net.gates().len() as Sig;
        let inner = push_output(alloc, plan, &plan.sums[o], &names[o], number, net)?;
        ports.push(first + inner as Sig)?;
        number += inner;
    }
    Ok(ports)
}
