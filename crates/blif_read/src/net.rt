//! The network that lines without a fault say.
ghost use Rattle.std.specs.Prelude.{◌≡◌, ℕ, ◌+◌, ◌<◌, ◌≤◌, ◌^◌, ◌++◌, List, length, map, drop, All, true, None, unwrap_or, codes, IfOk};
ghost use Rattle.ae_base.specs.Name.{is_name};
ghost use Rattle.ae_net.specs.Valid.{IsValid};
ghost use Rattle.ae_lex.specs.Reads.{Gives};
ghost use Rattle.blif_read.specs.Build as spec;

use crate::build::gate_of;
use crate::draft::{Draft, check_outputs, draft_gates};
use crate::fault::{BlifErr, BlifFault};
use crate::order::{first_unplaced, needs_of, ranks_of};
use crate::ports::add_ports;
use crate::seen::Seen;
use ae_base::{Memory, Name, Seq, copies};
use ae_lex::WordLine;
use ae_net::{Gate, Net};
use blif_order::order_of;
use std::alloc::Global;

/// The lines after a place.
pub fn lines_after<'a, 'b>(lines: &'a [WordLine<'b>], place: usize) -> &'a [WordLine<'b>]
    requires { place < length lines.now }
    ensures { result.now ≡ drop (place + 1) lines.now }
{
    &lines[place + 1..]
}

/// The gate in a place of file order.
fn gate_at(
    alloc: Global,
    lines: &[WordLine<'_>],
    seen: &Seen,
    drafts: &[Draft],
    place: usize,
    ranks: &[Option<u32>],
) -> Result<Gate, Memory>
    requires within { place < length drafts.now }
    requires buildable { spec.AreBuildable (length lines.now) seen.now drafts.now ranks.now }
    ensures { IfOk result (λ gate. gate ≡ spec.built_at lines.now seen.now.driven drafts.now (length seen.now.inputs) ranks.now place) }
{
    let draft = &drafts[place];
    let after = lines_after(lines, draft.line);
    let name = &seen.driven.as_slice()[place];
    let inputs = seen.inputs.len() as u32;
    gate_of(alloc, after, name, draft.pins.as_slice(), inputs, ranks)
}

/// The gates in an order.
fn gates_of(
    alloc: Global,
    lines: &[WordLine<'_>],
    seen: &Seen,
    drafts: &[Draft],
    order: &[u32],
    ranks: &[Option<u32>],
) -> Result<Seq<Gate>, Memory>
    requires within { All (λ g. g < length drafts.now) order.now }
    requires buildable { spec.AreBuildable (length lines.now) seen.now drafts.now ranks.now }
    ensures { IfOk result (λ gates. gates ≡ map (spec.built_at lines.now seen.now.driven drafts.now (length seen.now.inputs) ranks.now) order.now) }
{
    let mut gates = Seq::new(alloc);
    for place in order {
        gates.push(gate_at(alloc, lines, seen, drafts, *place as usize, ranks)?)?;
    }
    Ok(gates)
}

/// The name of the model, which is `unnamed` where none is given.
fn model_of(alloc: Global, seen: &Seen) -> Result<Name, Memory>
    ensures named { IfOk result (λ name. is_name name ≡ true) }
    ensures model { IfOk result (λ name. name ≡ unwrap_or seen.now.model (codes "unnamed")) }
{
    match &seen.model {
        Some(name) => copy_of(alloc, name),
        None => unnamed(alloc),
    }
}

fn copy_of(alloc: Global, name: &Name) -> Result<Name, Memory>
    ensures named { IfOk result (λ copy. is_name copy ≡ true) }
    ensures copy { IfOk result (λ copy. copy ≡ name.now) }
{
    let _bytes = name.bytes();
    name.copy(alloc)
}

fn unnamed(alloc: Global) -> Result<Name, Memory>
    ensures named { IfOk result (λ name. is_name name ≡ true) }
    ensures name { IfOk result (λ name. name ≡ codes "unnamed") }
{
    Name::known(alloc, b"unnamed")
}

/// The order of placing, and for each gate its place there.
#[derive(Drop)]
struct Plan {
    order: Vec<u32>,
    ranks: Vec<Option<u32>>,
}

/// The network of gates in an order that places all.
fn net_placed(
    alloc: Global,
    lines: &[WordLine<'_>],
    seen: &Seen,
    drafts: &[Draft],
    plan: &Plan,
    name: &Name,
) -> Result<Net, Memory>
    requires within { All (λ g. g < length drafts.now) plan.now.order.items }
    requires buildable { spec.AreBuildable (length lines.now) seen.now drafts.now plan.now.ranks.items }
    requires ports { spec.ArePorts seen.now plan.now.ranks.items (length plan.now.order.items) }
    requires valid { IsValid (spec.drawn lines.now seen.now drafts.now plan.now.order.items plan.now.ranks.items name.now) }
    ensures { IfOk result (λ net. net ≡ spec.drawn lines.now seen.now drafts.now plan.now.order.items plan.now.ranks.items name.now) }
{
    let ranks = plan.ranks.as_slice();
    let mut gates = gates_of(alloc, lines, seen, drafts, plan.order.as_slice(), ranks)?;
    let mut outputs = Seq::new(alloc);
    add_ports(alloc, seen, ranks, &mut gates, &mut outputs)?;
    let inputs = copies(alloc, seen.inputs.as_slice())?;
    let model = name.copy(alloc)?;
    Ok(Net {
        model,
        inputs,
        outputs,
        gates,
    })
}

/// The number of the line of a gate.
fn line_of(lines: &[WordLine<'_>], drafts: &[Draft], place: usize) -> u32
    requires within { place < length drafts.now }
    requires lines { All (λ d. d.line < length lines.now) drafts.now }
    ensures { result ≡ spec.front_number (drop (spec.draft_at drafts.now place).line lines.now) }
{
    let draft = &drafts[place];
    lines[draft.line].number()
}

fn plan_of(alloc: Global, seen: &Seen, drafts: &[Draft]) -> Result<Plan, Memory>
    requires { spec.AreDrafts seen.now drafts.now }
    ensures { IfOk result (λ plan. spec.IsPlan (length seen.now.inputs) drafts.now plan.order.items plan.ranks.items) }
{
    let needs = needs_of(alloc, seen.inputs.len() as u32, drafts)?;
    let order = order_of(alloc, needs.as_slice())?;
    let ranks = ranks_of(alloc, order.as_slice(), drafts.len())?;
    Ok(Plan { order, ranks })
}

/// The network under a name of the drafts, or the line of the first gate that can't be placed.
fn net_drafted(
    alloc: Global,
    lines: &[WordLine<'_>],
    seen: &Seen,
    drafts: &[Draft],
    name: &Name,
) -> Result<Net, BlifErr>
    requires drafted { spec.AreDrafted lines.now seen.now drafts.now }
    requires named { is_name name.now ≡ true }
    ensures { Gives (spec.placed_net name.now lines.now seen.now) result }
{
    let plan = plan_of(alloc, seen, drafts)?;
    match first_unplaced(plan.ranks.as_slice()) {
        Some(place) => Err(BlifErr::At {
            line: line_of(lines, drafts, place),
            what: BlifFault::Cycle,
        }),
        None => Ok(net_placed(alloc, lines, seen, drafts, &plan, name)?),
    }
}

/// What the lines of a model without a fault say, in a text with so many physical lines.
pub fn net_said(
    alloc: Global,
    lines: &[WordLine<'_>],
    last: u32,
    seen: &Seen,
) -> Result<Net, BlifErr>
    requires { spec.AreFaultless None lines.now seen.now }
    ensures { Gives (spec.lines_say last lines.now) result }
{
    if seen.inputs.len() == 0 {
        return Err(BlifErr::At {
            line: last,
            what: BlifFault::NoInputs,
        });
    }
    if seen.outputs.len() == 0 {
        return Err(BlifErr::At {
            line: last,
            what: BlifFault::NoOutputs,
        });
    }
    let mut drafts = Seq::new(alloc);
    draft_gates(alloc, lines, &seen.inputs, &seen.driven, &mut drafts)?;
    check_outputs(alloc, lines, &seen.inputs, &seen.driven)?;
    let name = model_of(alloc, seen)?;
    net_drafted(alloc, lines, seen, drafts.as_slice(), &name)
}

/// The network under a name that the lines of a don't care part without a fault say.
pub fn part_said(
    alloc: Global,
    lines: &[WordLine<'_>],
    seen: &Seen,
    name: &Name,
) -> Result<Net, BlifErr>
    requires part { spec.ArePart lines.now seen.now }
    requires named { is_name name.now ≡ true }
    ensures { Gives (spec.part_says name.now lines.now seen.now) result }
{
    let mut drafts = Seq::new(alloc);
    draft_gates(alloc, lines, &seen.inputs, &seen.driven, &mut drafts)?;
    net_drafted(alloc, lines, seen, drafts.as_slice(), name)
}
