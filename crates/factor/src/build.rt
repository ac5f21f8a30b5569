//! The factored network of an ESOP.
ghost use Rattle.std.specs.Prelude.{◌≡◌, ◌≤◌, ◌<◌, ◌++◌, ◌∷◌, [], if◌then◌else◌, map, true, All, IfOk, OnOk};
ghost use Rattle.std.specs.List.{list_any};
ghost use Rattle.ae_base.specs.Cube.{IsOver};
ghost use Rattle.ae_base.specs.Mask.{has};
ghost use Rattle.ae_base.specs.declared.limits.TheConstants.{SOURCE_NAME_BYTES, WIDTH};
ghost use Rattle.ae_net.specs.Lead as lead_spec;
ghost use Rattle.ae_net.specs.Valid.{IsValid};
ghost use Rattle.esop.specs.Settled.{AreSettled};
ghost use Rattle.factor.specs.Factored as spec;
ghost use Rattle.factor.specs.Factored.{AreSums, HasFactoredForm, network_of};
ghost use Rattle.factor.specs.Plan.{IsPlan, sums_of};
ghost use Rattle.factor.specs.Seen.{seen};
ghost use Rattle.factor.specs.Shows.{Fits, CanBuild, ShowsEsop, cube_count, exor_count};

use crate::laws::factored_law;
use crate::outputs::{Plan, push_inverters, push_outputs};
use crate::parts::Wires;
use crate::sums::{Sum, sum_of};
use ae_base::{Cube, FACTORED_CUBES, Memory, SOURCE_NAME_BYTES, Seq, WIDTH, copies};
use ae_net::{Net, NetBuilder, NetNames, lead, names_law};
use esop::Esop;
use std::alloc::Global;

/// Whether the complemented literal of input `j` stands in some cube of a list.
fn some_turned(cubes: &[Cube], j: u32) -> bool
    ensures { result ≡ list_any (λ c. has c.neg j) cubes.now }
{
    cubes.iter().any(|c| c.neg.has(j))
}

/// Whether the complemented literal of input `j` stands in some cube of some list.
fn is_turned(outs: &[Seq<Cube>], j: u32) -> bool
    ensures { result ≡ spec.is_turned outs.now j }
{
    outs.iter().any(|cubes| some_turned(cubes.as_slice(), j))
}

/// Adds an input, where it has an inverter.
fn push_turned(outs: &[Seq<Cube>], j: u32, turned: &mut Seq<u32>) -> Result<(), Memory>
    ensures { OnOk result (turned.new ≡ (if spec.is_turned outs.now j then turned.old ++ j ∷ [] else turned.old)) }
{
    if is_turned(outs, j) {
        turned.push(j)?;
    }
    Ok(())
}

/// The inputs, and those of them that have an inverter.
#[tactic(auto, using(crate::proofs::Law::one_more_turned))]
fn wires(alloc: Global, e: &Esop) -> Result<Wires, Memory>
    ensures { IfOk result (λ wires. wires ≡ spec.wires e.now) }
{
    let inputs = e.inputs();
    let outs = e.lists();
    let mut turned = Seq::new(alloc);
    for j in 0..inputs {
        push_turned(outs, j, &mut turned)?;
    }
    Ok(Wires { inputs, turned })
}

/// The sum of each list, over `n` inputs.
fn sums(alloc: Global, n: u32, outs: &[Seq<Cube>]) -> Result<Vec<Sum>, Memory>
    requires few { n ≤ WIDTH }
    requires over { All (All (IsOver n)) outs.now }
    ensures { IfOk result (λ sums. AreSums outs.now (map seen sums.items)) }
{
    let mut sums = Vec::new(alloc);
    for cubes in outs {
        sums.push(sum_of(alloc, n, cubes.as_slice())?)?;
    }
    Ok(sums)
}

/// What is worked out before the gates are made.
fn plan(alloc: Global, lead: u32, e: &Esop) -> Result<Plan, Memory>
    ensures lead { IfOk result (λ plan. plan.lead ≡ lead) }
    ensures wires { IfOk result (λ plan. plan.wires ≡ spec.wires e.now) }
    ensures sums { IfOk result (λ plan. AreSums e.now.outs (sums_of plan)) }
{
    let wires = wires(alloc, e)?;
    let sums = sums(alloc, e.inputs(), e.lists())?;
    Ok(Plan { lead, wires, sums })
}

/// The network of the plan's sums.
fn network(alloc: Global, plan: &Plan, names: &NetNames, e: &Esop) -> Result<Net, Memory>
    requires can { CanBuild names.now e.now }
    requires lead { plan.now.lead ≡ lead_spec.lead names.now }
    requires wires { plan.now.wires ≡ spec.wires e.now }
    requires sums { AreSums e.now.outs (sums_of plan.now) }
    ensures { IfOk result (λ net. net ≡ network_of plan.now.lead names.now plan.now.wires (sums_of plan.now)) }
{
    names_law();
    let model = names.model().copy(alloc)?;
    let mut net = NetBuilder::new(alloc, copies(alloc, names.inputs())?);
    push_inverters(alloc, plan.lead, plan.wires.turned.as_slice(), &mut net)?;
    let outputs = push_outputs(alloc, plan, names.outputs(), &mut net)?;
    Ok(net.finish(model, outputs))
}

/// What is to be known of names and cubes to build their network: the rest of it their types say.
fn can_build(names: &NetNames, e: &Esop)
    requires fits { Fits names.now e.now }
    requires few { cube_count e.now ≤ FACTORED_CUBES }
    requires settled { AreSettled e.now }
    ensures { CanBuild names.now e.now }
{
    let _inputs = names.inputs();
    let _lists = e.lists();
}

/// The network of factored form, `lead` being the number of underscores that inner names begin with.
fn factored_with(alloc: Global, lead: u32, names: &NetNames, e: &Esop) -> Result<Net, Memory>
    requires can { CanBuild names.now e.now }
    requires lead { lead ≡ lead_spec.lead names.now }
    ensures { IfOk result (λ net. HasFactoredForm names.now e.now net) }
{
    let plan = plan(alloc, lead, e)?;
    network(alloc, &plan, names, e)
}

/// The factored network of an ESOP, with the names of a source: for each output the sum of its cubes, out of which literals are taken,
/// the one that stands in most cubes first. It has no control. Each output shows the value of its cubes, and there are no more EXOR gates
/// than cubes; `factored_law` says the same of the definition, and `sum_law` that no literal is a direct factor of two summands. The ESOP
/// is settled, fits the names, and has at most `FACTORED_CUBES` cubes in all.
pub fn factored(alloc: Global, names: &NetNames, e: &Esop) -> Result<Net, Memory>
    requires fits { Fits names.now e.now }
    requires few { cube_count e.now ≤ FACTORED_CUBES }
    requires settled { AreSettled e.now }
    ensures form { IfOk result (λ net. HasFactoredForm names.now e.now net) }
    ensures values { IfOk result (λ net. ShowsEsop net e.now) }
    ensures few_exors { IfOk result (λ net. exor_count net ≤ cube_count e.now) }
{
    can_build(names, e);
    let net = factored_with(alloc, lead(names), names, e)?;
    factored_law();
    Ok(net)
}
