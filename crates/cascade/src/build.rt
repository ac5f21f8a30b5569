//! The Reddy network of expansions.
ghost use Rattle.std.specs.Prelude.{◌≡◌, ◌≤◌, ◌+◌, ◌++◌, ◌∷◌, [], length, codes, IfOk, OnOk};
ghost use Rattle.ae_net.specs.Names.{inner};
ghost use Rattle.expansion.specs.Terms.{Terms, cost};
ghost use Rattle.ae_net.specs.Lead as lead_spec;
ghost use Rattle.cascade.specs.Plan.{IsPlan};
ghost use Rattle.cascade.specs.Reddy as spec;
ghost use Rattle.cascade.specs.Shows.{Fits, CanBuild, ShowsFunctions, ShowsComplements, reddy_net};

use crate::laws::reddy_law;
use crate::parts::{chain_of, push_ands, push_chain, push_control, push_inverters};
use crate::signals::Plan;
use crate::terms::{some_one, turned, wide_terms};
use ae_base::{Memory, NET_LINES, Name, REDDY_TERMS, SOURCE_NAME_BYTES, Seq, Term, copies};
use ae_net::{Net, NetBuilder, NetNames, Sig, lead, letter_name};
use expansion::Expansion;
use std::alloc::Global;

/// The names of the network's inputs: those of the source, and then the control.
fn input_names(alloc: Global, lead: u32, names: &NetNames) -> Result<Seq<Name>, Memory>
    requires { lead ≤ SOURCE_NAME_BYTES + 1 }
    ensures { IfOk result (λ list. list ≡ names.now.inputs ++ inner lead (codes "c") ∷ []) }
{
    let mut list = copies(alloc, names.inputs())?;
    list.push(letter_name(alloc, lead, b'c')?)?;
    Ok(list)
}

/// Adds the chains of all outputs, and answers the signals of their ends.
fn push_outputs(
    alloc: Global,
    plan: &Plan<'_>,
    names: &[Name],
    net: &mut NetBuilder,
) -> Result<Seq<Sig>, Memory>
    requires plan { IsPlan plan.now }
    requires low { length net.old.gates ≤ NET_LINES + 1 + REDDY_TERMS }
    requires cheap { cost plan.now.expansion.now ≤ REDDY_TERMS }
    requires fits { length plan.now.expansion.now.outs ≡ length names.now }
    requires few_outputs { length names.now ≤ NET_LINES }
    requires inputs { length net.old.inputs ≡ spec.lines plan.now.expansion.now }
    ensures gates { OnOk result (net.new.gates ≡ net.old.gates ++ spec.chains plan.now.lead plan.now.expansion.now 0 (length net.old.gates) plan.now.expansion.now.outs names.now) }
    ensures inputs { net.new.inputs ≡ net.old.inputs }
    ensures ports { IfOk result (λ ports. ports ≡ spec.ends plan.now.expansion.now (length net.old.gates) plan.now.expansion.now.outs) }
{
    let outs = plan.expansion.lists();
    let mut ports = Seq::new(alloc);
    let mut inner = 0;
    for o in 0..outs.len() {
        let chain = chain_of(alloc, plan, &names[o], inner, outs[o].as_slice())?;
        ports.push(push_chain(alloc, plan, &chain, net)?)?;
        inner += chain.terms.len().saturating_sub(1);
    }
    Ok(ports)
}

/// The place of the first AND gate, these being the inputs that have inverters.
#[tactic(auto, unfolding(crate::specs::Reddy::and_place))]
fn and_place(turned: &[u32], outs: &[Seq<Term>]) -> u32
    requires { length turned.now ≤ NET_LINES }
    ensures { (e : Terms) → turned.now ≡ spec.turned e → outs.now ≡ e.outs → result ≡ spec.and_place e }
{
    turned.len() as u32 + if some_one(outs) { 1 } else { 0 }
}

/// What is worked out before the gates are made.
#[tactic(auto, using(crate::proofs::Valid::few_turned))]
fn plan<'a>(alloc: Global, lead: u32, e: &'a Expansion) -> Result<Plan<'a>, Memory>
    requires short { lead ≤ SOURCE_NAME_BYTES + 1 }
    requires cheap { cost e.now ≤ REDDY_TERMS }
    ensures { IfOk result (λ plan. IsPlan plan × (plan.lead ≡ lead) × (plan.expansion.now ≡ e.now)) }
{
    let outs = e.lists();
    let turned = turned(alloc, e)?;
    let wide = wide_terms(alloc, e)?;
    let ands = and_place(turned.as_slice(), outs);
    Ok(Plan {
        expansion: e,
        lead,
        turned,
        wide,
        ands,
    })
}

/// Adds the gates of the network, and answers the signals of its outputs.
#[tactic(auto, unfolding(crate::specs::Reddy::gates))]
fn push_gates(
    alloc: Global,
    plan: &Plan,
    names: &NetNames,
    net: &mut NetBuilder,
) -> Result<Seq<Sig>, Memory>
    requires plan { IsPlan plan.now }
    requires fits { Fits names.now plan.now.expansion.now }
    requires cheap { cost plan.now.expansion.now ≤ REDDY_TERMS }
    requires no_gates { net.old.gates ≡ [] }
    requires inputs { length net.old.inputs ≡ spec.lines plan.now.expansion.now }
    ensures gates { OnOk result (net.new.gates ≡ spec.gates plan.now.lead names.now plan.now.expansion.now) }
    ensures inputs { net.new.inputs ≡ net.old.inputs }
    ensures ports { IfOk result (λ ports. ports ≡ spec.ends plan.now.expansion.now (spec.chain_place plan.now.expansion.now) plan.now.expansion.now.outs) }
{
    push_inverters(alloc, plan, net)?;
    push_control(alloc, plan, net)?;
    push_ands(alloc, plan, net)?;
    push_outputs(alloc, plan, names.outputs(), net)
}

/// The Reddy network, `lead` being the number of underscores that inner names begin with.
#[tactic(auto, unfolding(crate::specs::Shows::reddy_net))]
fn reddy_with(alloc: Global, lead: u32, names: &NetNames, e: &Expansion) -> Result<Net, Memory>
    requires lead { lead ≡ lead_spec.lead names.now }
    requires short { lead ≤ SOURCE_NAME_BYTES + 1 }
    requires fits { Fits names.now e.now }
    requires cheap { cost e.now ≤ REDDY_TERMS }
    ensures net { IfOk result (λ net. net ≡ reddy_net names.now e.now) }
    ensures built { OnOk result (CanBuild names.now e.now) }
{
    let plan = plan(alloc, lead, e)?;
    let model = names.model().copy(alloc)?;
    let inputs = input_names(alloc, lead, names)?;
    let mut net = NetBuilder::new(alloc, inputs);
    let outputs = push_gates(alloc, &plan, names, &mut net)?;
    Ok(net.finish(model, outputs))
}

/// The Reddy network of expansions, with the names of a source: the cascade of Reddy (1972), for several outputs, with an inverter for
/// each used input that is complemented. Its last input is the control. With the control at 0 each output is its function, and with it at
/// 1 the complement; `reddy_law` says the same of the definition. The expansions fit the names, and have at most `REDDY_TERMS` terms in
/// all.
pub fn reddy(alloc: Global, names: &NetNames, e: &Expansion) -> Result<Net, Memory>
    requires fits { Fits names.now e.now }
    requires cheap { cost e.now ≤ REDDY_TERMS }
    ensures net { IfOk result (λ net. net ≡ reddy_net names.now e.now) }
    ensures functions { IfOk result (λ net. ShowsFunctions net e.now) }
    ensures complements { IfOk result (λ net. ShowsComplements net e.now) }
{
    let net = reddy_with(alloc, lead(names), names, e)?;
    reddy_law();
    Ok(net)
}
