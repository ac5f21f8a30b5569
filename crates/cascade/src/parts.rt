//! The gates of the Reddy network, part by part.
ghost use Rattle.std.specs.Prelude.{suc, ◌≡◌, ◌≤◌, ◌<◌, ◌+◌, ◌==◌, ◌++◌, ◌∷◌, [], if◌then◌else◌, length, map, true, codes, IfOk, OnOk};
ghost use Rattle.std.specs.Fmt.{decimal};
ghost use Rattle.ae_base.specs.Mask.{first, inside, members};
ghost use Rattle.ae_net.specs.Builder.{next};
ghost use Rattle.ae_net.specs.Gates as gate;
ghost use Rattle.ae_net.specs.Names.{inner};
ghost use Rattle.cascade.specs.Left.{links_of};
ghost use Rattle.cascade.specs.Plan.{IsPlan, IsChain, HasRoom, AreOver};
ghost use Rattle.cascade.specs.Reddy as spec;

use crate::signals::{Plan, literal_signal, start, term_signal};
use crate::terms::{rest, some_one};
use ae_base::{GATES, Memory, NET_LINES, Name, REDDY_TERMS, Term};
use ae_net::{Cell, NetBuilder, Pins, Sig, letter_name, numbered_name};
use std::alloc::Global;

/// The chain of an output.
#[derive(Drop)]
pub struct Chain<'a> {
    /// The name of the output, which the last gate has.
    pub out: &'a Name,
    /// The number of inner EXOR gates that stand before it.
    pub inner: usize,
    /// The signal that it starts at.
    pub start: Sig,
    /// The terms that are not empty, in order: a gate for each, or a buffer of the start where there is none.
    pub terms: Vec<Term>,
}

/// The signals of the literals of a term.
fn pins_of(alloc: Global, plan: &Plan<'_>, t: Term) -> Result<Pins, Memory>
    requires { IsPlan plan.now }
    ensures { IfOk result (λ pins. pins ≡ map (spec.literal_signal plan.now.expansion.now) (members t)) }
{
    let mut pins = Pins::new(alloc);
    for j in t.members() {
        pins.push(literal_signal(plan, j))?;
    }
    Ok(pins)
}

/// Adds the inverter of an input.
fn push_inverter(alloc: Global, plan: &Plan<'_>, j: u32, net: &mut NetBuilder) -> Result<(), Memory>
    requires plan { IsPlan plan.now }
    requires few { j ≤ NET_LINES }
    requires room { length net.old.gates < GATES }
    ensures gates { OnOk result (net.new.gates ≡ net.old.gates ++ gate.inverter (inner plan.now.lead (codes "i" ++ decimal (suc j))) j ∷ []) }
    ensures inputs { net.new.inputs ≡ net.old.inputs }
{
    let name = numbered_name(alloc, plan.lead, b'i', j as usize + 1)?;
    net.push(name, &Cell::Inverter(j))?;
    Ok(())
}

/// Adds the inverters of the used inputs that are complemented.
#[tactic(auto, using(crate::proofs::CodeLemmas::gates_for_more))]
pub fn push_inverters(alloc: Global, plan: &Plan<'_>, net: &mut NetBuilder) -> Result<(), Memory>
    requires plan { IsPlan plan.now }
    requires room { length net.old.gates + length plan.now.turned.items ≤ GATES }
    ensures gates { OnOk result (net.new.gates ≡ net.old.gates ++ spec.inverters plan.now.lead plan.now.expansion.now) }
    ensures inputs { net.new.inputs ≡ net.old.inputs }
{
    for j in plan.turned.as_slice() {
        push_inverter(alloc, plan, *j, net)?;
    }
    Ok(())
}

/// Adds the inverter of the control, where some output has the empty term.
#[tactic(auto, unfolding(crate::specs::Reddy::control_gates))]
pub fn push_control(alloc: Global, plan: &Plan<'_>, net: &mut NetBuilder) -> Result<(), Memory>
    requires plan { IsPlan plan.now }
    requires room { length net.old.gates < GATES }
    ensures gates { OnOk result (net.new.gates ≡ net.old.gates ++ spec.control_gates plan.now.lead plan.now.expansion.now) }
    ensures inputs { net.new.inputs ≡ net.old.inputs }
{
    if some_one(plan.expansion.lists()) {
        let name = letter_name(alloc, plan.lead, b'm')?;
        net.push(name, &Cell::Inverter(plan.expansion.inputs()))?;
    }
    Ok(())
}

/// Adds the AND gate of a term, whose place among the AND gates is `i`.
#[tactic(auto, using(crate::proofs::CodeLemmas::few_pins))]
fn push_and(
    alloc: Global,
    plan: &Plan<'_>,
    i: usize,
    t: Term,
    net: &mut NetBuilder,
) -> Result<(), Memory>
    requires plan { IsPlan plan.now }
    requires small { i < REDDY_TERMS }
    requires below { inside t (first plan.now.expansion.now.polarity.n) ≡ true }
    requires room { length net.old.gates < GATES }
    ensures gates { OnOk result (net.new.gates ≡ net.old.gates ++ gate.and_gate (inner plan.now.lead (codes "t" ++ decimal (suc i))) (map (spec.literal_signal plan.now.expansion.now) (members t)) ∷ []) }
    ensures inputs { net.new.inputs ≡ net.old.inputs }
{
    let name = numbered_name(alloc, plan.lead, b't', i + 1)?;
    let pins = pins_of(alloc, plan, t)?;
    net.push(name, &Cell::And(pins))?;
    Ok(())
}

/// Adds the AND gates of the terms of two or more members, in order.
#[tactic(auto, using(crate::proofs::CodeLemmas::gates_for_more))]
pub fn push_ands(alloc: Global, plan: &Plan<'_>, net: &mut NetBuilder) -> Result<(), Memory>
    requires plan { IsPlan plan.now }
    requires room { length net.old.gates + length plan.now.wide.items ≤ GATES }
    ensures gates { OnOk result (net.new.gates ≡ net.old.gates ++ spec.and_gates plan.now.lead plan.now.expansion.now) }
    ensures inputs { net.new.inputs ≡ net.old.inputs }
{
    for (i, t) in plan.wide.as_slice().iter().enumerate() {
        push_and(alloc, plan, i, *t, net)?;
    }
    Ok(())
}

/// The chain of an output with these terms, before which `inner` inner EXOR gates stand.
#[tactic(auto, using(crate::proofs::CodeLemmas::rest_inside))]
pub fn chain_of<'a>(
    alloc: Global,
    plan: &Plan<'_>,
    out: &'a Name,
    inner: usize,
    terms: &[Term],
) -> Result<Chain<'a>, Memory>
    requires plan { IsPlan plan.now }
    requires below { AreOver plan.now.expansion.now terms.now }
    ensures { IfOk result (λ chain. IsChain chain plan.now.expansion.now out.now inner terms.now) }
{
    Ok(Chain {
        out,
        inner,
        start: start(plan, terms),
        terms: rest(alloc, terms)?,
    })
}

/// The name of the gate in place `d` of a chain: the output's at the end, else an inner name.
fn link_name(alloc: Global, plan: &Plan<'_>, chain: &Chain<'_>, d: usize) -> Result<Name, Memory>
    requires plan { IsPlan plan.now }
    requires within { d < length chain.now.terms.items }
    requires small { chain.now.inner + length chain.now.terms.items ≤ GATES }
    ensures { IfOk result (λ name. name ≡ (if d + 1 == length chain.now.terms.items then chain.now.out.now else inner plan.now.lead (codes "x" ++ decimal (suc (chain.now.inner + d))))) }
{
    if d + 1 == chain.terms.len() {
        chain.out.copy(alloc)
    } else {
        numbered_name(alloc, plan.lead, b'x', chain.inner + d + 1)
    }
}

/// Adds the EXOR gates of a chain that has terms, and answers the last one's signal.
fn push_links(
    alloc: Global,
    plan: &Plan<'_>,
    chain: &Chain<'_>,
    net: &mut NetBuilder,
) -> Result<Sig, Memory>
    requires plan { IsPlan plan.now }
    requires below { AreOver plan.now.expansion.now chain.now.terms.items }
    requires some { 0 < length chain.now.terms.items }
    requires room { HasRoom chain.now (length net.old.gates) }
    requires inputs { length net.old.inputs ≡ spec.lines plan.now.expansion.now }
    ensures gates { OnOk result (net.new.gates ≡ net.old.gates ++ links_of plan.now.lead plan.now.expansion.now chain.now.out.now chain.now.inner (length net.old.gates) chain.now.start chain.now.terms.items) }
    ensures inputs { net.new.inputs ≡ net.old.inputs }
    ensures last { IfOk result (λ signal. suc signal ≡ next net.new) }
{
    let terms = chain.terms.as_slice();
    let mut line = chain.start;
    for d in 0..terms.len() {
        let name = link_name(alloc, plan, chain, d)?;
        line = net.push(name, &Cell::Exor(line, term_signal(plan, terms[d])))?;
    }
    Ok(line)
}

/// Adds the gates of a chain, EXOR gates or a buffer of the start where it has no terms, and answers the last one's signal.
pub fn push_chain(
    alloc: Global,
    plan: &Plan<'_>,
    chain: &Chain<'_>,
    net: &mut NetBuilder,
) -> Result<Sig, Memory>
    requires plan { IsPlan plan.now }
    requires below { AreOver plan.now.expansion.now chain.now.terms.items }
    requires room { HasRoom chain.now (length net.old.gates) }
    requires inputs { length net.old.inputs ≡ spec.lines plan.now.expansion.now }
    ensures gates { OnOk result (net.new.gates ≡ net.old.gates ++ spec.chain plan.now.lead plan.now.expansion.now chain.now.out.now chain.now.inner (length net.old.gates) chain.now.start chain.now.terms.items) }
    ensures inputs { net.new.inputs ≡ net.old.inputs }
    ensures last { IfOk result (λ signal. suc signal ≡ next net.new) }
{
    if chain.terms.is_empty() {
        return net.push(chain.out.copy(alloc)?, &Cell::Buffer(chain.start));
    }
    push_links(alloc, plan, chain, net)
}
