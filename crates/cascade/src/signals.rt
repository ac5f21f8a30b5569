//! The signals of literals, of terms and of the starts of chains.
ghost use Rattle.std.specs.Prelude.{◌≡◌, ◌≤◌, true, length, slice_index};
ghost use Rattle.ae_base.specs.Mask.{first, inside, members};
ghost use Rattle.ae_base.specs.Terms.{IsInOrder};
ghost use Rattle.cascade.specs.Reddy as spec;
ghost use Rattle.cascade.specs.Plan.{IsPlan};

use crate::terms::has_one;
use ae_base::{Mask, Term};
use expansion::Expansion;

/// What is worked out before the gates are made.
#[derive(Drop)]
pub struct Plan<'a> {
    /// The expansions whose network is built.
    pub expansion: &'a Expansion,
    /// The number of underscores that inner names begin with.
    pub lead: u32,
    /// The inputs that have an inverter, in order.
    pub turned: Vec<u32>,
    /// The terms that have an AND gate, in order.
    pub wide: Vec<Term>,
    /// The place of the first AND gate.
    pub ands: u32,
}

/// The place of a number in a list, or the list's length.
#[tactic(auto, using(crate::proofs::Law::place_first, crate::proofs::Ordered::place_past))]
fn place_of(list: &[u32], x: u32) -> usize
    ensures place { result ≡ spec.place_of list.now x }
    ensures within { result ≤ length list.now }
{
    for (i, y) in list.iter().enumerate() {
        if *y == x {
            return i;
        }
    }
    list.len()
}

/// The place of a term in a list in term order, or the list's length.
fn place_of_term(list: &[Term], t: Term) -> usize
    requires { IsInOrder list.now }
    ensures place { result ≡ spec.place_of list.now t }
    ensures within { result ≤ length list.now }
{
    match list.binary_search(&t) {
        Ok(i) => i,
        Err(_) => list.len(),
    }
}

/// The signal of the literal of an input.
#[tactic(auto, unfolding(crate::specs::Reddy::literal_signal))]
pub fn literal_signal(plan: &Plan<'_>, j: u32) -> u32
    requires { IsPlan plan.now }
    ensures { result ≡ spec.literal_signal plan.now.expansion.now j }
{
    let polarity = plan.expansion.polarity();
    if polarity.plain.has(j) {
        j
    } else {
        polarity.n + 1 + place_of(&plan.turned, j) as u32
    }
}

/// The first member of a term, or 0.
#[tactic(auto, unfolding(ae_base::specs::Mask::least))]
fn first_member(t: Term) -> u32
    ensures { result ≡ slice_index (members t) 0 }
{
    t.least().unwrap_or(0)
}

/// Whether the term has two or more members.
pub fn is_wide(t: Term) -> bool
    ensures { result ≡ spec.is_wide t }
{
    1 < t.len()
}

/// The signal of a term.
#[tactic(auto, using(crate::proofs::Ordered::plan_in_order), unfolding(crate::specs::Reddy::term_signal))]
pub fn term_signal(plan: &Plan<'_>, t: Term) -> u32
    requires plan { IsPlan plan.now }
    requires below { inside t (first plan.now.expansion.now.polarity.n) ≡ true }
    ensures { result ≡ spec.term_signal plan.now.expansion.now t }
{
    if is_wide(t) {
        plan.expansion.inputs() + 1 + (plan.ands + place_of_term(&plan.wide, t) as u32)
    } else {
        literal_signal(plan, first_member(t))
    }
}

/// Where the chain of an output starts: at the inverter of the control where the output has the empty term, else at the control.
#[tactic(auto, unfolding(crate::specs::Reddy::start))]
pub fn start(plan: &Plan<'_>, terms: &[Term]) -> u32
    requires { IsPlan plan.now }
    ensures { result ≡ spec.start plan.now.expansion.now terms.now }
{
    if has_one(terms) {
        plan.expansion.inputs() + 1 + plan.turned.len() as u32
    } else {
        plan.expansion.inputs()
    }
}
