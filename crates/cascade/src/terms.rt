//! The terms and inputs that the parts of the network stand for.
ghost use Rattle.std.specs.Prelude.{◌≡◌, ◌&&◌, ◌==◌, ◌++◌, ◌∷◌, [], filter, not, if◌then◌else◌, IfOk, OnOk};
ghost use Rattle.std.specs.List.{list_any, flat_map};
ghost use Rattle.ae_base.specs.Mask.{members};
ghost use Rattle.expansion.specs.Terms as terms_spec;
ghost use Rattle.cascade.specs.Reddy as spec;

use crate::signals::is_wide;
use crate::vectors::literals_low;
use ae_base::{Mask, Memory, Seq, Term};
use expansion::Expansion;
use std::alloc::Global;

/// Whether the list has the empty term.
pub fn has_one(terms: &[Term]) -> bool
    ensures { result ≡ spec.has_one terms.now }
{
    terms.iter().any(|t| *t == Mask::empty())
}

/// Whether some output has the empty term.
pub fn some_one(outs: &[Seq<Term>]) -> bool
    ensures { result ≡ list_any spec.has_one outs.now }
{
    outs.iter().any(|terms| has_one(terms.as_slice()))
}

/// The members of a set, in order.
fn list_of(alloc: Global, set: Mask) -> Result<Vec<u32>, Memory>
    ensures { IfOk result (λ list. list.items ≡ members set) }
{
    let mut list = Vec::new(alloc);
    for j in set.members() {
        list.push(j)?;
    }
    Ok(list)
}

/// The used inputs that are complemented, in order: those that are 1 where all literals of used inputs are 0.
#[tactic(auto, using(crate::proofs::VectorLemmas::turned_members))]
pub fn turned(alloc: Global, e: &Expansion) -> Result<Vec<u32>, Memory>
    ensures { IfOk result (λ list. list.items ≡ spec.turned e.now) }
{
    list_of(alloc, literals_low(e))
}

/// Adds a term, where it has two or more members.
fn push_wide(list: &mut Vec<Term>, t: Term) -> Result<(), Memory>
    ensures { OnOk result (list.new.items ≡ (if spec.is_wide t then list.old.items ++ t ∷ [] else list.old.items)) }
{
    if is_wide(t) {
        list.push(t)?;
    }
    Ok(())
}

/// Adds the terms of two or more members.
fn push_wide_terms(list: &mut Vec<Term>, terms: &[Term]) -> Result<(), Memory>
    ensures { OnOk result (list.new.items ≡ list.old.items ++ filter spec.is_wide terms.now) }
{
    for t in terms {
        push_wide(list, *t)?;
    }
    Ok(())
}

/// The terms of two or more members in all outputs, output after output.
fn all_wide_terms(alloc: Global, outs: &[Seq<Term>]) -> Result<Vec<Term>, Memory>
    ensures { IfOk result (λ list. list.items ≡ filter spec.is_wide (flat_map (λ terms. terms) outs.now)) }
{
    let mut list = Vec::new(alloc);
    for terms in outs {
        push_wide_terms(&mut list, terms.as_slice())?;
    }
    Ok(list)
}

/// The terms of two or more members, in order, once each.
pub fn wide_terms(alloc: Global, e: &Expansion) -> Result<Vec<Term>, Memory>
    ensures { IfOk result (λ list. list.items ≡ spec.wide_terms e.now) }
{
    let mut list = all_wide_terms(alloc, e.lists())?;
    list.sort()?;
    list.dedup();
    Ok(list)
}

/// The terms but the empty one.
pub fn rest(alloc: Global, terms: &[Term]) -> Result<Vec<Term>, Memory>
    ensures { IfOk result (λ list. list.items ≡ spec.rest terms.now) }
{
    let list: Vec<Term> = terms
        .iter()
        .copied()
        .filter(|t| *t != Mask::empty())
        .collect(alloc)?;
    Ok(list)
}
