//! The functions of an expansion's lists of terms.
ghost use Rattle.std.specs.Prelude.{◌≡◌, ◌&&◌, ◌<◌, ◌≤◌, Bool, [], IfOk, length, slice_index_or};
ghost use Rattle.ae_base.specs.Mask.{Set, differ};
ghost use Rattle.ae_base.specs.Source.{Source, on_set};
ghost use Rattle.ae_base.specs.Terms.{literal, value};
ghost use Rattle.expansion.specs.Functions.{AreExpansions};
ghost use Rattle.expansion.specs.declared.limits.TheConstants.{LISTS};
ghost use Rattle.fn_store.specs.Functions.{IsLive, Shows, Keeps};
ghost use Rattle.net_fn.specs.Refs.{ShowEach};
ghost use Rattle.net_fn.specs.Splits as spec;

use crate::nets::constant;
use crate::products::input;
use ae_base::{Memory, Polarity, Term};
use expansion::{Expansion, taken_out};
use fn_store::{FnRef, FnStore, expansion_law, store_laws};
use std::alloc::Global;

/// For each list of an expansion, in order, the function whose expansion at the expansion's polarity the list is. The store has as many
/// inputs, and any polarity. Where memory runs out, `Memory`; the store has kept its functions then too.
pub fn expansion_values<S: FnStore>(
    alloc: Global,
    store: &mut S,
    e: &Expansion,
) -> Result<Vec<FnRef>, Memory>
    requires { (S.functions store.old).polarity.n ≡ e.now.polarity.n }
    ensures count { IfOk result (λ refs. length refs.items ≡ length e.now.outs) }
    ensures few { IfOk result (λ refs. length refs.items < LISTS) }
    ensures shows { IfOk result (λ refs. ShowEach (S.functions store.new) refs.items (λ o. value e.now.polarity (slice_index_or e.now.outs o []))) }
    ensures source { IfOk result (λ refs. (s : Source) → AreExpansions s e.now.polarity e.now → ShowEach (S.functions store.new) refs.items (on_set s)) }
    ensures keeps { Keeps (S.functions store.old) (S.functions store.new) }
{
    expansion_law();
    store_laws();
    let polarity = e.polarity();
    let mut refs = Vec::new(alloc);
    for terms in e.lists() {
        refs.push(terms_from(alloc, store, polarity, terms.as_slice(), 0)?)?;
    }
    Ok(refs)
}

/// The EXOR of the products of the terms at a polarity, where no term holds an input below `j`. They are split at `j` into those without
/// it and those with it.
fn terms_from<S: FnStore>(
    alloc: Global,
    store: &mut S,
    polarity: Polarity,
    terms: &[Term],
    j: u32,
) -> Result<FnRef, Memory>
    requires inputs { (S.functions store.old).polarity.n ≡ polarity.n }
    requires j { j ≤ polarity.n }
    requires terms { spec.AreBetween j polarity.n terms.now }
    ensures shows { IfOk result (λ r. Shows (S.functions store.new) r (value polarity terms.now)) }
    ensures keeps { Keeps (S.functions store.old) (S.functions store.new) }
{
    if terms.is_empty() || j == polarity.n {
        let is_odd = terms.len() % 2 == 1; // each term is empty, and means 1
        return Ok(constant(store, is_odd));
    }
    let without = lacking(alloc, terms, j)?;
    let low = terms_from(alloc, store, polarity, &without, j + 1)?;
    let with = taken_out(alloc, terms, j)?;
    let high = terms_from(alloc, store, polarity, &with, j + 1)?;
    add_times(store, low, polarity, j, high)
}

/// The terms that lack the input.
fn lacking(alloc: Global, terms: &[Term], j: u32) -> Result<Vec<Term>, Memory>
    ensures { IfOk result (λ ts. ts.items ≡ spec.lacking j terms.now) }
{
    let others = terms.iter().filter(|t| !t.has(j)).copied().collect(alloc)?;
    Ok(others)
}

/// The EXOR of a function and of the product of another one with the literal of an input at a polarity.
fn add_times<S: FnStore>(
    store: &mut S,
    low: FnRef,
    polarity: Polarity,
    j: u32,
    high: FnRef,
) -> Result<FnRef, Memory>
    requires j { j < (S.functions store.old).polarity.n }
    requires low { IsLive (S.functions store.old) low }
    requires high { IsLive (S.functions store.old) high }
    ensures shows { IfOk result (λ r. (f g : Set → Bool) → Shows (S.functions store.old) low f → Shows (S.functions store.old) high g
        → Shows (S.functions store.new) r (λ x. differ (f x) (literal polarity j x && g x))) }
    ensures keeps { Keeps (S.functions store.old) (S.functions store.new) }
{
    let literal = literal_at(store, polarity, j)?;
    let there = store.and(literal, high)?;
    store.xor(low, there)
}

/// The literal of an input at a polarity.
fn literal_at<S: FnStore>(store: &mut S, polarity: Polarity, j: u32) -> Result<FnRef, Memory>
    requires { j < (S.functions store.old).polarity.n }
    ensures shows { IfOk result (λ r. Shows (S.functions store.new) r (literal polarity j)) }
    ensures keeps { Keeps (S.functions store.old) (S.functions store.new) }
{
    let value = input(store, j)?;
    if polarity.plain.has(j) {
        Ok(value)
    } else {
        store.not(value)
    }
}
