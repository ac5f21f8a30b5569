//! The calls of function stores, through their trait, and the expansions of a store's functions.
ghost use Rattle.std.specs.Prelude.{◌≤◌, ◌<◌, IfOk, All, length};
ghost use Rattle.fn_store.specs.Functions.{IsLive, Keeps};

use crate::expanded::has_terms;
use ae_base::{Memory, Polarity};
use davio_dd::Davio;
use expansion::{ExpandErr, expand};
use fn_store::{FnRef, FnStore, TermLists, TermsErr};
use std::alloc::Global;
use std::test::Fail;
use test_support::set;

/// The literal of an input, or its complement.
fn literal_at<S: FnStore>(store: &mut S, j: u32, high: bool) -> Result<FnRef, Memory>
    requires { j < (S.functions store.old).polarity.n }
    ensures live { IfOk result (IsLive (S.functions store.new)) }
    ensures keeps { Keeps (S.functions store.old) (S.functions store.new) }
{
    let literal = store.literal(j)?;
    if high {
        Ok(literal)
    } else {
        store.not(literal)
    }
}

/// The product of the literals of three inputs, or of their complements.
pub fn product<S: FnStore>(store: &mut S, high: (bool, bool, bool)) -> Result<FnRef, Memory>
    requires { 3 ≤ (S.functions store.old).polarity.n }
    ensures live { IfOk result (IsLive (S.functions store.new)) }
    ensures keeps { Keeps (S.functions store.old) (S.functions store.new) }
{
    let first = literal_at(store, 0, high.0)?;
    let second = literal_at(store, 1, high.1)?;
    let third = literal_at(store, 2, high.2)?;
    let both = store.and(first, second)?;
    store.and(both, third)
}

fn has_more<S: FnStore>(store: &S, f: FnRef, k: u64) -> bool
    requires { IsLive (S.functions store.now) f }
{
    match store.terms_upto(f, k) {
        Err(TermsErr::More) => true,
        _ => false,
    }
}

/// Whether the product of three complements has eight terms.
fn has_eight_terms<S: FnStore>(store: &mut S) -> Result<bool, Memory>
    requires { 3 ≤ (S.functions store.old).polarity.n }
    ensures { Keeps (S.functions store.old) (S.functions store.new) }
{
    let f = product(store, (false, false, false))?;
    let same = has_terms(
        store,
        f,
        &[&[], &[0], &[1], &[2], &[0, 1], &[0, 2], &[1, 2], &[0, 1, 2]],
    )?;
    Ok(same && has_more(store, f, 7))
}

/// Whether a product is that of its factors in the other order.
fn is_turned<S: FnStore>(store: &mut S) -> Result<bool, Memory>
    requires { 3 ≤ (S.functions store.old).polarity.n }
    ensures { Keeps (S.functions store.old) (S.functions store.new) }
{
    let first = store.literal(0)?;
    let second = store.literal(1)?;
    let product = store.and(first, second)?;
    let turned = store.and(second, first)?;
    let apart = store.xor(product, turned)?;
    Ok(store.same(apart, store.zero()))
}

/// Whether a literal is not its complement.
fn is_apart<S: FnStore>(store: &mut S) -> Result<bool, Memory>
    requires { 3 ≤ (S.functions store.old).polarity.n }
    ensures { Keeps (S.functions store.old) (S.functions store.new) }
{
    let literal = store.literal(0)?;
    let complement = store.not(literal)?;
    Ok(!store.same(literal, complement))
}

/// Whether the product of two complements and a literal is 1 at the third input alone, and 0 nowhere.
fn has_one_point<S: FnStore>(store: &mut S) -> Result<bool, Memory>
    requires { 3 ≤ (S.functions store.old).polarity.n }
    ensures { Keeps (S.functions store.old) (S.functions store.new) }
{
    let f = product(store, (false, false, true))?;
    Ok(store.point(f) == Some(set(&[2])) && store.point(store.zero()) == None)
}

/// The first output at which the functions' terms pass the limit, where they do.
fn first_over<S: FnStore>(
    alloc: Global,
    store: &S,
    refs: &[FnRef],
    limit: u64,
) -> Result<Option<u32>, Memory>
    requires live { All (IsLive (S.functions store.now)) refs.now }
    requires few { length refs.now ≤ 3 }
    requires limit { limit ≤ 9 }
{
    match expand(alloc, store, refs, limit) {
        Ok(_) => Ok(None),
        Err(ExpandErr::TooManyTerms { output }) => Ok(Some(output)),
        Err(ExpandErr::Memory) => Err(Memory),
    }
}

/// Whether the constant 1, a product of eight terms and the constant 0 have nine terms, pass a limit of eight at the product, and pass
/// one of none at the constant 1.
fn keep_limits<S: FnStore>(alloc: Global, store: &mut S) -> Result<bool, Memory>
    requires { 3 ≤ (S.functions store.old).polarity.n }
{
    let product = product(store, (false, false, false))?;
    let refs = [store.one(), product, store.zero()];
    let nine = first_over(alloc, store, &refs, 9)?;
    let eight = first_over(alloc, store, &refs, 8)?;
    let none = first_over(alloc, store, &refs, 0)?;
    Ok(nine == None && eight == Some(1) && none == Some(0))
}

/// Which of the calls answer as they should.
#[derive(Debug, PartialEq, Clone, Copy)]
struct Answers {
    terms: bool,
    turned: bool,
    apart: bool,
    point: bool,
    limits: bool,
}

const RIGHT: Answers = Answers {
    terms: true,
    turned: true,
    apart: true,
    point: true,
    limits: true,
};

/// Makes each call of a store.
fn answer_each<S: FnStore>(alloc: Global, store: &mut S) -> Result<Answers, Memory>
    requires { 3 ≤ (S.functions store.old).polarity.n }
{
    let terms = has_eight_terms(store)?;
    let turned = is_turned(store)?;
    let apart = is_apart(store)?;
    let point = has_one_point(store)?;
    let limits = keep_limits(alloc, store)?;
    Ok(Answers {
        terms,
        turned,
        apart,
        point,
        limits,
    })
}

#[test]
fn term_lists(rt: HostRuntime) -> Result<(), Fail> {
    let alloc = rt.alloc();
    let mut store = TermLists::new(alloc, Polarity::all_plain(3))?;
    let answers = answer_each(alloc, &mut store)?;
    assert_eq!(rt; answers, RIGHT);
    Ok(())
}

#[test]
fn diagrams(rt: HostRuntime) -> Result<(), Fail> {
    let alloc = rt.alloc();
    let mut store = Davio::new(alloc, Polarity::all_plain(3))?;
    let answers = answer_each(alloc, &mut store)?;
    assert_eq!(rt; answers, RIGHT);
    Ok(())
}
