//! The call of `choose`: advisors of each kind are asked for the product of three complements.
ghost use Rattle.std.specs.Prelude.{◌≤◌, ◌≡◌};
ghost use Rattle.fn_store.specs.Functions.{IsLive};

use crate::expanded::is_expansion;
use crate::stores::product;
use ae_base::Memory;
use expansion::{ExpandErr, Expansion, expand};
use fn_store::{FnRef, FnStore, TermLists};
use polarity::{Advisor, Entry, Listed, Negative, Told, Walker, choose};
use std::alloc::Global;
use std::test::Fail;
use synth_core::StoreMaker;
use test_support::{polarity, set};

/// The most terms of an expansion.
const LIMIT: u64 = 2;

/// For each proposal of an advisor the plain literals, and what was told.
type Proposals = &'static [(&'static [u32], Told)];

/// The advisor of the list, whose last mask is cut to the three inputs, then the walk, then the one that complements each input. A
/// polarity of k plain literals costs 2 to the k.
///
/// The walk draws 2, 2, 1, then 3, 3, 3, then 2, 3, 0.
static PROPOSALS: [Proposals; 3] = [
    &[(&[0, 1], Told::Over), (&[0], Told::Cost(2))],
    &[
        (&[2], Told::Cost(2)),
        (&[], Told::Cost(1)),
        (&[2], Told::Cost(2)),
    ],
    &[(&[], Told::Cost(1))],
];

fn advisors(alloc: Global) -> Result<Vec<Box<dyn Advisor>>, Memory> {
    let masks = Vec::from_slice(alloc, &[set(&[0, 1]), set(&[0, 5])])?;
    let mut all: Vec<Box<dyn Advisor>> = Vec::new(alloc);
    all.push(Box::new(alloc, Listed::new(alloc, masks))?)?;
    all.push(Box::new(alloc, Walker::new(alloc, 1, 3))?)?;
    all.push(Box::new(alloc, Negative::new(alloc))?)?;
    Ok(all)
}

/// Whether the entries are these proposals of three inputs, in order.
fn are_entries(entries: &[Entry], wanted: Proposals) -> bool {
    for (entry, proposal) in entries.iter().zip(wanted.iter()) {
        if entry.polarity.n != 3
            || entry.polarity.plain != set(proposal.0)
            || entry.cost != proposal.1
        {
            return false;
        }
    }
    entries.len() == wanted.len()
}

/// Whether nothing is left of the advisors, and their logs are these.
fn are_asked(advisors: &[Box<dyn Advisor>], wanted: &[Proposals]) -> bool {
    for (advisor, proposals) in advisors.iter().zip(wanted.iter()) {
        if advisor.left() != 0 || !are_entries(advisor.log(), proposals) {
            return false;
        }
    }
    advisors.len() == wanted.len()
}

/// The choice for a function of a store, from the store's polarity.
fn choose_for<S: FnStore>(
    alloc: Global,
    store: &S,
    f: FnRef,
    advisors: &mut Vec<Box<dyn Advisor>>,
) -> Result<Expansion, ExpandErr>
    requires live { IsLive (S.functions store.now) f }
    requires inputs { (S.functions store.now).polarity.n ≤ 8 }
{
    let start = expand(alloc, store, &[f], LIMIT)?;
    let base = expand(alloc, store, &[f], LIMIT)?;
    let maker = StoreMaker { base, limit: LIMIT };
    Ok(choose(alloc, advisors, start, &maker)?)
}

/// The choice for the product of three complements, from the polarity where the third literal alone is plain: the product of the literals
/// of two inputs and of what the third literal is not.
fn choose_for_complements(
    alloc: Global,
    advisors: &mut Vec<Box<dyn Advisor>>,
) -> Result<Expansion, ExpandErr> {
    let mut store = TermLists::new(alloc, polarity(3, set(&[2])))?;
    let f = product(&mut store, (true, true, false))?;
    choose_for(alloc, &store, f, advisors)
}

/// Whether the choice is the product of all three literals, each complemented, and nothing is left of the advisors.
fn chooses(alloc: Global) -> Result<bool, ExpandErr> {
    let mut advisors = advisors(alloc)?;
    let chosen = choose_for_complements(alloc, &mut advisors)?;
    Ok(is_expansion(&chosen, &[], &[&[0, 1, 2]]) && are_asked(&advisors, &PROPOSALS))
}

#[test]
fn chosen_among_proposals(rt: HostRuntime) -> Result<(), Fail> {
    let same = chooses(rt.alloc())?;
    assert!(rt; same);
    Ok(())
}
