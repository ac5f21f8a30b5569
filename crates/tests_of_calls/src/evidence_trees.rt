//! The calls of `redundancy`: the check of evidence trees, and what is found for a fault.

use ae_base::{Memory, Step};
use ae_net::{Fault, Net, Place, is_place, scratch_for};
use blif_read::BlifErr;
use redundancy::{Found, LEAVES, check_tree, evidence};
use std::alloc::Global;
use std::test::Fail;
use test_support::{net_of, set};

/// The factored network of the OR of the second input and of the third where the first is 0. The stem of `h` at 1 changes nothing.
static FACTORED: &[u8] =
    b".model m\n.inputs a b c\n.outputs f\n.names a g\n0 1\n.names b h\n0 1\n.names g h c i\n111 1\n.names b i f\n1- 1\n-1 1\n";

/// The cascade of the AND of `a` and `b`, whose control is `c`.
static CASCADE: &[u8] =
    b".model m\n.inputs a b c\n.outputs f\n.names a b e\n11 1\n.names c e f\n10 1\n01 1\n";

/// The AND of the parity of twelve inputs and of its complement: it is 0 at each point, and nothing less than a whole point shows it.
static TWELVE: &[u8] =
    b".model chain\n.inputs a b c d e f g h i j k l\n.outputs z\n.names a b e1\n10 1\n01 1\n.names e1 c e2\n10 1\n01 1\n.names e2 d e3\n10 1\n01 1\n.names e3 e e4\n10 1\n01 1\n.names e4 f e5\n10 1\n01 1\n.names e5 g e6\n10 1\n01 1\n.names e6 h e7\n10 1\n01 1\n.names e7 i e8\n10 1\n01 1\n.names e8 j e9\n10 1\n01 1\n.names e9 k e10\n10 1\n01 1\n.names e10 l e11\n10 1\n01 1\n.names e11 n\n0 1\n.names e11 n z\n11 1\n";

/// The same for thirteen inputs.
static THIRTEEN: &[u8] =
    b".model chain\n.inputs a b c d e f g h i j k l m\n.outputs z\n.names a b e1\n10 1\n01 1\n.names e1 c e2\n10 1\n01 1\n.names e2 d e3\n10 1\n01 1\n.names e3 e e4\n10 1\n01 1\n.names e4 f e5\n10 1\n01 1\n.names e5 g e6\n10 1\n01 1\n.names e6 h e7\n10 1\n01 1\n.names e7 i e8\n10 1\n01 1\n.names e8 j e9\n10 1\n01 1\n.names e9 k e10\n10 1\n01 1\n.names e10 l e11\n10 1\n01 1\n.names e11 m e12\n10 1\n01 1\n.names e12 n\n0 1\n.names e12 n z\n11 1\n";

/// A word, and whether it is a whole tree whose leaves hold for the stem of `h` at 1.
static WORDS: [(&[Step], bool); 7] = [
    (&[Step::S, Step::S, Step::L, Step::L, Step::L], true),
    (&[Step::S, Step::S, Step::L, Step::L], false),
    (&[Step::L], false),
    (
        &[Step::S, Step::S, Step::L, Step::L, Step::L, Step::L],
        false,
    ),
    // a split where all three inputs are known
    (
        &[
            Step::S,
            Step::S,
            Step::S,
            Step::S,
            Step::L,
            Step::L,
            Step::L,
            Step::L,
            Step::L,
        ],
        false,
    ),
    (&[], false),
    (&[Step::S, Step::L, Step::L], false),
];

/// Whether the word holds, where the place is one of the network.
fn holds(alloc: Global, net: &Net, fault: Fault, word: &[Step]) -> Result<Option<bool>, Memory> {
    if !is_place(net, fault.place) {
        return Ok(None);
    }
    let mut scratch = scratch_for(alloc, net)?;
    Ok(Some(check_tree(net, fault, word, &mut scratch)))
}

/// The place of the first word of the table with another answer, where there is one.
fn first_other(alloc: Global) -> Result<Option<usize>, BlifErr> {
    let net = net_of(alloc, FACTORED)?;
    let fault = Fault {
        place: Place::Stem(4),
        value: true,
    };
    for (i, (word, wanted)) in WORDS.iter().enumerate() {
        if holds(alloc, &net, fault, word)? != Some(*wanted) {
            return Ok(Some(i));
        }
    }
    Ok(None)
}

#[test]
fn words_are_checked(rt: HostRuntime) -> Result<(), Fail> {
    let other = first_other(rt.alloc())?;
    assert_eq!(rt; other, None);
    Ok(())
}

/// What is found for the fault, where its place is one of the network.
fn found(alloc: Global, text: &[u8], fault: Fault) -> Result<Option<Found>, BlifErr> {
    let net = net_of(alloc, text)?;
    if !is_place(&net, fault.place) {
        return Ok(None);
    }
    Ok(Some(evidence(alloc, &net, fault)?))
}

/// Whether the word of the fault's tree is this one.
fn has_tree(alloc: Global, place: Place, value: bool, wanted: &[Step]) -> Result<bool, BlifErr> {
    match found(alloc, FACTORED, Fault { place, value })? {
        Some(Found::Tree(word)) => Ok(word.as_slice() == wanted),
        _ => Ok(false),
    }
}

static TREE: [Step; 5] = [Step::S, Step::S, Step::L, Step::L, Step::L];

/// Whether the three faults that no point detects have their tree.
fn have_trees(alloc: Global) -> Result<bool, BlifErr> {
    let stem = has_tree(alloc, Place::Stem(4), true, &TREE)?;
    let pin = has_tree(alloc, Place::Pin(1, 0), false, &TREE)?;
    let other = has_tree(alloc, Place::Pin(2, 1), true, &TREE)?;
    Ok(stem && pin && other)
}

#[test]
fn trees_are_found(rt: HostRuntime) -> Result<(), Fail> {
    let trees = have_trees(rt.alloc())?;
    assert!(rt; trees);
    Ok(())
}

/// Whether a point is found, at which these inputs are 1.
fn is_point(found: &Found, ones: &[u32]) -> bool {
    match found {
        Found::Differs(point) => *point == set(ones),
        _ => false,
    }
}

/// Whether the point 000 is found for the output stuck at 1.
fn differs(alloc: Global) -> Result<bool, BlifErr> {
    let fault = Fault {
        place: Place::Port(0),
        value: true,
    };
    match found(alloc, CASCADE, fault)? {
        Some(found) => Ok(is_point(&found, &[])),
        None => Ok(false),
    }
}

#[test]
fn a_point_is_found(rt: HostRuntime) -> Result<(), Fail> {
    let differs = differs(rt.alloc())?;
    assert!(rt; differs);
    Ok(())
}

fn leaves(word: &[Step]) -> usize {
    word.iter().filter(|step| **step == Step::L).count()
}

/// Whether the whole tree over twelve inputs is found, of as many leaves as there may be.
fn is_widest(alloc: Global) -> Result<bool, BlifErr> {
    let fault = Fault {
        place: Place::Stem(24),
        value: false,
    };
    match found(alloc, TWELVE, fault)? {
        Some(Found::Tree(word)) => Ok(leaves(&word) == LEAVES as usize && word.len() == 8_191),
        _ => Ok(false),
    }
}

#[test]
fn as_many_leaves_as_there_may_be(rt: HostRuntime) -> Result<(), Fail> {
    let widest = is_widest(rt.alloc())?;
    assert!(rt; widest);
    Ok(())
}

fn is_too_wide(alloc: Global) -> Result<bool, BlifErr> {
    let fault = Fault {
        place: Place::Stem(26),
        value: false,
    };
    match found(alloc, THIRTEEN, fault)? {
        Some(Found::TooWide) => Ok(true),
        _ => Ok(false),
    }
}

#[test]
fn more_leaves_than_there_may_be(rt: HostRuntime) -> Result<(), Fail> {
    let wide = is_too_wide(rt.alloc())?;
    assert!(rt; wide);
    Ok(())
}
