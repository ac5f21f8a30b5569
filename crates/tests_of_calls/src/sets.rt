//! The calls of `ae_base`: names, sets, cubes, lists and pieces of text.

use ae_base::{
    Cube, Mask, Memory, Name, Polarity, Seq, WIDTH, copies, is_name, is_source_name, push_bits,
    push_names, push_new, push_word,
};
use std::alloc::Global;
use std::cmp::Ordering;
use std::test::Fail;
use test_support::set;

/// Bytes, and whether they are a name.
struct Word {
    bytes: &'static [u8],
    is_name: bool,
}

static WORDS: [Word; 4] = [
    Word {
        bytes: b"",
        is_name: false,
    },
    Word {
        bytes: b"a#",
        is_name: false,
    },
    Word {
        bytes: b"a\\",
        is_name: false,
    },
    Word {
        bytes: b"a",
        is_name: true,
    },
];

fn is_as_said(alloc: Global, word: &Word) -> Result<bool, Memory> {
    if is_name(word.bytes) != word.is_name {
        return Ok(false);
    }
    match Name::from_bytes(alloc, word.bytes)? {
        Some(name) => Ok(word.is_name && name.bytes() == word.bytes && name.copy(alloc)? == name),
        None => Ok(!word.is_name),
    }
}

fn words_are_as_said(alloc: Global) -> Result<bool, Memory> {
    for word in &WORDS {
        if !is_as_said(alloc, word)? {
            return Ok(false);
        }
    }
    Ok(true)
}

/// A name of 256 bytes is none of a source.
fn long_names_are_as_said() -> bool {
    let long = [b'a'; 256];
    is_name(&long) && !is_source_name(&long) && is_source_name(&long[1..])
}

#[test]
fn names(rt: HostRuntime) -> Result<(), Fail> {
    let same = words_are_as_said(rt.alloc())?;
    assert!(rt; same);
    assert!(rt; long_names_are_as_said());
    Ok(())
}

#[test]
fn want_of_memory(rt: HostRuntime) -> Result<(), Fail> {
    let text = format!(in rt.alloc(); "{}", Memory)?;
    assert!(rt; text.as_str() == "want of memory");
    Ok(())
}

/// The set of 1 and the greatest number.
fn outer() -> Mask {
    Mask::empty().with(1).with(WIDTH - 1)
}

fn has_its_members() -> bool {
    let all = outer();
    all.has(1)
        && !all.has(2)
        && !all.has(WIDTH)
        && all.len() == 2
        && all.least() == Some(1)
        && all.without(1).least() == Some(WIDTH - 1)
        && Mask::empty().least() == None
        && Mask::first(WIDTH).len() == WIDTH
        && !all.is_empty()
        && Mask::empty().is_empty()
}

/// The members in order, and 1 once more where the list has it.
fn lists_its_members(alloc: Global) -> Result<bool, Memory> {
    let mut list = Vec::new(alloc);
    for j in outer().members() {
        push_new(&mut list, j)?;
        push_new(&mut list, 1)?;
    }
    Ok(list.as_slice() == [1, WIDTH - 1].as_slice())
}

fn meets_other_sets() -> bool {
    let all = outer();
    let low = Mask::first(3);
    all.both(low) == set(&[1])
        && all.or(low) == set(&[0, 1, 2, WIDTH - 1])
        && all.xor(low) == set(&[0, 2, WIDTH - 1])
        && all.both(low).inside(low)
        && !all.inside(low)
        && all.cmp_terms(low) == Ordering::Less
        && low < Mask::first(4)
}

#[test]
fn sets(rt: HostRuntime) -> Result<(), Fail> {
    let listed = lists_its_members(rt.alloc())?;
    assert!(rt; listed);
    assert!(rt; has_its_members());
    assert!(rt; meets_other_sets());
    Ok(())
}

#[tactic(auto, using(ae_base::proofs::Sets::set_members), unfolding(ae_base::specs::Cube::whole))]
fn literals() -> (Cube, Cube) {
    (Cube::whole().with(0, true), Cube::whole().with(0, false))
}

fn cubes_are_as_said() -> bool {
    let whole = Cube::whole();
    let (plain, complemented) = literals();
    whole.holds(Mask::empty())
        && plain.holds(Mask::first(2))
        && !complemented.holds(Mask::first(2))
        && plain.meets(whole)
        && !plain.meets(complemented)
        && plain.distance(complemented) == 1
        && plain.literal_text(0) == b'1'
        && whole.cmp_text(complemented) == Ordering::Less
        && complemented.cmp_text(plain) == Ordering::Less
        && plain.cmp_text(plain) == Ordering::Equal
        && Polarity::all_plain(2).plain == Mask::first(2)
}

#[test]
fn cubes(rt: HostRuntime) {
    assert!(rt; cubes_are_as_said());
}

/// Four terms, which are not in order.
fn four_terms(alloc: Global) -> Result<Seq<Mask>, Memory> {
    let terms = Vec::from_slice(alloc, &[Mask::first(2), set(&[1, 2]), set(&[5])])?;
    let mut list = Seq::from_vec(terms);
    list.push(Mask::empty())?;
    Ok(list)
}

fn four_are_sorted(alloc: Global) -> Result<bool, Memory> {
    let mut list = four_terms(alloc)?;
    list.sort()?;
    let sorted = [Mask::empty(), set(&[5]), Mask::first(2), set(&[1, 2])];
    Ok(list.as_slice() == sorted.as_slice())
}

fn lists_are_as_said(alloc: Global) -> Result<bool, Memory> {
    let list = four_terms(alloc)?;
    Ok(
        list.len() == 4
            && *list.at(0) == Mask::first(2)
            && list.iter().count() == 4
            && !list.is_empty()
            && list.into_vec().len() == 4
            && Seq::<u8>::new(alloc).is_empty(),
    )
}

/// The numbers that are in one of the four terms.
fn four_are_lent(alloc: Global) -> Result<bool, Memory> {
    let list = four_terms(alloc)?;
    let mut all = Mask::empty();
    for term in &list {
        all = all.or(*term);
    }
    Ok(all == set(&[0, 1, 2, 5]))
}

#[test]
fn lists(rt: HostRuntime) -> Result<(), Fail> {
    let alloc = rt.alloc();
    let sorted = four_are_sorted(alloc)?;
    let same = lists_are_as_said(alloc)?;
    let lent = four_are_lent(alloc)?;
    assert!(rt; sorted && same && lent);
    Ok(())
}

fn one_name(alloc: Global) -> Result<Seq<Name>, Memory> {
    let mut names = Seq::new(alloc);
    names.push(Name::known(alloc, b"f")?)?;
    copies(alloc, names.as_slice())
}

fn pieces(alloc: Global) -> Result<Vec<u8>, Memory> {
    let names = one_name(alloc)?;
    let mut out = Vec::new(alloc);
    push_word(&mut out, b"vector")?;
    push_names(&mut out, names.as_slice())?;
    push_bits(&mut out, 3, set(&[0, 2]))?;
    Ok(out)
}

#[test]
fn pieces_of_text(rt: HostRuntime) -> Result<(), Fail> {
    let text = pieces(rt.alloc())?;
    assert!(rt; text.as_slice() == b" vector f101".as_slice());
    Ok(())
}
