//! The calls of `esop`: the cubes of an expansion's terms, and lists of cubes rewritten.
ghost use Rattle.std.specs.Prelude.{◌≡◌, ◌≤◌, All, IsTrue};
ghost use Rattle.std.specs.List.Sorted.{IsSorted};
ghost use Rattle.ae_base.specs.Cube.{IsOver};
ghost use Rattle.ae_base.specs.Text.{cmp_text};

use crate::expanded::{FEW, Function, expansion_of, products};
use ae_base::{Cube, Memory, Seq};
use esop::{Esop, exorlink, from_expansion};
use std::alloc::Global;
use std::test::Fail;
use test_support::{Literals, are_rows};

/// A list of cubes over `n` inputs, and what it is rewritten to.
struct Rewriting {
    n: u32,
    cubes: &'static [Literals],
    settled: &'static [Literals],
}

static REWRITINGS: [Rewriting; 7] = [
    // ---, 000 and 10-: the first and the third become -1- and 00-, since 00- is next to 000; these two become 001
    Rewriting {
        n: 3,
        cubes: &[(&[], &[]), (&[], &[0, 1, 2]), (&[0], &[1])],
        settled: &[(&[1], &[]), (&[2], &[0, 1])],
    },
    // no cube
    Rewriting {
        n: 3,
        cubes: &[],
        settled: &[],
    },
    // one cube
    Rewriting {
        n: 1,
        cubes: &[(&[], &[])],
        settled: &[(&[], &[])],
    },
    // 1- twice, and three times
    Rewriting {
        n: 2,
        cubes: &[(&[0], &[]), (&[0], &[])],
        settled: &[],
    },
    Rewriting {
        n: 2,
        cubes: &[(&[0], &[]), (&[0], &[]), (&[0], &[])],
        settled: &[(&[0], &[])],
    },
    // --0, -00 and -01: the first two become -10; the last two, taken first, would have become -0-
    Rewriting {
        n: 3,
        cubes: &[(&[], &[2]), (&[], &[1, 2]), (&[2], &[1])],
        settled: &[(&[2], &[1]), (&[1], &[2])],
    },
    // 00 and 11 have distance 2, and no third cube makes a link of theirs useful
    Rewriting {
        n: 2,
        cubes: &[(&[], &[0, 1]), (&[0, 1], &[])],
        settled: &[(&[], &[0, 1]), (&[0, 1], &[])],
    },
];

/// Whether the cubes stand in the order of their texts.
fn is_ordered(cubes: &[Cube]) -> bool
    ensures { IsTrue result → IsSorted cmp_text cubes.now }
{
    for k in 1..cubes.len() {
        if cubes[k].cmp_text(cubes[k - 1]).is_lt() {
            return false;
        }
    }
    true
}

/// An ESOP of one output, of cubes in order.
fn of_one_list(alloc: Global, n: u32, cubes: Vec<Cube>) -> Result<Esop, Memory>
    requires few { n ≤ FEW }
    requires over { All (λ c. IsOver n c) cubes.items }
    requires order { IsSorted cmp_text cubes.items }
{
    let mut outs = Seq::new(alloc);
    outs.push(Seq::from_vec(cubes))?;
    Ok(Esop { n, outs })
}

/// Whether the ESOP has one list, of these cubes.
fn is_one_list(e: &Esop, wanted: &[Literals]) -> bool {
    match e.lists().first() {
        Some(cubes) => e.lists().len() == 1 && are_rows(cubes.as_slice(), wanted),
        None => false,
    }
}

/// Whether the cubes are rewritten to the settled ones.
fn is_rewritten(alloc: Global, row: &Rewriting) -> Result<bool, Memory> {
    if row.n > FEW {
        return Ok(false);
    }
    let cubes = products(alloc, row.n, row.cubes)?;
    if !is_ordered(&cubes) {
        return Ok(false);
    }
    let settled = exorlink(alloc, of_one_list(alloc, row.n, cubes)?)?;
    Ok(is_one_list(&settled, row.settled))
}

/// The place of the first list that is rewritten otherwise, where there is one.
fn first_other(alloc: Global) -> Result<Option<usize>, Memory> {
    for (i, row) in REWRITINGS.iter().enumerate() {
        if !is_rewritten(alloc, row)? {
            return Ok(Some(i));
        }
    }
    Ok(None)
}

#[test]
fn rewritings(rt: HostRuntime) -> Result<(), Fail> {
    let other = first_other(rt.alloc())?;
    assert_eq!(rt; other, None);
    Ok(())
}

/// Either of two inputs. With the literal of the first complemented, it is 1 EXOR that literal EXOR the product of the two.
const EITHER: Function = Function {
    n: 2,
    products: &[(&[0], &[]), (&[1], &[])],
    plain: &[1],
};

/// Whether its terms become --, 0- and 01, and these 01 and 1-.
fn either_is_two_cubes(alloc: Global) -> Result<bool, Memory> {
    let e = expansion_of(alloc, &EITHER)?;
    let cubes = from_expansion(alloc, &e)?;
    let three = is_one_list(&cubes, &[(&[], &[]), (&[], &[0]), (&[1], &[0])]);
    let settled = exorlink(alloc, cubes)?;
    Ok(three && is_one_list(&settled, &[(&[1], &[0]), (&[0], &[])]))
}

#[test]
fn from_terms(rt: HostRuntime) -> Result<(), Fail> {
    let same = either_is_two_cubes(rt.alloc())?;
    assert!(rt; same);
    Ok(())
}
