//! What is listed for a function: the terms of its expansion, and the vectors of its cascade, as the network's inputs that are 1, the
//! control last.
ghost use Rattle.std.specs.Prelude.{◌≤◌};

use crate::expanded::{AND, AND_OF_OUTER, FEW, Function, MAJORITY, expansion_of, is_expansion};
use ae_base::Memory;
use expansion::Expansion;
use input_tests::{cascade_vectors, input_vectors};
use std::alloc::Global;
use std::test::Fail;
use test_support::are_sets;
use universal_tests::universal;

/// Which list.
#[derive(Clone, Copy)]
enum Listed {
    Terms,
    Universal,
    OfEvenInputs,
    OfCascade,
}

/// A function, and the sets of a list.
struct Row {
    function: Function,
    sets: &'static [&'static [u32]],
}

/// Whether the list of an expansion has the row's sets.
fn is_as_said(alloc: Global, listed: Listed, e: &Expansion, row: &Row) -> Result<bool, Memory>
    requires { e.now.polarity.n ≤ FEW }
{
    match listed {
        Listed::Terms => Ok(is_expansion(e, row.function.plain, row.sets)),
        Listed::Universal => Ok(are_sets(&universal(alloc, e)?, row.sets)),
        Listed::OfEvenInputs => Ok(are_sets(&input_vectors(alloc, e)?, row.sets)),
        Listed::OfCascade => Ok(are_sets(&cascade_vectors(alloc, e)?, row.sets)),
    }
}

/// The place of the first row with another list, where there is one.
fn first_other(alloc: Global, listed: Listed, rows: &[Row]) -> Result<Option<usize>, Memory> {
    for (i, row) in rows.iter().enumerate() {
        let e = expansion_of(alloc, &row.function)?;
        if !is_as_said(alloc, listed, &e, row)? {
            return Ok(Some(i));
        }
    }
    Ok(None)
}

const EITHER: Function = Function {
    n: 2,
    products: &[(&[0], &[]), (&[1], &[])],
    plain: &[0, 1],
};

const ALWAYS: Function = Function {
    n: 2,
    products: &[(&[], &[])],
    plain: &[0, 1],
};

const NEVER: Function = Function {
    n: 2,
    products: &[],
    plain: &[0, 1],
};

/// With the literal of the first input complemented, it is 1 EXOR that literal EXOR the product of the two literals.
const EITHER_COMPLEMENTED: Function = Function {
    n: 2,
    products: &[(&[0], &[]), (&[1], &[])],
    plain: &[1],
};

static TERMS: [Row; 6] = [
    Row {
        function: AND,
        sets: &[&[0, 1]],
    },
    Row {
        function: EITHER,
        sets: &[&[0], &[1], &[0, 1]],
    },
    Row {
        function: ALWAYS,
        sets: &[&[]],
    },
    Row {
        function: NEVER,
        sets: &[],
    },
    Row {
        function: EITHER_COMPLEMENTED,
        sets: &[&[], &[0], &[0, 1]],
    },
    Row {
        function: MAJORITY,
        sets: &[&[0, 1], &[0, 2], &[1, 2]],
    },
];

#[test]
fn terms_of_expansions(rt: HostRuntime) -> Result<(), Fail> {
    let other = first_other(rt.alloc(), Listed::Terms, &TERMS)?;
    assert!(rt; other == None);
    Ok(())
}

static UNIVERSAL: [Row; 3] = [
    Row {
        function: AND,
        sets: &[&[], &[0, 1], &[2], &[0, 1, 2], &[1], &[0]],
    },
    Row {
        function: MAJORITY,
        sets: &[
            &[],
            &[0, 1, 2],
            &[3],
            &[0, 1, 2, 3],
            &[1, 2],
            &[0, 2],
            &[0, 1],
        ],
    },
    // The second input has no vector of its own, and is 0 in each.
    Row {
        function: AND_OF_OUTER,
        sets: &[&[], &[0, 2], &[3], &[0, 2, 3], &[2], &[0]],
    },
];

#[test]
fn universal_vectors(rt: HostRuntime) -> Result<(), Fail> {
    let other = first_other(rt.alloc(), Listed::Universal, &UNIVERSAL)?;
    assert!(rt; other == None);
    Ok(())
}

/// The first two of three inputs, and not the third: the first two are in both terms, the third in one.
const TWO_AND_NOT: Function = Function {
    n: 3,
    products: &[(&[0, 1], &[2])],
    plain: &[0, 1, 2],
};

static OF_EVEN_INPUTS: [Row; 2] = [
    // Each input is in two terms.
    Row {
        function: MAJORITY,
        sets: &[&[0, 1], &[1], &[0], &[0, 2]],
    },
    // The vectors are those of the term with the fewest inputs, and the third input has none.
    Row {
        function: TWO_AND_NOT,
        sets: &[&[0, 1], &[1], &[0]],
    },
];

#[test]
fn vectors_of_even_inputs(rt: HostRuntime) -> Result<(), Fail> {
    let other = first_other(rt.alloc(), Listed::OfEvenInputs, &OF_EVEN_INPUTS)?;
    assert!(rt; other == None);
    Ok(())
}

/// The universal vectors first, and of the others those that are not among them.
static OF_CASCADE: [Row; 1] = [Row {
    function: MAJORITY,
    sets: &[
        &[],
        &[0, 1, 2],
        &[3],
        &[0, 1, 2, 3],
        &[1, 2],
        &[0, 2],
        &[0, 1],
        &[1],
        &[0],
    ],
}];

#[test]
fn vectors_of_a_cascade(rt: HostRuntime) -> Result<(), Fail> {
    let other = first_other(rt.alloc(), Listed::OfCascade, &OF_CASCADE)?;
    assert!(rt; other == None);
    Ok(())
}
