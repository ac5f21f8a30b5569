//! The calls of `polarity`, and `flip`: expansions at other polarities, proposals, and the choice among them.
ghost use Rattle.std.specs.Prelude.{◌≤◌};

use crate::expanded::{Function, expansion_of, is_expansion};
use ae_base::{Mask, Memory};
use expansion::flip;
use polarity::{Advisor, Listed, Negative, Walker, settle};
use std::alloc::Global;
use std::test::Fail;
use test_support::set;

/// The value of one input.
static VALUE: Function = Function {
    n: 1,
    products: &[(&[0], &[])],
    plain: &[0],
};

/// The product of three complements, each literal being plain.
static COMPLEMENTS: Function = Function {
    n: 3,
    products: &[(&[], &[0, 1, 2])],
    plain: &[0, 1, 2],
};

/// Whether the value of one input is, by the complemented literal, 1 and that literal.
fn flips_value(alloc: Global) -> Result<bool, Memory> {
    let e = expansion_of(alloc, &VALUE)?;
    if e.inputs() == 0 {
        return Ok(false);
    }
    let flipped = flip(alloc, &e, 0)?;
    Ok(is_expansion(&e, &[0], &[&[0]]) && is_expansion(&flipped, &[], &[&[], &[0]]))
}

#[test]
fn flipped_value(rt: HostRuntime) -> Result<(), Fail> {
    let same = flips_value(rt.alloc())?;
    assert!(rt; same);
    Ok(())
}

/// Whether eight terms settle to one.
fn settles_complements(alloc: Global) -> Result<bool, Memory> {
    let e = expansion_of(alloc, &COMPLEMENTS)?;
    let eight = is_expansion(
        &e,
        &[0, 1, 2],
        &[&[], &[0], &[1], &[2], &[0, 1], &[0, 2], &[1, 2], &[0, 1, 2]],
    );
    let settled = settle(alloc, e)?;
    Ok(eight && is_expansion(&settled, &[], &[&[0, 1, 2]]))
}

#[test]
fn settled_complements(rt: HostRuntime) -> Result<(), Fail> {
    let same = settles_complements(rt.alloc())?;
    assert!(rt; same);
    Ok(())
}

/// Whether the next proposal over four inputs has these plain literals, or there is none.
fn proposes<A: Advisor>(advisor: &mut A, wanted: Option<Mask>) -> Result<bool, Memory> {
    Ok(match (advisor.next(4)?, wanted) {
        (Some(found), Some(plain)) => found.n == 4 && found.plain == plain,
        (found, wanted) => found.is_none() && wanted.is_none(),
    })
}

/// The states of the generator after each draw are 1103527590, 377401575, 662824084, 1147902781, 2035015474, 368800899, 1508029952,
/// 486256185, 1062517886, 267834847, 180171308 and 836760821. The draws are 2, 2, 1, 3, then 3, 3, 2, 3, then 0, 2, 1, 3.
fn walks(alloc: Global) -> Result<bool, Memory> {
    let mut walker = Walker::new(alloc, 1, 3);
    let first = proposes(&mut walker, Some(set(&[2])))?;
    let second = proposes(&mut walker, Some(set(&[])))?;
    let third = proposes(&mut walker, Some(set(&[0, 2])))?;
    let none = proposes(&mut walker, None)?;
    Ok(first && second && third && none)
}

#[test]
fn proposals_of_a_walk(rt: HostRuntime) -> Result<(), Fail> {
    let same = walks(rt.alloc())?;
    assert!(rt; same);
    Ok(())
}

/// Whether the inputs are complemented once, and nothing is left.
fn complements_all(alloc: Global) -> Result<bool, Memory> {
    let mut negative = Negative::new(alloc);
    let first = proposes(&mut negative, Some(set(&[])))?;
    let none = proposes(&mut negative, None)?;
    Ok(first && none && negative.left() == 0 && negative.log().len() == 1)
}

/// Whether masks are cut to the inputs, in order.
fn lists_masks(alloc: Global) -> Result<bool, Memory> {
    let masks = Vec::from_slice(alloc, &[set(&[1, 3, 7]), set(&[0])])?;
    let mut listed = Listed::new(alloc, masks);
    let first = proposes(&mut listed, Some(set(&[1, 3])))?;
    let second = proposes(&mut listed, Some(set(&[0])))?;
    let none = proposes(&mut listed, None)?;
    Ok(first && second && none)
}

#[test]
fn proposals_of_one_polarity_and_of_a_list(rt: HostRuntime) -> Result<(), Fail> {
    let all = complements_all(rt.alloc())?;
    let listed = lists_masks(rt.alloc())?;
    assert!(rt; all && listed);
    Ok(())
}
