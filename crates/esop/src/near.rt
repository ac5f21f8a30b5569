//! Two cubes near each other, and what replaces them with the same meaning.
ghost use Rattle.std.specs.Prelude.{◌≡◌, ◌<◌, ◌||◌, true, if◌then◌else◌};
ghost use Rattle.ae_base.specs.Cube.{distance};
ghost use Rattle.ae_base.specs.Mask as set;
ghost use Rattle.ae_base.specs.declared.limits.TheConstants.{WIDTH};
ghost use Rattle.esop.specs.Links as links;

use ae_base::{Cube, Mask};

/// The inputs at which the literals of two cubes differ.
pub fn apart(first: Cube, second: Cube) -> Mask
    ensures { result ≡ links.apart first second }
{
    first.pos.xor(second.pos).or(first.neg.xor(second.neg))
}

/// One of the two sets of a cube, where input `j` is given the third literal: it is in the set where neither cube has it there.
fn third_part(own: Mask, other: Mask, j: u32) -> Mask
    requires { j < WIDTH }
    ensures { result ≡ (if set.has own j || set.has other j then set.without own j else set.with own j) }
{
    if own.has(j) || other.has(j) {
        own.without(j)
    } else {
        own.with(j)
    }
}

/// The first cube, but with the third literal of input `j`: of plain, complemented and none the one that neither cube has.
pub fn with_third(first: Cube, second: Cube, j: u32) -> Cube
    requires below { j < WIDTH }
    requires apart { set.has (links.apart first second) j ≡ true }
    ensures { result ≡ links.with_third first second j }
{
    Cube {
        pos: third_part(first.pos, second.pos, j),
        neg: third_part(first.neg, second.neg, j),
    }
}

/// The EXOR of two cubes at distance 1, as one cube.
pub fn merge(first: Cube, second: Cube) -> Cube
    requires { distance first second ≡ 1 }
    ensures { result ≡ links.merge first second }
{
    match apart(first, second).least() {
        Some(j) => with_third(first, second, j),
        None => unreachable!(), // they differ
    }
}
