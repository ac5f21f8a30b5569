//! Links: two cubes at distance 2 replaced by two others with the same EXOR.
ghost use Rattle.std.specs.Prelude.{◌≡◌, ◌<◌, ◌||◌, [], ◌∷◌, length, true, MatchOption};
ghost use Rattle.ae_base.specs.Mask.{has};
ghost use Rattle.ae_base.specs.declared.limits.TheConstants.{WIDTH};
ghost use Rattle.esop.specs.Links as links;
ghost use Rattle.esop.specs.Rewriting as rewriting;
ghost use Rattle.esop.specs.Settled.{others};

use crate::near::{apart, with_third};
use ae_base::Cube;

/// Two cubes whose EXOR is that of two others.
#[derive(Drop)]
pub struct Link {
    pub first: Cube,
    pub second: Cube,
}

/// Of two cubes that differ at both inputs, the first one with the third literal at one, and the second one with it at the other.
fn link_at(first: Cube, second: Cube, at_first: u32, at_second: u32) -> Link
    requires below { (at_first < WIDTH) × (at_second < WIDTH) }
    requires apart { (has (links.apart first second) at_first ≡ true) × (has (links.apart second first) at_second ≡ true) }
    ensures { result ≡ links.link first second at_first at_second }
{
    Link {
        first: with_third(first, second, at_first),
        second: with_third(second, first, at_second),
    }
}

/// The two links of cubes at distance 2, the one by the lower input first.
fn links_of(first: Cube, second: Cube) -> Option<(Link, Link)>
    ensures { MatchOption result (links.links first second ≡ []) (λ two. links.links first second ≡ two.0 ∷ two.1 ∷ []) }
{
    let apart = apart(first, second);
    if apart.len() != 2 {
        return None;
    }
    let low = apart.least()?;
    let high = apart.without(low).least()?;
    Some((
        link_at(first, second, low, high),
        link_at(first, second, high, low),
    ))
}

/// The first link of the cubes at two places that gives a cube at a distance below 2 from a third one.
pub fn useful_link(cubes: &[Cube], first: usize, second: usize) -> Option<Link>
    requires order { first < second }
    requires within { second < length cubes.now }
    ensures { result ≡ rewriting.useful_link cubes.now (first, second) }
{
    let (by_low, by_high) = links_of(cubes[first], cubes[second])?;
    if is_useful(cubes, first, second, &by_low) {
        Some(by_low)
    } else if is_useful(cubes, first, second, &by_high) {
        Some(by_high)
    } else {
        None
    }
}

/// Whether a cube of the link is at a distance below 2 from a cube at another place.
fn is_useful(cubes: &[Cube], first: usize, second: usize, link: &Link) -> bool
    requires order { first < second }
    requires within { second < length cubes.now }
    ensures { result ≡ (rewriting.is_near (others cubes.now first second) link.now.first || rewriting.is_near (others cubes.now first second) link.now.second) }
{
    near_others(cubes, first, second, link.first) || near_others(cubes, first, second, link.second)
}

/// Whether the cube is at a distance below 2 from one at another place.
fn near_others(cubes: &[Cube], first: usize, second: usize, cube: Cube) -> bool
    requires order { first < second }
    requires within { second < length cubes.now }
    ensures { result ≡ rewriting.is_near (others cubes.now first second) cube }
{
    if is_near(&cubes[..first], cube) || is_near(&cubes[second + 1..], cube) {
        return true;
    }
    is_near(&cubes[first + 1..second], cube)
}

/// Whether some cube of the list is at a distance below 2.
fn is_near(cubes: &[Cube], cube: Cube) -> bool
    ensures { result ≡ rewriting.is_near cubes.now cube }
{
    cubes.iter().any(|other| cube.distance(*other) < 2)
}
