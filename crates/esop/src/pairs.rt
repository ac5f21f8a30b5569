//! The search for the first pair of cubes that a rewriting step takes.
ghost use Rattle.std.specs.Prelude.{◌≡◌, ◌<◌, length, IfSome};
ghost use Rattle.esop.specs.Rewriting.{first_at};
ghost use Rattle.esop.specs.Search as pairs;

use crate::links::useful_link;
use ae_base::Cube;

/// What pair of cubes is sought.
#[derive(Clone, Copy)]
pub enum Sought {
    /// Cubes at distance 1.
    Adjacent,
    /// Cubes at distance 2 with a useful link.
    Linked,
}

/// The first pair of places, in lexicographic order, whose cubes are equal. In an ordered list equal cubes follow each other.
pub fn first_equal(cubes: &[Cube]) -> Option<(usize, usize)>
    requires { pairs.IsOrdered cubes.now }
    ensures pair { result ≡ first_at 0 cubes.now }
    ensures within { IfSome result (λ p. (p.0 < p.1) × (p.1 < length cubes.now)) }
{
    for second in 1..cubes.len() {
        if cubes[second - 1].distance(cubes[second]) == 0 {
            return Some((second - 1, second));
        }
    }
    None
}

/// The first pair of places, in lexicographic order, whose cubes are as sought.
pub fn first_pair(cubes: &[Cube], sought: Sought) -> Option<(usize, usize)>
    ensures pair { result ≡ pairs.first_pair sought cubes.now }
    ensures within { IfSome result (λ p. (p.0 < p.1) × (p.1 < length cubes.now)) }
{
    for first in 0..cubes.len() {
        if let Some(second) = partner(cubes, first, sought) {
            return Some((first, second));
        }
    }
    None
}

/// The first place after `first` whose cube makes a pair with the cube there as sought.
fn partner(cubes: &[Cube], first: usize, sought: Sought) -> Option<usize>
    requires { first < length cubes.now }
    ensures { result ≡ pairs.partner sought cubes.now first }
{
    for second in first + 1..cubes.len() {
        if is_sought(cubes, first, second, sought) {
            return Some(second);
        }
    }
    None
}

/// Whether the cubes at two places are as sought.
fn is_sought(cubes: &[Cube], first: usize, second: usize, sought: Sought) -> bool
    requires order { first < second }
    requires within { second < length cubes.now }
    ensures { result ≡ pairs.is_sought sought cubes.now (first, second) }
{
    match sought {
        Sought::Adjacent => cubes[first].distance(cubes[second]) == 1,
        Sought::Linked => useful_link(cubes, first, second).is_some(),
    }
}
