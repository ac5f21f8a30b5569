//! Sets by lists of their members.
ghost use Rattle.std.specs.Prelude.{◌≡◌, ◌≤◌};
ghost use Rattle.ae_base.specs.Cube.{IsSigns};

use ae_base::{Mask, NET_LINES, Polarity, WIDTH};

/// The set of those of these numbers that a set may hold.
pub fn set(list: &[u32]) -> Mask {
    let mut set = Mask::empty();
    for j in list {
        if *j < WIDTH {
            set = set.with(*j);
        }
    }
    set
}

/// Whether the sets are those of these lists, in order.
pub fn are_sets(found: &[Mask], wanted: &[&'static [u32]]) -> bool {
    for (mask, list) in found.iter().zip(wanted.iter()) {
        if *mask != set(list) {
            return false;
        }
    }
    found.len() == wanted.len()
}

/// The polarity of `n` inputs at which the literals of these are plain.
#[tactic(auto, using(crate::proofs::Below::signs))]
pub fn polarity(n: u32, plain: Mask) -> Polarity
    requires { n ≤ NET_LINES }
    ensures number { result.n ≡ n }
    ensures signs { IsSigns result }
{
    Polarity {
        n,
        plain: plain.both(Mask::first(n)),
    }
}
