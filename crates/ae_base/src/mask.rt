//! A set of small numbers: the inputs that are 1 at a point, or the members of a term.
ghost use Rattle.std.specs.Prelude.{◌≡◌, ◌<◌, ◌≤◌, ◌==◌, ◌-◌, ◌^◌, All, IfSome};
ghost use Rattle.std.specs.Iterator.{YieldsFirst, item_count};
ghost use Rattle.ae_base.specs.Mask as set;

use crate::limits::WIDTH;
use std::cmp::Ordering;
use std::marker::Model;

/// How many numbers each half of a set is for.
const HALF: u32 = 128;

/// A set of numbers below `WIDTH`. `<` and `sort` put sets in the order of terms (`cmp_terms`).
///
/// No call takes memory, and none refuses.
#[derive(Clone, Copy, Debug, Hash)]
pub struct Mask {
    /// The members below `HALF`, by binary digits.
    low: u128,
    /// The members from `HALF` on, each `HALF` places lower.
    high: u128,
}

impl Model for Mask {
    ghost use Rattle.ae_base.specs.Mask.{Set};
    ghost use Rattle.ae_base.specs.Halves.{joined, low_of, high_of, low_of-joined, high_of-joined};
    ghost use Rattle.std.specs.Prelude.{◌<◌, ◌^◌};

    ghost Value = { Set };

    ghost view = { λ m. joined m.high m.low };

    ghost invariant = { λ m. (m.low < 2 ^ 128) × (m.high < 2 ^ 128) };

    ghost inverse = { λ s. record { low = low_of s; high = high_of s } };

    ghost inverse_ok = { λ m h i. record { low = low_of-joined m.high m.low h.0 i; high = high_of-joined m.high m.low h.0 i } };
}

impl PartialEq for Mask {
    ghost use Rattle.std.specs.Prelude.{nat_eq};
    ghost use Rattle.std.specs.Cmp.{nat_eq_equiv, partial_equiv_from_equiv};

    ghost eq = { nat_eq };

    ghost laws = { partial_equiv_from_equiv nat_eq_equiv };

    fn eq(&self, other: &Mask) -> bool {
        self.low == other.low && self.high == other.high
    }
}

impl Eq for Mask {
    ghost use Rattle.std.specs.Cmp.{nat_eq_equiv};

    ghost laws = { nat_eq_equiv };
}

impl Ord for Mask {
    ghost use Rattle.std.proofs.Common.{refl};
    ghost use Rattle.ae_base.specs.Order.{cmp_terms_total, equal_where_tied};

    ghost cmp = { set.cmp_terms };

    ghost total = { cmp_terms_total };

    ghost matches_partial_cmp = { λ a b. refl };

    ghost matches_eq = { equal_where_tied };

    /// The order of terms.
    fn cmp(&self, other: &Mask) -> Ordering {
        self.cmp_terms(*other)
    }
}

impl PartialOrd for Mask {
    ghost use Rattle.std.specs.Ordering.{as_partial_cmp};
    ghost use Rattle.ae_base.specs.Order.{cmp_terms_partial};

    ghost partial_cmp = { as_partial_cmp set.cmp_terms };

    ghost laws = { cmp_terms_partial };

    fn partial_cmp(&self, other: &Mask) -> Option<Ordering> {
        Some(self.cmp(other))
    }
}

/// The number of `n` binary digits 1.
fn ones(n: u32) -> u128
    requires { n ≤ HALF }
    ensures { result ≡ 2 ^ n - 1 }
{
    if n == HALF { u128::MAX } else { (1 << n) - 1 }
}

impl Mask {
    /// The set of no numbers.
    #[tactic(auto, unfolding(crate::specs::Mask::empty))]
    pub fn empty() -> Mask
        ensures { result ≡ set.empty }
    {
        Mask { low: 0, high: 0 }
    }

    /// The numbers below `n`.
    #[tactic(auto, unfolding(crate::specs::Mask::first))]
    pub fn first(n: u32) -> Mask
        requires { n ≤ WIDTH }
        ensures { result ≡ set.first n }
    {
        if n < HALF {
            Mask {
                low: ones(n),
                high: 0,
            }
        } else {
            Mask {
                low: ones(HALF),
                high: ones(n - HALF),
            }
        }
    }

    /// The set of `j` alone.
    fn one(j: u32) -> Mask
        requires { j < WIDTH }
        ensures { result ≡ 2 ^ j }
    {
        if j < HALF {
            Mask {
                low: 1 << j,
                high: 0,
            }
        } else {
            Mask {
                low: 0,
                high: 1 << (j - HALF),
            }
        }
    }

    /// The set with `j` as a member.
    #[tactic(auto, unfolding(crate::specs::Mask::with, crate::specs::Mask::either))]
    pub fn with(self, j: u32) -> Mask
        requires { j < WIDTH }
        ensures { result ≡ set.with self j }
    {
        self.or(Mask::one(j))
    }

    /// The set without `j`.
    pub fn without(self, j: u32) -> Mask
        requires { j < WIDTH }
        ensures { result ≡ set.without self j }
    {
        self.xor(self.both(Mask::one(j)))
    }

    /// Whether `j` is a member. It is not for `j` from `WIDTH` on.
    pub fn has(self, j: u32) -> bool
        ensures { result ≡ set.has self j }
    {
        let (low, high) = (self.low, self.high);
        if j < HALF {
            (low >> j) & 1 == 1
        } else {
            j < WIDTH && (high >> (j - HALF)) & 1 == 1
        }
    }

    /// The intersection.
    pub fn both(self, other: Mask) -> Mask
        ensures { result ≡ set.both self other }
    {
        Mask {
            low: self.low & other.low,
            high: self.high & other.high,
        }
    }

    /// The union.
    pub fn or(self, other: Mask) -> Mask
        ensures { result ≡ set.either self other }
    {
        Mask {
            low: self.low | other.low,
            high: self.high | other.high,
        }
    }

    /// The symmetric difference.
    pub fn xor(self, other: Mask) -> Mask
        ensures { result ≡ set.xor self other }
    {
        Mask {
            low: self.low ^ other.low,
            high: self.high ^ other.high,
        }
    }

    /// Whether the set is a subset of `other`.
    #[tactic(auto, unfolding(crate::specs::Mask::inside))]
    pub fn inside(self, other: Mask) -> bool
        ensures { result ≡ set.inside self other }
    {
        self.both(other) == self
    }

    /// The least member, where there is one.
    pub fn least(self) -> Option<u32>
        ensures least { result ≡ set.least self }
        ensures below { IfSome result (λ j. j < WIDTH) }
    {
        let (low, high) = (self.low, self.high);
        if low != 0 {
            return Some(low.trailing_zeros());
        }
        if high != 0 {
            return Some(HALF + high.trailing_zeros());
        }
        None
    }

    /// The members in increasing order, for loops.
    pub fn members(self) -> MaskIter
        ensures members { result ≡ set.members self }
        ensures below { All (λ j. j < WIDTH) result }
    {
        let Mask { low, high } = self;
        MaskIter {
            rest: Mask { low, high },
        }
    }

    /// Whether there is no member.
    pub fn is_empty(self) -> bool
        ensures len { result ≡ (set.len self == 0) }
        ensures empty { result ≡ (self == set.empty) }
    {
        self == Mask::empty()
    }

    /// The number of members.
    pub fn len(self) -> u32
        ensures { result ≡ set.len self }
    {
        self.low.count_ones() + self.high.count_ones()
    }

    /// The order of terms: fewer members come first. Among equally many, the increasing lists of members are compared lexicographically.
    pub fn cmp_terms(self, other: Mask) -> Ordering
        ensures { result ≡ set.cmp_terms self other }
    {
        if self.len() < other.len() {
            return Ordering::Less;
        }
        if other.len() < self.len() {
            return Ordering::Greater;
        }
        match self.xor(other).least() {
            None => Ordering::Equal,
            Some(apart) => {
                if self.has(apart) {
                    Ordering::Less
                } else {
                    Ordering::Greater
                }
            }
        }
    }
}

/// The members of a set in increasing order. Contracts see the list of those that are left.
#[derive(Drop, Debug)]
pub struct MaskIter {
    rest: Mask,
}

impl Model for MaskIter {
    ghost use Rattle.std.specs.Prelude.{List, ℕ};
    ghost use Rattle.ae_base.specs.Mask.{members};

    ghost Value = { List ℕ };

    ghost view = { λ it. members it.rest };
}

impl Iterator for MaskIter {
    type Item = u32;

    ghost next_gives = { YieldsFirst (λ rest. rest) };

    ghost remaining = { item_count (λ rest. rest) };

    fn next(&mut self) -> Option<u32> {
        let j = self.rest.least()?;
        self.rest = self.rest.without(j);
        Some(j)
    }
}
