//! Words of 512 lanes: a word has a truth value for each lane, as a set has for each number.
ghost use Rattle.std.specs.Prelude.{◌≡◌, ◌==◌, ◌<◌, ◌≤◌, ℕ, not, ◌&&◌, ◌||◌, length};
ghost use Rattle.ae_base.specs.Mask.{differ, has};
ghost use Rattle.fault_sim.specs.Lanes.{IsFirstLane};
ghost use Rattle.fault_sim.specs.Marks.{is_marked};

use crate::marks::{mark, take_first};
use std::marker::Model;
use std::simd::u64x8;

/// How many lanes a word has.
pub const LANES: usize = 512;

/// A truth value in each lane. Contracts see the set of the lanes with 1.
#[derive(Clone, Copy)]
pub struct Word {
    /// The lanes, 64 in each part.
    parts: u64x8,
}

impl Model for Word {
    ghost use Rattle.ae_base.specs.Mask.{Set};
    ghost use Rattle.fault_sim.specs.Parts.{IsParts, joined, parts_of, parts_of-joined};

    ghost Value = { Set };

    ghost view = { λ w. joined w.parts };

    ghost invariant = { λ w. IsParts w.parts };

    ghost inverse = { λ s. record { parts = parts_of s } };

    ghost inverse_ok = { λ w h i. record { parts = parts_of-joined w.parts h i } };
}

impl PartialEq for Word {
    ghost use Rattle.std.specs.Prelude.{nat_eq};
    ghost use Rattle.std.specs.Cmp.{nat_eq_equiv, partial_equiv_from_equiv};

    ghost eq = { nat_eq };

    ghost laws = { partial_equiv_from_equiv nat_eq_equiv };

    fn eq(&self, other: &Word) -> bool {
        self.parts == other.parts
    }
}

/// 1 in each lane where both are 1.
pub fn both(a: Word, b: Word) -> Word
    ensures { (l : ℕ) → has result l ≡ (has a l && has b l) }
{
    Word {
        parts: a.parts & b.parts,
    }
}

/// 1 in each lane where one is 1.
pub fn either(a: Word, b: Word) -> Word
    ensures { (l : ℕ) → has result l ≡ (has a l || has b l) }
{
    Word {
        parts: a.parts | b.parts,
    }
}

/// 1 in each lane where the two differ.
pub fn apart(a: Word, b: Word) -> Word
    ensures { (l : ℕ) → has result l ≡ differ (has a l) (has b l) }
{
    Word {
        parts: a.parts ^ b.parts,
    }
}

/// 1 in each lane where the word is 0.
pub fn complement(a: Word) -> Word
    ensures { (l : ℕ) → l < LANES → has result l ≡ not (has a l) }
{
    Word { parts: !a.parts }
}

/// The value in each lane.
pub fn full(value: bool) -> Word
    ensures { (l : ℕ) → l < LANES → has result l ≡ value }
{
    Word {
        parts: u64x8::splat(if value { u64::MAX } else { 0 }),
    }
}

/// The word with these lanes, 64 in each part.
pub fn word_of(parts: &[u64]) -> Word
    requires { length parts.now ≡ 8 }
    ensures { (l : ℕ) → has result l ≡ is_marked parts.now l }
{
    Word {
        parts: u64x8::from_slice(parts),
    }
}

/// 1 in one lane alone.
pub fn one_lane(lane: u32) -> Word
    requires { lane < LANES }
    ensures { (l : ℕ) → has result l ≡ (l == lane) }
{
    let mut parts = [0u64; 8];
    mark(&mut parts, lane as usize);
    word_of(&parts)
}

/// The value in a lane.
pub fn has_lane(a: Word, lane: u32) -> bool
    requires { lane < LANES }
    ensures { result ≡ has a lane }
{
    let lane = lane as usize;
    let parts = a.parts.to_array();
    (parts[lane / 64] >> (lane % 64)) & 1 == 1
}

/// The first of `count` lanes that is 1.
pub fn first_lane(a: Word, count: u32) -> Option<u32>
    requires { count ≤ LANES }
    ensures { IsFirstLane a count result }
{
    let mut parts = a.parts.to_array();
    match take_first(&mut parts, 0) {
        Some(lane) => if lane < count as usize {
            Some(lane as u32)
        } else {
            None
        },
        None => None,
    }
}
