//! What the bytes of a word say: a number, a set or a cube.
ghost use Rattle.std.specs.Prelude.{◌≡◌, ℕ, ◌≤◌, ◌<◌, true, if◌then◌else◌, Some, None, length, IfSome};
ghost use Rattle.std.specs.List.{list_all};
ghost use Rattle.ae_base.specs.Digits as spec;
ghost use Rattle.ae_base.specs.Mask.{has};

use crate::cube::Cube;
use crate::limits::WIDTH;
use crate::mask::Mask;

/// The most digits of a number.
pub const NUMBER_DIGITS: usize = 9;

fn is_digit(b: u8) -> bool
    ensures { result ≡ spec.is_digit b }
{
    b'0' <= b && b <= b'9'
}

/// Whether all bytes of a word are decimal digits.
pub fn are_digits(word: &[u8]) -> bool
    ensures { result ≡ list_all spec.is_digit word.now }
{
    word.iter().all(|b| is_digit(*b))
}

/// The number that digits say.
#[tactic(auto, unfolding(crate::specs::Digits::value))]
fn value(word: &[u8]) -> u32
    requires few { length word.now ≤ NUMBER_DIGITS }
    requires digits { list_all spec.is_digit word.now ≡ true }
    ensures { result ≡ spec.value word.now }
{
    let mut n: u32 = 0;
    for b in word {
        n = 10 * n + (*b - b'0') as u32;
    }
    n
}

/// The number of 1 to `NUMBER_DIGITS` digits that a word is, at least 1. `None` comes exactly where it is none.
#[tactic(auto, unfolding(crate::specs::Digits::is_number))]
pub fn read_number(word: &[u8]) -> Option<u32>
    ensures positive { IfSome result (λ n. 0 < n) }
    ensures number { result ≡ (if spec.is_number word.now then Some (spec.value word.now) else None) }
{
    if word.len() > NUMBER_DIGITS {
        return None;
    }
    if !are_digits(word) {
        return None;
    }
    let n = value(word);
    if n == 0 { None } else { Some(n) }
}

/// Whether a byte is the digit 0 or 1.
pub fn is_bit(b: u8) -> bool
    ensures { result ≡ spec.is_bit b }
{
    b == b'0' || b == b'1'
}

fn are_bits(word: &[u8]) -> bool
    ensures { result ≡ list_all spec.is_bit word.now }
{
    word.iter().all(|b| is_bit(*b))
}

/// The places at which a byte stands.
fn places_of(b: u8, word: &[u8]) -> Mask
    requires { length word.now ≤ WIDTH }
    ensures { result ≡ spec.places_of b word.now }
{
    let mut places = Mask::empty();
    for (j, c) in word.iter().enumerate() {
        if *c == b {
            places = places.with(j as u32);
        }
    }
    places
}

/// The set of the places of the digit 1 in a word of `n` digits. `None` comes exactly where it is no such word.
#[tactic(auto, unfolding(crate::specs::Digits::are_bits, crate::specs::Digits::ones))]
pub fn read_bits(n: u32, word: &[u8]) -> Option<Mask>
    requires { n ≤ WIDTH }
    ensures below { IfSome result (λ s. (j : ℕ) → has s j ≡ true → j < n) }
    ensures bits { result ≡ (if spec.are_bits n word.now then Some (spec.ones word.now) else None) }
{
    if word.len() != n as usize {
        return None;
    }
    if !are_bits(word) {
        return None;
    }
    Some(places_of(b'1', word))
}

/// Whether each byte is that of a literal: `1`, `0` or `-`.
pub fn are_literals(word: &[u8]) -> bool
    ensures { result ≡ list_all spec.is_literal word.now }
{
    word.iter().all(|b| is_bit(*b) || *b == b'-')
}

/// The cube of a byte for each input: `1` is its plain literal, `0` the complemented one, any other is none.
#[tactic(auto, unfolding(crate::specs::Digits::cube_said))]
pub fn cube_of(word: &[u8]) -> Cube
    requires { length word.now ≤ WIDTH }
    ensures { result ≡ spec.cube_said word.now }
{
    Cube {
        pos: places_of(b'1', word),
        neg: places_of(b'0', word),
    }
}
