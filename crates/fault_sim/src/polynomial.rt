//! Gates of one or two pins as Reed-Muller polynomials over the signals that they read.
ghost use Rattle.std.specs.Prelude.{◌≡◌, ◌<◌, ◌≤◌, ◌==◌, ◌&&◌, ◌||◌, ℕ, Bool, [], All, IfOk, IfSome, OnOk, length, slice_index};
ghost use Rattle.ae_base.specs.Mask.{differ, has};
ghost use Rattle.ae_base.specs.declared.limits.TheConstants.{PINS};
ghost use Rattle.ae_net.specs.Valid.{IsRowOf};
ghost use Rattle.fault_sim.specs.declared.words.TheConstants.{LANES};
ghost use Rattle.fault_sim.specs.Polynomials as spec;
ghost use Rattle.fault_sim.specs.Polynomials.{ArePolynomials, IsPolynomial, lane_of};

use crate::table::table_word;
use crate::words::{Word, apart, both, either, full, has_lane, one_lane};
use ae_base::{Memory, PINS};
use ae_net::{Gate, Net, Sig};
use std::alloc::Global;

/// The value of a gate over the values x and y of two signals: `one ⊕ first·x ⊕ second·y ⊕ product·x·y`.
#[derive(Clone, Copy, Debug)]
pub struct Polynomial {
    pub x: Sig,
    pub y: Sig,
    pub one: bool,
    pub first: bool,
    pub second: bool,
    pub product: bool,
}

/// The word where the coefficient is 1, else 0 in each lane.
fn times(word: Word, coefficient: bool) -> Word
    ensures { (l : ℕ) → l < LANES → has result l ≡ (has word l && coefficient) }
{
    both(word, full(coefficient))
}

/// The value of the polynomial in each lane.
pub fn polynomial_word(p: Polynomial, words: &[Word]) -> Word
    requires x { p.x < length words.now }
    requires y { p.y < length words.now }
    ensures { (l : ℕ) → l < LANES → has result l ≡ spec.value p (λ s. has (slice_index words.now s) l) }
{
    let x = words[p.x as usize];
    let y = words[p.y as usize];
    let linear = apart(times(x, p.first), times(y, p.second));
    apart(apart(full(p.one), linear), times(both(x, y), p.product))
}

/// Writes the four cases of two pins: in lane 1 the first sees 1, in lane 2 the second, and in lane 3 both.
fn write_cases(seen: &mut [Word])
    requires { PINS ≤ length seen.old }
    ensures first { (l : ℕ) → has (slice_index seen.new 0) l ≡ ((l == 1) || (l == 3)) }
    ensures second { (l : ℕ) → has (slice_index seen.new 1) l ≡ ((l == 2) || (l == 3)) }
    ensures len { length seen.new ≡ length seen.old }
{
    seen[0] = either(one_lane(1), one_lane(3));
    seen[1] = either(one_lane(2), one_lane(3));
}

/// Whether two truth values differ.
fn differ(a: bool, b: bool) -> bool
    ensures { result ≡ differ a b }
{
    a != b
}

/// The polynomial that has the value of lane 0 where neither signal is 1, of lane 1 where x alone is, of lane 2 where y alone is, and of lane 3
/// where both are.
fn polynomial_from(x: Sig, y: Sig, told: Word) -> Polynomial
    ensures x { result.x ≡ x }
    ensures y { result.y ≡ y }
    ensures value { (v : ℕ → Bool) → spec.value result v ≡ has told (lane_of (v result.x) (v result.y)) }
{
    let one = has_lane(told, 0);
    let first = differ(has_lane(told, 1), one);
    let second = differ(has_lane(told, 2), one);
    let linear = differ(one, differ(first, second));
    Polynomial {
        x,
        y,
        one,
        first,
        second,
        product: differ(has_lane(told, 3), linear),
    }
}

/// The polynomial of a gate of one or two pins. What pins see is written over.
fn polynomial_of(gate: &Gate, seen: &mut [Word]) -> Option<Polynomial>
    requires rows { All (IsRowOf (length gate.now.pins)) gate.now.rows }
    requires few_pins { length gate.now.pins ≤ PINS }
    requires seen { PINS ≤ length seen.old }
    ensures polynomial { IfSome result (IsPolynomial gate.now) }
    ensures len { length seen.new ≡ length seen.old }
{
    let pins = gate.pins.as_slice();
    let count = pins.len();
    if count == 0 || count > 2 {
        return None;
    }
    write_cases(seen);
    let told = table_word(gate, seen);
    Some(polynomial_from(pins[0], pins[count - 1], told))
}

/// Adds for each gate its polynomial, where it has one or two pins, or nothing. What pins see is written over.
fn push_polynomials(
    net: &Net,
    seen: &mut [Word],
    polynomials: &mut Vec<Option<Polynomial>>,
) -> Result<(), Memory>
    requires seen { PINS ≤ length seen.old }
    requires none { polynomials.old.items ≡ [] }
    ensures { OnOk result (ArePolynomials net.now polynomials.new.items) }
{
    for i in 0..net.gates().len() {
        let found = polynomial_of(net.gate(i), seen);
        polynomials.push(found)?;
    }
    Ok(())
}

/// What `push_polynomials` adds.
pub fn polynomials_of(alloc: Global, net: &Net) -> Result<Vec<Option<Polynomial>>, Memory>
    ensures { IfOk result (λ polynomials. ArePolynomials net.now polynomials.items) }
{
    let mut seen = vec![in alloc; full(false); PINS as usize]?;
    let mut polynomials = Vec::new(alloc);
    push_polynomials(net, seen.as_mut_slice(), &mut polynomials)?;
    Ok(polynomials)
}
