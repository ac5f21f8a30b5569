//! Points turned into lanes, and the words of the signals without a fault.
ghost use Rattle.std.specs.Prelude.{◌≡◌, ◌<◌, ◌≤◌, ℕ, length, slice_index};
ghost use Rattle.ae_base.specs.Mask.{Set, has};
ghost use Rattle.ae_base.specs.declared.limits.TheConstants.{PINS};
ghost use Rattle.ae_net.specs.Network.{signals};
ghost use Rattle.fault_sim.specs.declared.words.TheConstants.{LANES};
ghost use Rattle.fault_sim.specs.Lanes.{IsAlone, IsGood};
ghost use Rattle.fault_sim.specs.Polynomials.{ArePolynomials};

use crate::marks::mark;
use crate::polynomial::Polynomial;
use crate::table::gate_word;
use crate::words::{Word, full, word_of};
use ae_base::Point;
use ae_net::Net;

/// The word of an input: in each lane the value at the point in that lane.
fn input_word(points: &[Point], j: u32) -> Word
    requires { length points.now ≤ LANES }
    ensures { (l : ℕ) → l < length points.now → has result l ≡ has (slice_index points.now l) j }
{
    let mut parts = [0u64; 8];
    for (l, point) in points.iter().enumerate() {
        if point.has(j) {
            mark(&mut parts, l);
        }
    }
    word_of(&parts)
}

/// Writes the words of the inputs.
fn write_inputs(net: &Net, points: &[Point], good: &mut [Word])
    requires few { length points.now ≤ LANES }
    requires room { signals net.now ≡ length good.old }
    ensures inputs { (l j : ℕ) → l < length points.now → j < length net.now.inputs → has (slice_index good.new j) l ≡ has (slice_index points.now l) j }
    ensures len { length good.new ≡ length good.old }
{
    for j in 0..net.inputs().len() {
        good[j] = input_word(points, j as u32);
    }
}

/// Writes the words of the gates, each gate's from those before it.
fn write_gates(net: &Net, polynomials: &[Option<Polynomial>], good: &mut [Word], seen: &mut [Word])
    requires room { signals net.now ≡ length good.old }
    requires seen { PINS ≤ length seen.old }
    requires polynomials { ArePolynomials net.now polynomials.now }
    ensures runs { (l : ℕ) (x : Set) → l < LANES → ((j : ℕ) → j < length net.now.inputs → has (slice_index good.old j) l ≡ has x j) → IsGood net.now x l good.new }
    ensures len { length good.new ≡ length good.old }
    ensures seen { length seen.new ≡ length seen.old }
{
    let first = net.inputs().len();
    for i in 0..net.gates().len() {
        good[first + i] = gate_word(net, i, polynomials, good, seen);
    }
}

/// Writes the words of all signals without a fault: lane `l` has the run at point `l`.
pub fn write_good(
    net: &Net,
    points: &[Point],
    polynomials: &[Option<Polynomial>],
    good: &mut [Word],
    seen: &mut [Word],
)
    requires few { length points.now ≤ LANES }
    requires room { signals net.now ≡ length good.old }
    requires seen { PINS ≤ length seen.old }
    requires polynomials { ArePolynomials net.now polynomials.now }
    ensures good { (l : ℕ) → l < length points.now → IsGood net.now (slice_index points.now l) l good.new }
    ensures len { length good.new ≡ length good.old }
    ensures seen { length seen.new ≡ length seen.old }
{
    write_inputs(net, points, good);
    write_gates(net, polynomials, good, seen);
}

/// Writes the words of all signals without a fault at a point in all lanes.
pub fn write_good_at(
    net: &Net,
    point: &Point,
    polynomials: &[Option<Polynomial>],
    good: &mut [Word],
    seen: &mut [Word],
)
    requires room { signals net.now ≡ length good.old }
    requires seen { PINS ≤ length seen.old }
    requires polynomials { ArePolynomials net.now polynomials.now }
    ensures good { IsAlone net.now point.now good.new }
    ensures len { length good.new ≡ length good.old }
    ensures seen { length seen.new ≡ length seen.old }
{
    for j in 0..net.inputs().len() {
        good[j] = full(point.has(j as u32));
    }
    write_gates(net, polynomials, good, seen);
}
