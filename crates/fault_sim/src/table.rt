//! The value of a gate in all lanes at once, from what its pins see.
ghost use Rattle.std.specs.Prelude.{◌≡◌, ◌<◌, ◌≤◌, ◌+◌, ℕ, All, Option, ◌&&◌, length, slice_index};
ghost use Rattle.std.specs.List.{list_any};
ghost use Rattle.ae_base.specs.Cube.{holds};
ghost use Rattle.ae_base.specs.Mask.{Set, has, where_below};
ghost use Rattle.ae_base.specs.declared.limits.TheConstants.{PINS};
ghost use Rattle.ae_net.specs.Network.{gate_at, signals};
ghost use Rattle.ae_net.specs.Run as run;
ghost use Rattle.ae_net.specs.Valid.{IsRowOf};
ghost use Rattle.ae_net.specs.declared.net.Fault.{Fault};
ghost use Rattle.ae_net.specs.declared.net.Place.TheVariants.{Pin};
ghost use Rattle.fault_sim.specs.declared.words.TheConstants.{LANES};
ghost use Rattle.fault_sim.specs.Polynomials.{ArePolynomials, IsPolynomial};
ghost use Rattle.fault_sim.specs.Sites.{IsHeld, fault_in};
ghost use Rattle.fault_sim.specs.Lanes.{IsFree, IsNext, allows, sees};

use crate::held::{Held, shown};
use crate::polynomial::{Polynomial, polynomial_word};
use crate::words::{Word, both, complement, either, full};
use ae_base::{Cube, PINS};
use ae_net::{Gate, Net, Place, Sig};

/// The word in the lanes where the literals of the row at position `k` hold, and 0 in the others.
fn with_literals(word: Word, row: &Cube, k: u32, pin: Word) -> Word
    ensures { (l : ℕ) → l < LANES → has result l ≡ (has word l && allows row.now k (has pin l)) }
{
    let word = if row.pos.has(k) {
        both(word, pin)
    } else {
        word
    };
    if row.neg.has(k) {
        both(word, complement(pin))
    } else {
        word
    }
}

/// The lanes where a row of a gate's table holds.
fn row_word(row: &Cube, pins: usize, seen: &[Word]) -> Word
    requires row { IsRowOf pins row.now }
    requires few_pins { pins ≤ PINS }
    requires seen { pins ≤ length seen.now }
    ensures { (l : ℕ) → l < LANES → has result l ≡ holds row.now (where_below pins (sees seen.now l)) }
{
    let mut word = full(true);
    for k in 0..pins {
        word = with_literals(word, row, k as u32, seen[k]);
    }
    word
}

/// The lanes where some row of a gate's table holds.
fn rows_word(gate: &Gate, seen: &[Word]) -> Word
    requires rows { All (IsRowOf (length gate.now.pins)) gate.now.rows }
    requires few_pins { length gate.now.pins ≤ PINS }
    requires seen { length gate.now.pins ≤ length seen.now }
    ensures { (l : ℕ) → l < LANES → has result l ≡ list_any (λ row. holds row (where_below (length gate.now.pins) (sees seen.now l))) gate.now.rows }
{
    let mut word = full(false);
    for row in gate.rows.as_slice() {
        word = either(word, row_word(row, gate.pins.len(), seen));
    }
    word
}

/// The value of the gate where its pins see these words.
#[tactic(auto, unfolding(ae_net::specs::Run::table))]
pub fn table_word(gate: &Gate, seen: &[Word]) -> Word
    requires rows { All (IsRowOf (length gate.now.pins)) gate.now.rows }
    requires few_pins { length gate.now.pins ≤ PINS }
    requires seen { length gate.now.pins ≤ length seen.now }
    ensures { (l : ℕ) → l < LANES → has result l ≡ run.table gate.now (where_below (length gate.now.pins) (sees seen.now l)) }
{
    let some = rows_word(gate, seen);
    if gate.on { some } else { complement(some) }
}

/// Writes what the pins see without a fault: the words of the signals that they read.
pub fn read_pins(pins: &[Sig], words: &[Word], seen: &mut [Word])
    requires earlier { All (λ pin. pin < length words.now) pins.now }
    requires room { length pins.now ≤ length seen.old }
    ensures pins { (k : ℕ) → k < length pins.now → slice_index seen.new k ≡ slice_index words.now (slice_index pins.now k) }
    ensures len { length seen.new ≡ length seen.old }
{
    for (k, pin) in pins.iter().enumerate() {
        seen[k] = words[*pin as usize];
    }
}

/// The value of the gate in place `i`, at which there is no fault, by its table, from the words of the signals before it.
fn table_at(net: &Net, i: usize, words: &[Word], seen: &mut [Word]) -> Word
    requires place { i < length net.now.gates }
    requires words { signals net.now ≤ length words.now }
    requires seen { PINS ≤ length seen.old }
    ensures value { (faults : ℕ → Option Fault) → IsFree net.now faults i → IsNext net.now faults words.now (length net.now.inputs + i) result }
    ensures len { length seen.new ≡ length seen.old }
{
    let gate = net.gate(i);
    let _names = net.inputs();
    read_pins(gate.pins.as_slice(), words, seen);
    table_word(gate, seen)
}

/// The value of the gate in place `i`, at which there is no fault, by its polynomial, from the words of the signals before it.
fn polynomial_at(net: &Net, i: usize, p: Polynomial, words: &[Word]) -> Word
    requires place { i < length net.now.gates }
    requires words { signals net.now ≤ length words.now }
    requires polynomial { IsPolynomial (gate_at net.now i) p }
    ensures { (faults : ℕ → Option Fault) → IsFree net.now faults i → IsNext net.now faults words.now (length net.now.inputs + i) result }
{
    let _names = net.inputs();
    polynomial_word(p, words)
}

/// The value of the gate in place `i`, at which there is no fault, from the words of the signals before it.
pub fn gate_word(
    net: &Net,
    i: usize,
    polynomials: &[Option<Polynomial>],
    words: &[Word],
    seen: &mut [Word],
) -> Word
    requires place { i < length net.now.gates }
    requires words { signals net.now ≤ length words.now }
    requires seen { PINS ≤ length seen.old }
    requires polynomials { ArePolynomials net.now polynomials.now }
    ensures value { (faults : ℕ → Option Fault) → IsFree net.now faults i → IsNext net.now faults words.now (length net.now.inputs + i) result }
    ensures len { length seen.new ≡ length seen.old }
{
    match polynomials[i] {
        Some(p) => polynomial_at(net, i, p, words),
        None => table_at(net, i, words, seen),
    }
}

/// Writes what the pins of the gate in place `i` see with the faults of the pass.
fn show_pins(net: &Net, i: u32, pins: &[Sig], held: &Held, words: &[Word], seen: &mut [Word])
    requires place { i < length net.now.gates }
    requires earlier { All (λ pin. pin < length words.now) pins.now }
    requires few { length pins.now ≤ PINS }
    requires room { length pins.now ≤ length seen.old }
    requires held { IsHeld net.now held.now }
    ensures pins { (k l : ℕ) → k < length pins.now → l < LANES → has (slice_index seen.new k) l ≡ run.seen (fault_in held.now l) (Pin i k) (has (slice_index words.now (slice_index pins.now k)) l) }
    ensures len { length seen.new ≡ length seen.old }
{
    for k in 0..pins.len() {
        let word = words[pins[k] as usize];
        seen[k] = shown(net, held, Place::Pin(i, k as u32), word);
    }
}

/// The value of the gate in place `i` with the faults of the pass, from the words of the signals before it.
pub fn held_word(net: &Net, i: usize, held: &Held, words: &[Word], seen: &mut [Word]) -> Word
    requires place { i < length net.now.gates }
    requires words { signals net.now ≤ length words.now }
    requires seen { PINS ≤ length seen.old }
    requires held { IsHeld net.now held.now }
    ensures value { IsNext net.now (fault_in held.now) words.now (length net.now.inputs + i) result }
    ensures len { length seen.new ≡ length seen.old }
{
    let gate = net.gate(i);
    let s = net.inputs().len() + i;
    show_pins(net, i as u32, gate.pins.as_slice(), held, words, seen);
    shown(net, held, Place::Stem(s as u32), table_word(gate, seen))
}
