//! What a fault changes: the words of the signals with it, from those without it. Only gates that read a signal that differs are visited.
ghost use Rattle.std.specs.Prelude.{◌≡◌, ◌<◌, ◌≤◌, ◌+◌, ◌/◌, ◌^◌, ◌*◌, ℕ, All, IfOk, length, not, slice_index, true, false};
ghost use Rattle.ae_base.specs.Mask.{has};
ghost use Rattle.ae_base.specs.declared.limits.TheConstants.{PINS};
ghost use Rattle.ae_net.specs.Network.{signals};
ghost use Rattle.fault_sim.specs.declared.words.TheConstants.{LANES};
ghost use Rattle.fault_sim.specs.Lanes.{IsFaulty, IsNext, Tells, each_below, port_differs};
ghost use Rattle.fault_sim.specs.Marks.{IsUnmarked, is_marked};
ghost use Rattle.fault_sim.specs.Polynomials.{ArePolynomials};
ghost use Rattle.fault_sim.specs.Sites.{IsHeld, fault_in};
ghost use Rattle.fault_sim.specs.Spread.{AreChanged, AreMarks, AreReaders, IsAsLong, IsAtRest, IsBegun, IsCone, IsPut, IsSpread, row};

use crate::held::{Held, shown, site_of};
use crate::marks::{mark, mark_all, take_first};
use crate::polynomial::{Polynomial, polynomials_of};
use crate::table::{gate_word, held_word};
use crate::words::{Word, apart, either, full};
use ae_base::{Memory, PINS};
use ae_net::{Net, Pins, Place, one_run, valid_law};
use std::alloc::Global;

/// What the pass of a fault works with. Between two faults the words are those without one, and nothing is marked.
#[derive(Drop)]
pub struct Cone {
    /// For each signal its word with the fault.
    pub words: Vec<Word>,
    /// What the pins of a gate see.
    pub seen: Vec<Word>,
    /// The gates to visit, each of which reads a signal that differs.
    pub marked: Vec<u64>,
    /// The signals that differ.
    pub changed: Vec<u64>,
    /// The polynomials of the gates of one or two pins.
    pub polynomials: Vec<Option<Polynomial>>,
}

/// So many words of 64 marks that there is a mark for each of `count` numbers.
fn marks_for(alloc: Global, count: usize) -> Result<Vec<u64>, Memory>
    requires { count < 2 ^ 32 }
    ensures unmarked { IfOk result (λ marks. IsUnmarked marks.items) }
    ensures room { IfOk result (λ marks. count ≤ 64 * length marks.items) }
    ensures few { IfOk result (λ marks. length marks.items < 2 ^ 32) }
{
    Ok(vec![in alloc; 0u64; count / 64 + 1]?)
}

/// A cone for the network, at rest.
pub fn cone_for(alloc: Global, net: &Net, good: &[Word]) -> Result<Cone, Memory>
    requires { length good.now ≡ signals net.now }
    ensures cone { IfOk result (λ cone. IsCone net.now cone) }
    ensures rest { IfOk result (λ cone. IsAtRest good.now cone) }
{
    let words = good.to_vec(alloc)?;
    Ok(Cone {
        words,
        seen: vec![in alloc; full(false); PINS as usize]?,
        marked: marks_for(alloc, net.gates().len())?,
        changed: marks_for(alloc, good.len())?,
        polynomials: polynomials_of(alloc, net)?,
    })
}

/// Writes the word of a signal, and where it differs from that without the fault marks the gates that read it.
fn put(s: usize, word: Word, good: &[Word], readers: &[Pins], cone: &mut Cone)
    requires words { s < length cone.old.words.items }
    requires good { s < length good.now }
    requires readers { s < length readers.now }
    requires marked { All (λ i. i / 64 < length cone.old.marked.items) (row readers.now s) }
    requires changed { s / 64 < length cone.old.changed.items }
    ensures put { IsPut good.now (row readers.now s) s word cone.old cone.new }
    ensures len { IsAsLong cone.old cone.new }
{
    if word != good[s] {
        cone.words[s] = word;
        mark(cone.changed.as_mut_slice(), s);
        mark_all(readers[s].as_slice(), cone.marked.as_mut_slice());
    }
}

/// The value of the gate in place `i`, from the words of the signals before it.
fn visited_word(
    net: &Net,
    i: usize,
    held: &Held,
    polynomials: &[Option<Polynomial>],
    words: &[Word],
    seen: &mut [Word],
) -> Word
    requires place { i < length net.now.gates }
    requires words { signals net.now ≤ length words.now }
    requires seen { PINS ≤ length seen.old }
    requires held { IsHeld net.now held.now }
    requires polynomials { ArePolynomials net.now polynomials.now }
    ensures value { IsNext net.now (fault_in held.now) words.now (length net.now.inputs + i) result }
    ensures len { length seen.new ≡ length seen.old }
{
    if held.last[net.inputs().len() + i] == 0 {
        gate_word(net, i, polynomials, words, seen)
    } else {
        held_word(net, i, held, words, seen)
    }
}

/// Visits the gate in place `i`.
fn visit(net: &Net, i: usize, held: &Held, good: &[Word], readers: &[Pins], cone: &mut Cone)
    requires place { i < length net.now.gates }
    requires good { length good.now ≡ signals net.now }
    requires readers { AreReaders net.now readers.now }
    requires cone { IsCone net.now cone.old }
    requires marks { AreMarks net.now cone.old (i + 1) }
    requires held { IsHeld net.now held.now }
    ensures cone { IsCone net.now cone.new }
    ensures marks { AreMarks net.now cone.new (i + 1) }
    ensures spread { IsSpread net.now (fault_in held.now) good.now cone.old i (i + 1) → IsSpread net.now (fault_in held.now) good.now cone.new (i + 1) (i + 1) }
{
    let word = visited_word(
        net,
        i,
        held,
        cone.polynomials.as_slice(),
        cone.words.as_slice(),
        cone.seen.as_mut_slice(),
    );
    put(net.inputs().len() + i, word, good, readers, cone);
}

/// Visits all marked gates, the first of which is not before place `start`, and those that they mark.
fn spread(net: &Net, start: usize, held: &Held, good: &[Word], readers: &[Pins], cone: &mut Cone)
    requires good { length good.now ≡ signals net.now }
    requires readers { AreReaders net.now readers.now }
    requires cone { IsCone net.now cone.old }
    requires marks { AreMarks net.now cone.old start }
    requires held { IsHeld net.now held.now }
    requires spread { IsSpread net.now (fault_in held.now) good.now cone.old start start }
    ensures cone { IsCone net.now cone.new }
    ensures marks { AreMarks net.now cone.new start }
    ensures unmarked { IsUnmarked cone.new.marked.items }
    ensures faulty { IsFaulty net.now (fault_in held.now) good.now (signals net.now) cone.new.words.items }
    ensures changed { AreChanged good.now cone.new }
{
    valid_law(net);
    let mut next = start;
    'gates: while let Some(i) = take_first(cone.marked.as_mut_slice(), next) {
        visit(net, i, held, good, readers, cone);
        next = i + 1;
    }
}

/// Writes the word of an input with the faults of the pass.
fn hold_input(net: &Net, s: usize, held: &Held, good: &[Word], readers: &[Pins], cone: &mut Cone)
    requires input { s < length net.now.inputs }
    requires good { length good.now ≡ signals net.now }
    requires readers { AreReaders net.now readers.now }
    requires cone { IsCone net.now cone.old }
    requires held { IsHeld net.now held.now }
    ensures cone { IsCone net.now cone.new }
    ensures marks { AreMarks net.now cone.old 0 → AreMarks net.now cone.new 0 }
    ensures begun { (e : ℕ) → slice_index held.now.last.items s ≡ e + 1 → IsBegun net.now held.now good.now cone.old e → IsBegun net.now held.now good.now cone.new (e + 1) }
{
    let _names = net.inputs();
    let word = shown(net, held, Place::Stem(s as u32), good[s]);
    put(s, word, good, readers, cone);
}

/// Writes the word of the input at which fault `e` is, if it is the last fault there, or marks the gate, and answers a gate before which none
/// is marked for this fault.
fn begin_one(
    net: &Net,
    e: usize,
    held: &Held,
    good: &[Word],
    readers: &[Pins],
    cone: &mut Cone,
) -> usize
    requires place { e < length held.now.faults.items }
    requires good { length good.now ≡ signals net.now }
    requires readers { AreReaders net.now readers.now }
    requires cone { IsCone net.now cone.old }
    requires held { IsHeld net.now held.now }
    ensures cone { IsCone net.now cone.new }
    ensures marks { (j : ℕ) → j ≤ result → AreMarks net.now cone.old j → AreMarks net.now cone.new j }
    ensures begun { IsBegun net.now held.now good.now cone.old e → IsBegun net.now held.now good.now cone.new (e + 1) }
{
    let first = net.inputs().len();
    let s = site_of(net, held.faults[e].place);
    if s < first {
        if held.last[s] as usize == e + 1 {
            hold_input(net, s, held, good, readers, cone);
        }
        return 0;
    }
    if s >= good.len() {
        return s - first;
    }
    mark(cone.marked.as_mut_slice(), s - first);
    s - first
}

/// Writes the words of inputs with the faults of the pass, marks the gates that differ by a fault at them or an input that they read, and
/// answers a place before which none is marked.
fn begin(net: &Net, held: &Held, good: &[Word], readers: &[Pins], cone: &mut Cone) -> usize
    requires good { length good.now ≡ signals net.now }
    requires readers { AreReaders net.now readers.now }
    requires cone { IsCone net.now cone.old }
    requires held { IsHeld net.now held.now }
    requires rest { IsAtRest good.now cone.old }
    ensures cone { IsCone net.now cone.new }
    ensures marks { AreMarks net.now cone.new result }
    ensures spread { IsSpread net.now (fault_in held.now) good.now cone.new result result }
{
    valid_law(net);
    let mut start = net.gates().len();
    for e in 0..held.faults.len() {
        let at = begin_one(net, e, held, good, readers, cone);
        start = start.min(at);
    }
    start
}

/// The lanes in which some port shows another value.
fn ports_apart(net: &Net, held: &Held, good: &[Word], words: &[Word]) -> Word
    requires good { length good.now ≡ signals net.now }
    requires words { length words.now ≡ signals net.now }
    requires held { IsHeld net.now held.now }
    ensures { (l : ℕ) → l < LANES → has result l ≡ not (each_below (length net.now.outputs) (λ o. not (port_differs net.now.outputs (fault_in held.now l) good.now words.now l o))) }
{
    let outputs = net.outputs();
    let mut word = full(false);
    for o in 0..outputs.len() {
        let s = outputs[o] as usize;
        let seen = shown(net, held, Place::Port(o as u32), words[s]);
        word = either(word, apart(seen, good[s]));
    }
    word
}

/// Makes the words again those without a fault.
fn restore(good: &[Word], cone: &mut Cone)
    requires words { length cone.old.words.items ≡ length good.now }
    requires few { length cone.old.changed.items < 2 ^ 32 }
    requires signals { (s : ℕ) → is_marked cone.old.changed.items s ≡ true → s < length good.now }
    requires changed { AreChanged good.now cone.old }
    ensures words { cone.new.words.items ≡ good.now }
    ensures changed { IsUnmarked cone.new.changed.items }
    ensures marked { cone.new.marked ≡ cone.old.marked }
    ensures len { IsAsLong cone.old cone.new }
{
    let mut next = 0;
    'signals: while let Some(s) = take_first(cone.changed.as_mut_slice(), next) {
        cone.words[s] = good[s];
        next = s + 1;
    }
}

/// The lanes in which the fault of the lane is detected.
pub fn telling(net: &Net, held: &Held, good: &[Word], readers: &[Pins], cone: &mut Cone) -> Word
    requires good { length good.now ≡ signals net.now }
    requires readers { AreReaders net.now readers.now }
    requires cone { IsCone net.now cone.old }
    requires rest { IsAtRest good.now cone.old }
    requires held { IsHeld net.now held.now }
    ensures tells { Tells net.now (fault_in held.now) good.now result }
    ensures cone { IsCone net.now cone.new }
    ensures rest { IsAtRest good.now cone.new }
{
    one_run();
    valid_law(net);
    let start = begin(net, held, good, readers, cone);
    spread(net, start, held, good, readers, cone);
    let told = ports_apart(net, held, good, cone.words.as_slice());
    restore(good, cone);
    told
}
