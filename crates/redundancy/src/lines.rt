//! Whether a leaf of an evidence tree holds: three-valued simulation without and with the fault, and quiet lines, in one pass over the gates.
ghost use Rattle.std.specs.Prelude.{◌≡◌, ◌<◌, ◌≤◌, length, All, if◌then◌else◌};
ghost use Rattle.std.specs.List.{list_any, list_all};
ghost use Rattle.ae_base.specs.Mask as set;
ghost use Rattle.ae_base.specs.declared.limits.TheConstants.{PINS, NET_LINES, WIDTH};
ghost use Rattle.ae_net.specs.Faults.{IsPlace};
ghost use Rattle.ae_net.specs.Network.{signals};
ghost use Rattle.redundancy.specs.Kept as kept;
ghost use Rattle.redundancy.specs.Leaf as leaf;
ghost use Rattle.redundancy.specs.Leaves.{LeafTells};
ghost use Rattle.redundancy.specs.Simulation as spec;
ghost use Rattle.redundancy.specs.Worked as worked;
ghost use Rattle.redundancy.specs.declared.lines.Subcube.{Subcube};

use crate::laws::leaf_law;
use ae_base::{Cube, Mask};
use ae_net::{Fault, Gate, Net, Place, Sig, Values, evaluate, fault_laws};

/// Known 0, known 1, or unknown.
type Known = Option<bool>;

/// What is known of a signal, a pin or a port at a leaf.
#[derive(Clone, Copy)]
pub struct Line {
    /// The value without the fault.
    good: Known,
    /// The value with the fault.
    faulty: Known,
    /// The fault cannot change the value.
    quiet: bool,
}

/// A part of the points: the inputs below `depth` are known, each 1 exactly where it is a member of `point`. All others are unknown.
#[derive(Drop)]
pub struct Subcube {
    pub depth: u32,
    pub point: Mask,
}

/// Which value of a line is looked at: without the fault, with it, or without it where the line is quiet.
#[derive(Clone, Copy)]
enum View {
    Good,
    Faulty,
    Quiet,
}

impl Subcube {
    /// All points.
    pub fn whole() -> Subcube
        ensures { result ≡ leaf.whole }
    {
        Subcube {
            depth: 0,
            point: Mask::empty(),
        }
    }

    /// The half in which the next input is 0.
    pub fn low(&self) -> Subcube
        requires { self.now.depth < WIDTH }
        ensures { result ≡ leaf.low self.now }
    {
        Subcube {
            depth: self.depth + 1,
            point: self.point.without(self.depth),
        }
    }

    /// The half in which the next input is 1.
    pub fn high(&self) -> Subcube
        requires { self.now.depth < WIDTH }
        ensures { result ≡ leaf.high self.now }
    {
        Subcube {
            depth: self.depth + 1,
            point: self.point.with(self.depth),
        }
    }
}

/// The digit of a value: unknown, known 0, known 1.
fn digit(known: Known) -> u8
    ensures digit { result ≡ kept.digit known }
    ensures small { result < 3 }
{
    match known {
        None => 0,
        Some(value) => if value { 2 } else { 1 },
    }
}

fn known_digit(digit: u8) -> Known
    ensures { result ≡ kept.known_digit digit }
{
    if digit == 0 { None } else { Some(digit != 1) }
}

/// A line as a byte.
fn byte_of(line: Line) -> u8
    ensures { result ≡ kept.byte_of line }
{
    let quiet = if line.quiet { 9 } else { 0 };
    digit(line.good) + 3 * digit(line.faulty) + quiet
}

/// The line that a byte is.
fn line_in(byte: u8) -> Line
    ensures { result ≡ kept.line_in byte }
{
    Line {
        good: known_digit(byte % 3),
        faulty: known_digit(byte / 3 % 3),
        quiet: byte >= 9,
    }
}

/// The line that is seen at a place, where `line` would be seen without the fault.
fn held(fault: Fault, at: Place, line: Line) -> Line
    ensures { result ≡ spec.held fault at line }
{
    if fault.place == at {
        Line {
            good: line.good,
            faulty: Some(fault.value),
            quiet: false,
        }
    } else {
        line
    }
}

/// The line of an input by itself.
fn input_line(cube: &Subcube, j: u32) -> Line
    ensures { result ≡ spec.input_line cube.now j }
{
    let known = if j < cube.depth {
        Some(cube.point.has(j))
    } else {
        None
    };
    Line {
        good: known,
        faulty: known,
        quiet: true,
    }
}

fn is_one(known: Known) -> bool
    ensures { result ≡ spec.is_one known }
{
    match known {
        None => false,
        Some(value) => value,
    }
}

fn is_zero(known: Known) -> bool
    ensures { result ≡ spec.is_zero known }
{
    match known {
        None => false,
        Some(value) => !value,
    }
}

fn view_of(view: View, line: Line) -> Known
    ensures { result ≡ kept.view_of view line }
{
    match view {
        View::Good => line.good,
        View::Faulty => line.faulty,
        View::Quiet => if line.quiet { line.good } else { None },
    }
}

/// What pin `k` of the gate sees.
fn pin_line(gate: &Gate, i: u32, k: usize, fault: Fault, bytes: &[u8]) -> Line
    requires pin { k < length gate.now.pins }
    requires few_pins { length gate.now.pins ≤ PINS }
    requires earlier { All (λ pin. pin < length bytes.now) gate.now.pins }
    ensures { result ≡ kept.pin_kept fault bytes.now i gate.now k }
{
    let pin = gate.pins.as_slice()[k];
    held(fault, Place::Pin(i, k as u32), line_in(bytes[pin as usize]))
}

/// The set, with `j` as a member where it is to be one.
fn with_if(members: Mask, j: u32, is_member: bool) -> Mask
    requires { j < WIDTH }
    ensures { result ≡ (if is_member then set.with members j else members) }
{
    if is_member { members.with(j) } else { members }
}

/// What is known of the gate's pins.
fn known_pins(gate: &Gate, i: u32, fault: Fault, bytes: &[u8], view: View) -> Cube
    requires few_pins { length gate.now.pins ≤ PINS }
    requires earlier { All (λ pin. pin < length bytes.now) gate.now.pins }
    ensures { result ≡ spec.known_pins (length gate.now.pins) (λ k. kept.view_of view (kept.pin_kept fault bytes.now i gate.now k)) }
{
    let mut ones = Mask::empty();
    let mut zeros = Mask::empty();
    for k in 0..gate.pins.len() {
        let known = view_of(view, pin_line(gate, i, k, fault, bytes));
        ones = with_if(ones, k as u32, is_one(known));
        zeros = with_if(zeros, k as u32, is_zero(known));
    }
    Cube {
        pos: ones,
        neg: zeros,
    }
}

/// Whether all pins of the gate are quiet.
fn all_quiet(gate: &Gate, i: u32, fault: Fault, bytes: &[u8]) -> bool
    requires few_pins { length gate.now.pins ≤ PINS }
    requires earlier { All (λ pin. pin < length bytes.now) gate.now.pins }
    ensures { result ≡ spec.each_below (length gate.now.pins) (λ k. (kept.pin_kept fault bytes.now i gate.now k).quiet) }
{
    let mut all = true;
    for k in 0..gate.pins.len() {
        let line = pin_line(gate, i, k, fault, bytes);
        all = line.quiet && all;
    }
    all
}

fn surely_holds(row: Cube, pins: Cube) -> bool
    ensures { result ≡ spec.surely_holds row pins }
{
    row.pos.inside(pins.pos) && row.neg.inside(pins.neg)
}

fn some_row_holds(rows: &[Cube], pins: Cube) -> bool
    ensures { result ≡ list_any (λ row. spec.surely_holds row pins) rows.now }
{
    rows.iter().any(|row| surely_holds(*row, pins))
}

fn every_row_fails(rows: &[Cube], pins: Cube) -> bool
    ensures { result ≡ list_all (λ row. spec.surely_fails row pins) rows.now }
{
    rows.iter().all(|row| !row.meets(pins))
}

/// What is known of the value of a gate, where this is known of its pins.
#[tactic(auto, unfolding(crate::specs::Simulation::known_table))]
fn known_table(gate: &Gate, pins: Cube) -> Known
    ensures { result ≡ spec.known_table gate.now pins }
{
    if some_row_holds(gate.rows.as_slice(), pins) {
        return Some(gate.on);
    }
    if every_row_fails(gate.rows.as_slice(), pins) {
        return Some(!gate.on);
    }
    None
}

/// The line of a gate by itself.
fn gate_line(gate: &Gate, i: u32, fault: Fault, bytes: &[u8]) -> Line
    requires few_pins { length gate.now.pins ≤ PINS }
    requires earlier { All (λ pin. pin < length bytes.now) gate.now.pins }
    ensures { result ≡ spec.gate_line gate.now (kept.pin_kept fault bytes.now i gate.now) }
{
    let good = known_table(gate, known_pins(gate, i, fault, bytes, View::Good));
    let faulty = known_table(gate, known_pins(gate, i, fault, bytes, View::Faulty));
    let alone = known_table(gate, known_pins(gate, i, fault, bytes, View::Quiet));
    Line {
        good,
        faulty,
        quiet: all_quiet(gate, i, fault, bytes) || alone.is_some(),
    }
}

/// What is known of lines in a subcube, without a fault and with it. A byte keeps a line.
#[derive(Drop)]
pub struct Lines<'a> {
    fault: Fault,
    cube: &'a Subcube,
}

impl Values for Lines<'_> {
    ghost use Rattle.redundancy.specs.declared.lines.Line.{Line};
    ghost use Rattle.redundancy.specs.Kept.{line_in};
    ghost use Rattle.redundancy.specs.Worked.{known_lines};

    type Cell = u8;

    ghost Value = { Line };

    ghost domain = { λ lines. known_lines lines.fault lines.cube.now };

    ghost told = { line_in };

    fn input(&self, j: u32) -> u8 {
        byte_of(input_line(self.cube, j))
    }

    fn seen(&self, at: Place, byte: u8) -> u8 {
        byte_of(held(self.fault, at, line_in(byte)))
    }

    fn gate(&self, gate: &Gate, i: u32, bytes: &[u8]) -> u8 {
        byte_of(gate_line(gate, i, self.fault, bytes))
    }
}

/// The signal of a place.
fn signal_of(net: &Net, place: Place) -> Sig
    requires { IsPlace net.now place }
    ensures signal { result ≡ kept.signal_of net.now place }
    ensures within { result < signals net.now }
{
    fault_laws();
    let outputs = net.outputs();
    match place {
        Place::Stem(s) => s,
        Place::Pin(i, k) => net.gate(i as usize).pins.as_slice()[k as usize],
        Place::Port(o) => outputs[o as usize],
    }
}

fn is_known(value: bool, known: Known) -> bool
    ensures { result ≡ worked.is_known value known }
{
    match known {
        None => false,
        Some(other) => value == other,
    }
}

fn are_same(one: Known, other: Known) -> bool
    ensures { result ≡ worked.are_same one other }
{
    match one {
        None => false,
        Some(value) => is_known(value, other),
    }
}

/// What port `o` sees.
fn port_line(outputs: &[Sig], o: usize, fault: Fault, bytes: &[u8]) -> Line
    requires port { o < length outputs.now }
    requires few { length outputs.now ≤ NET_LINES }
    requires signals { All (λ s. s < length bytes.now) outputs.now }
    ensures { result ≡ kept.port_kept fault bytes.now outputs.now o }
{
    let s = outputs[o];
    held(fault, Place::Port(o as u32), line_in(bytes[s as usize]))
}

/// Whether every port is quiet, or known with one value both without and with the fault.
fn all_untouched(outputs: &[Sig], fault: Fault, bytes: &[u8]) -> bool
    requires few { length outputs.now ≤ NET_LINES }
    requires signals { All (λ s. s < length bytes.now) outputs.now }
    ensures { result ≡ spec.each_below (length outputs.now) (λ o. worked.is_untouched (kept.port_kept fault bytes.now outputs.now o)) }
{
    let mut all = true;
    for o in 0..outputs.len() {
        let line = port_line(outputs, o, fault, bytes);
        all = (line.quiet || are_same(line.good, line.faulty)) && all;
    }
    all
}

/// Whether the leaf holds. The bytes, one for each signal, are written over.
pub fn leaf_holds(net: &Net, fault: Fault, cube: &Subcube, bytes: &mut [u8]) -> bool
    requires place { IsPlace net.now fault.place }
    requires room { signals net.now ≤ length bytes.old }
    ensures worked { result ≡ worked.leaf_holds net.now fault cube.now }
    ensures tells { LeafTells net.now fault cube.now }
{
    leaf_law();
    let outputs = net.outputs();
    evaluate(&Lines { fault, cube }, net, bytes);
    let site = line_in(bytes[signal_of(net, fault.place) as usize]);
    is_known(fault.value, site.good) || all_untouched(outputs, fault, bytes)
}
