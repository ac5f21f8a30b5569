//! What a network answers at a point.
ghost use Rattle.std.specs.Prelude.{◌≡◌, ◌<◌, ◌≤◌, ◌+◌, ℕ, Bool, length, if◌then◌else◌, slice_index, All, slice_set, IfOk};
ghost use Rattle.ae_base.specs.Mask.{Set, has, where_below};
ghost use Rattle.ae_net.specs.Network.{signals};
ghost use Rattle.ae_net.specs.declared.net.Place.TheVariants.{Stem, Port};
ghost use Rattle.std.specs.Prelude.{◌==◌};
ghost use Rattle.std.specs.List.{list_any};
ghost use Rattle.ae_base.specs.Cube.{holds};
ghost use Rattle.std.specs.Borrow.{sem};
ghost use Rattle.ae_net.specs.Kept as kept;
ghost use Rattle.ae_net.specs.Out as out;
ghost use Rattle.ae_net.specs.Run as run;
ghost use Rattle.ae_net.specs.Scratch.{LendsBytes};

use crate::evaluation::{Values, evaluate};
use crate::net::{Fault, Gate, Net, Place, Sig};
use ae_base::{Cube, Mask, Memory, NET_LINES, PINS, Point};
use std::alloc::Global;
use std::marker::Model;

fn some_holds(rows: &[Cube], ones: Mask) -> bool
    ensures { result ≡ list_any (λ row. holds row ones) rows.now }
{
    rows.iter().any(|row| row.holds(ones))
}

/// The value of a gate where its pins at these positions are 1, and no others.
#[tactic(auto, unfolding(crate::specs::Run::table))]
fn table(gate: &Gate, ones: Mask) -> bool
    ensures { result ≡ run.table gate.now ones }
{
    let held = some_holds(gate.rows.as_slice(), ones);
    if gate.on { held } else { !held }
}

/// What is seen at a place, where `value` would be seen without the fault.
fn seen(fault: Option<Fault>, at: Place, value: bool) -> bool
    ensures { result ≡ run.seen fault at value }
{
    match fault {
        Some(fault) => if fault.place == at {
            fault.value
        } else {
            value
        },
        None => value,
    }
}

/// The positions of the gate's pins that see 1, where a byte is kept of each signal before it, 1 for true.
fn ones_seen(gate: &Gate, i: u32, fault: Option<Fault>, bytes: &[u8]) -> Mask
    requires few_pins { length gate.now.pins ≤ PINS }
    requires earlier { All (λ pin. pin < length bytes.now) gate.now.pins }
    ensures { result ≡ kept.ones_kept fault bytes.now i gate.now }
{
    let mut ones = Mask::empty();
    for (k, pin) in gate.pins.as_slice().iter().enumerate() {
        if seen(fault, Place::Pin(i, k as u32), bytes[*pin as usize] == 1) {
            ones = ones.with(k as u32);
        }
    }
    ones
}

/// Truth values at a point, with a fault or without. A byte keeps one, 1 for true.
#[derive(Drop)]
struct Truths {
    fault: Option<Fault>,
    point: Mask,
}

impl Values for Truths {
    ghost use Rattle.ae_net.specs.Evaluation.{truths};

    type Cell = u8;

    ghost Value = { Bool };

    ghost domain = { λ values. truths values.fault values.point };

    ghost told = { λ byte. byte == 1 };

    fn input(&self, j: u32) -> u8 {
        self.point.has(j) as u8
    }

    fn seen(&self, at: Place, byte: u8) -> u8 {
        seen(self.fault, at, byte == 1) as u8
    }

    fn gate(&self, gate: &Gate, i: u32, bytes: &[u8]) -> u8 {
        table(gate, ones_seen(gate, i, self.fault, bytes)) as u8
    }
}

/// The outputs whose ports show 1.
fn ports_kept(outputs: &[Sig], fault: Option<Fault>, bytes: &[u8]) -> Mask
    requires few { length outputs.now ≤ NET_LINES }
    requires signals { All (λ s. s < length bytes.now) outputs.now }
    ensures { result ≡ where_below (length outputs.now) (λ o. run.seen fault (Port o) (slice_index bytes.now (slice_index outputs.now o) == 1)) }
{
    let mut ones = Mask::empty();
    for o in 0..outputs.len() {
        if seen(
            fault,
            Place::Port(o as u32),
            bytes[outputs[o] as usize] == 1,
        ) {
            ones = ones.with(o as u32);
        }
    }
    ones
}

/// The outputs that show 1 at the point. The bytes, one for each signal, are written over.
fn answer_over(net: &Net, fault: Option<Fault>, point: Mask, bytes: &mut [u8]) -> Mask
    requires { signals net.now ≤ length bytes.old }
    ensures { result ≡ out.out net.now fault point }
{
    evaluate(&Truths { fault, point }, net, bytes);
    ports_kept(net.outputs.as_slice(), fault, bytes)
}

/// Bytes for the signals of a network. What they hold means nothing between two calls.
#[derive(Drop)]
pub struct Scratch {
    bytes: Vec<u8>,
}

impl Model for Scratch {
    ghost use Rattle.std.specs.Prelude.{ℕ, ◌^◌, ◌<◌, length};

    ghost Value = { ℕ };

    ghost view = { λ s. length s.bytes.items };

    ghost invariant = { λ s. length s.bytes.items < 2 ^ 32 };
}

impl Scratch {
    /// It serves networks with at most so many signals.
    pub fn room(&self) -> u32
        ensures { result ≡ self.now }
    {
        self.bytes.len() as u32
    }

    /// One byte for each signal of the room.
    pub fn bytes(&mut self) -> &mut [u8]
        ensures* lends { sem 𝓛 (LendsBytes self.entry result) }
        ensures room { length result.now ≡ self.old }
    {
        self.bytes.as_mut_slice()
    }
}

/// A scratch with room for the signals of the network.
pub fn scratch_for(alloc: Global, net: &Net) -> Result<Scratch, Memory>
    ensures { IfOk result (λ scratch. scratch ≡ signals net.now) }
{
    let signals = net.inputs.len() + net.gates.len();
    Ok(Scratch {
        bytes: vec![in alloc; 0u8; signals]?,
    })
}

/// The outputs that show 1 at the point, with the fault or without.
pub fn answer(net: &Net, fault: Option<Fault>, point: Point, scratch: &mut Scratch) -> Mask
    requires { signals net.now ≤ scratch.old }
    ensures out { result ≡ out.out net.now fault point }
    ensures room { scratch.new ≡ scratch.old }
{
    answer_over(net, fault, point, scratch.bytes.as_mut_slice())
}
