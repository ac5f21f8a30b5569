//! The evaluation of a network over any kind of values, in one walk.
ghost use Rattle.std.specs.Prelude.{◌≡◌, ◌≤◌, ◌<◌, ◌+◌, ℕ, All, length, map, take};
ghost use Rattle.ae_base.specs.declared.limits.TheConstants.{PINS};
ghost use Rattle.ae_net.specs.Evaluation.{Domain, AreKept, AreAllKept, pin_seen, values_to};
ghost use Rattle.ae_net.specs.Network.{signals};

use crate::net::{Gate, Net, Place};

/// A kind of values over which networks are evaluated: what is kept of the value of a signal, and how it comes from what was kept before.
pub trait Values {
    /// What is kept of a value.
    type Cell: Copy;

    ghost Value: { Type 0 };

    ghost domain: { Self → Domain Value };

    ghost told: { Self.Cell → Value };

    /// The value of input `j`.
    fn input(&self, j: u32) -> Self::Cell
        ensures { told result ≡ (domain self.now).input j };

    /// What is seen at a place, where this value would be seen without the fault.
    fn seen(&self, at: Place, cell: Self::Cell) -> Self::Cell
        ensures { told result ≡ (domain self.now).seen at (told cell) };

    /// The value of the gate in place `i`, from those of the signals before it that its pins read.
    fn gate(&self, gate: &Gate, i: u32, cells: &[Self::Cell]) -> Self::Cell
        requires few_pins { length gate.now.pins ≤ PINS }
        requires earlier { All (λ pin. pin < length cells.now) gate.now.pins }
        ensures { (value : ℕ → Value) → AreKept told gate.now cells.now value → told result ≡ (domain self.now).table gate.now (pin_seen (domain self.now) value i gate.now) };
}

/// Writes the values of the inputs.
fn evaluate_inputs<V: Values>(values: &V, net: &Net, cells: &mut [V::Cell])
    requires { signals net.now ≤ length cells.old }
    ensures { map V.told (take (length net.now.inputs) cells.new) ≡ values_to (V.domain values.now) net.now 0 }
{
    for j in 0..net.inputs().len() {
        let value = values.input(j as u32);
        cells[j] = values.seen(Place::Stem(j as u32), value);
    }
}

/// Writes the values of the gates, in order.
fn evaluate_gates<V: Values>(values: &V, net: &Net, cells: &mut [V::Cell])
    requires room { signals net.now ≤ length cells.old }
    requires inputs { map V.told (take (length net.now.inputs) cells.old) ≡ values_to (V.domain values.now) net.now 0 }
    ensures { AreAllKept V.told (V.domain values.now) net.now cells.new }
{
    let first = net.inputs().len();
    for i in 0..net.gates().len() {
        let value = values.gate(net.gate(i), i as u32, cells);
        cells[first + i] = values.seen(Place::Stem((first + i) as u32), value);
    }
}

/// Works out the values of all signals, each gate's from those before it. What is kept of them, by signal, is written over `cells`.
pub fn evaluate<V: Values>(values: &V, net: &Net, cells: &mut [V::Cell])
    requires { signals net.now ≤ length cells.old }
    ensures { AreAllKept V.told (V.domain values.now) net.now cells.new }
{
    evaluate_inputs(values, net, cells);
    evaluate_gates(values, net, cells);
}
