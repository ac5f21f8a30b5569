//! Networks, places and faults.
ghost use Rattle.std.specs.Prelude.{◌≡◌, ◌<◌, ◌+◌, length};

use crate::pins::Pins;
use ae_base::{Cube, Name, Seq};
use std::marker::Model;

/// A signal: the inputs have the first numbers, and then the gates in list order.
pub type Sig = u32;

/// A gate by its table: with `on` it is 1 exactly where some row holds, else 0 exactly there. A row is a cube over the positions of the pins.
#[derive(Drop)]
pub struct Gate {
    pub out: Name,
    pub pins: Pins,
    pub rows: Seq<Cube>,
    pub on: bool,
}

/// A network of gates. An output port has the name of the gate whose signal it shows. What is asked of it is its invariant, `IsValid`:
/// names of inputs and gates differ, each pin is an earlier signal, ports show gates, and the limits of this crate's base are kept.
#[derive(Drop)]
pub struct Net {
    pub model: Name,
    pub inputs: Seq<Name>,
    pub outputs: Seq<Sig>,
    pub gates: Seq<Gate>,
}

impl Model for Net {
    ghost use Rattle.ae_net.specs.Network.{Network};

    ghost Value = { Network };

    ghost use Rattle.ae_net.specs.Valid.{IsValid};

    ghost view = { λ n. record { model = n.model; inputs = n.inputs; outputs = n.outputs; gates = n.gates } };

    ghost invariant = { λ n. IsValid (record { model = n.model; inputs = n.inputs; outputs = n.outputs; gates = n.gates }) };
}

impl Net {
    ghost use Rattle.ae_net.specs.Network.{gate_at};
    ghost use Rattle.ae_net.specs.Valid.{IsGate, IsValid};

    /// The name of the model.
    pub fn model(&self) -> &Name
        ensures model { result.now ≡ self.now.model }
        ensures valid { IsValid self.now }
    {
        &self.model
    }

    /// The names of the inputs, in order.
    pub fn inputs(&self) -> &[Name]
        ensures inputs { result.now ≡ self.now.inputs }
        ensures valid { IsValid self.now }
    {
        self.inputs.as_slice()
    }

    /// The signals that the output ports show, in order.
    pub fn outputs(&self) -> &[Sig]
        ensures outputs { result.now ≡ self.now.outputs }
        ensures valid { IsValid self.now }
    {
        self.outputs.as_slice()
    }

    /// The gates, in order.
    pub fn gates(&self) -> &[Gate]
        ensures gates { result.now ≡ self.now.gates }
        ensures valid { IsValid self.now }
    {
        self.gates.as_slice()
    }

    /// The gate in place `i` of the list, counted from 0.
    pub fn gate(&self, i: usize) -> &Gate
        requires { i < length self.now.gates }
        ensures gate { result.now ≡ gate_at self.now i }
        ensures valid { IsGate (length self.now.inputs + i) result.now }
    {
        self.gates.at(i)
    }
}

/// Where a fault is: the stem of a signal, a pin of a gate by its place in the list and its position, or an output port.
#[derive(Clone, Copy, Debug, PartialEq, Eq)]
pub enum Place {
    Stem(Sig),
    Pin(u32, u32),
    Port(u32),
}

/// A place that is held at a value.
#[derive(Clone, Copy, Debug, PartialEq, Eq)]
pub struct Fault {
    pub place: Place,
    pub value: bool,
}
