//! Networks are built gate by gate.
ghost use Rattle.std.specs.Prelude.{◌≡◌, ◌≤◌, ◌<◌, ◌++◌, ◌∷◌, [], length, IfOk, OnOk, OnErr};
ghost use Rattle.ae_net.specs.Builder as spec;
ghost use Rattle.ae_net.specs.Gates as gate;
ghost use Rattle.ae_net.specs.Valid.{IsValid};

use crate::gates::{Cell, gate_of};
use crate::net::{Gate, Net, Sig};
use ae_base::{GATES, Memory, NET_LINES, Name, PINS, Seq};
use std::alloc::Global;
use std::marker::Model;

/// A network in the making: its inputs, at most `NET_LINES`, and the gates so far, at most `GATES`. Each call that adds a gate answers
/// the gate's signal, for the pins of later gates and for the outputs. `Memory` comes only for want of memory, and leaves all as it was.
#[derive(Drop)]
pub struct NetBuilder {
    alloc: Global,
    inputs: Seq<Name>,
    gates: Seq<Gate>,
}

impl Model for NetBuilder {
    ghost use Rattle.ae_net.specs.Builder.{Built};
    ghost use Rattle.ae_base.specs.declared.limits.TheConstants.{GATES, NET_LINES};
    ghost use Rattle.std.specs.Prelude.{◌≤◌, length};

    ghost Value = { Built };

    ghost view = { λ b. record { inputs = b.inputs; gates = b.gates } };

    ghost invariant = { λ b. (length b.inputs ≤ NET_LINES) × (length b.gates ≤ GATES) };
}

impl NetBuilder {
    /// No gates, and inputs of these names. It takes no memory.
    pub fn new(alloc: Global, inputs: Seq<Name>) -> NetBuilder
        requires { length inputs ≤ NET_LINES }
        ensures { result ≡ record { inputs = inputs; gates = [] } }
    {
        NetBuilder {
            alloc,
            inputs,
            gates: Seq::new(alloc),
        }
    }

    /// The gates so far, in order.
    pub fn gates(&self) -> &[Gate]
        ensures { result.now ≡ self.now.gates }
    {
        self.gates.as_slice()
    }

    /// The signal that the next gate has.
    fn next(&self) -> Sig
        ensures { result ≡ spec.next self.now }
    {
        (self.inputs.len() + self.gates.len()) as Sig
    }

    /// Adds the gate of this name that computes what the cell says. Its pins are signals of inputs or of earlier gates.
    pub fn push(&mut self, out: Name, cell: &Cell) -> Result<Sig, Memory>
        requires few_gates { length self.old.gates < GATES }
        requires few_pins { length (gate.pins_of cell.now) ≤ PINS }
        ensures gates { OnOk result (self.new.gates ≡ self.old.gates ++ gate.gate_of out cell.now ∷ []) }
        ensures inputs { self.new.inputs ≡ self.old.inputs }
        ensures signal { IfOk result (λ signal. signal ≡ spec.next self.old) }
        ensures err { OnErr result (self.new ≡ self.old) }
    {
        let gate = gate_of(self.alloc, out, cell)?;
        let signal = self.next();
        self.gates.push(gate)?;
        Ok(signal)
    }

    /// The network of this name, whose output ports show these signals. All in all it must be valid, as every `Net` is.
    pub fn finish(self, model: Name, outputs: Seq<Sig>) -> Net
        requires { IsValid (spec.network self model outputs) }
        ensures { result ≡ spec.network self model outputs }
    {
        let NetBuilder { inputs, gates, .. } = self;
        Net {
            model,
            inputs,
            outputs,
            gates,
        }
    }
}
