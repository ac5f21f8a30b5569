//! The EXOR and the AND of two places, by those of their parts. Each goes no deeper than the number of inputs.
ghost use Rattle.std.specs.Prelude.{◌≡◌, IfOk};
ghost use Rattle.ae_base.specs.Mask.{differ};
ghost use Rattle.davio_dd.specs.Diagram.{IsPlace, IsAnswer, product};
ghost use Rattle.davio_dd.specs.Scratch.{AreParts, Grows, IsHigh};

use crate::diagram::{Davio, Split};
use crate::node::Node;
use ae_base::Memory;

impl Davio {
    /// The place of the EXOR of two.
    pub(crate) fn sum(&mut self, a: usize, b: usize) -> Result<usize, Memory>
        requires a { IsPlace self.old.nodes.keys a }
        requires b { IsPlace self.old.nodes.keys b }
        ensures polarity { self.new.polarity ≡ self.old.polarity }
        ensures grows { Grows self.old.nodes.keys self.new.nodes.keys }
        ensures answer { IfOk result (IsAnswer differ self.new.polarity self.new.nodes.keys a b) }
    {
        if a == b {
            return Ok(0);
        }
        if a == 0 {
            return Ok(b);
        }
        if b == 0 {
            return Ok(a);
        }
        if let Some(answer) = self.recall_sum(a, b) {
            return Ok(answer);
        }
        let split = self.split(a, b);
        let low = self.sum(split.a_low, split.b_low)?;
        let high = self.sum(split.a_high, split.b_high)?;
        let answer = self.node(Node {
            input: split.input,
            low,
            high,
        })?;
        self.remember_sum(a, b, answer);
        Ok(answer)
    }

    /// The place of the AND of two.
    #[cycle(product)]
    pub(crate) fn product(&mut self, a: usize, b: usize) -> Result<usize, Memory>
        requires a { IsPlace self.old.nodes.keys a }
        requires b { IsPlace self.old.nodes.keys b }
        ensures polarity { self.new.polarity ≡ self.old.polarity }
        ensures grows { Grows self.old.nodes.keys self.new.nodes.keys }
        ensures answer { IfOk result (IsAnswer product self.new.polarity self.new.nodes.keys a b) }
    {
        if a == b || b == 1 {
            return Ok(a);
        }
        if a == 1 {
            return Ok(b);
        }
        if a == 0 || b == 0 {
            return Ok(0);
        }
        if let Some(answer) = self.recall_product(a, b) {
            return Ok(answer);
        }
        let split = self.split(a, b);
        let low = self.product(split.a_low, split.b_low)?;
        let high = self.product_high(split, low)?;
        let answer = self.node(Node {
            input: split.input,
            low,
            high,
        })?;
        self.remember_product(a, b, answer);
        Ok(answer)
    }

    /// The high part of the AND of two places, by their parts and its low part: the AND where the literal is 0, EXOR the AND where it
    /// is 1. Where only one of the two tests the input, it is the AND of that one's high part with the other.
    #[cycle(product)]
    fn product_high(&mut self, split: Split, low: usize) -> Result<usize, Memory>
        requires parts { AreParts self.old.polarity.n self.old.nodes.keys split.input split.a_low split.a_high split.b_low split.b_high }
        requires low { IsAnswer product self.old.polarity self.old.nodes.keys split.a_low split.b_low low }
        ensures polarity { self.new.polarity ≡ self.old.polarity }
        ensures grows { Grows self.old.nodes.keys self.new.nodes.keys }
        ensures high { IfOk result (IsHigh product self.new.polarity self.new.nodes.keys split.input split.a_low split.a_high split.b_low split.b_high) }
    {
        if split.b_high == 0 {
            return self.product(split.a_high, split.b_low);
        }
        if split.a_high == 0 {
            return self.product(split.a_low, split.b_high);
        }
        let a_one = self.sum(split.a_low, split.a_high)?;
        let b_one = self.sum(split.b_low, split.b_high)?;
        let one = self.product(a_one, b_one)?;
        self.sum(low, one)
    }
}
