//! The diagram as a store of functions.
ghost use Rattle.davio_dd.specs.Diagram.{functions_of};

use crate::diagram::Davio;
use crate::node::Node;
use ae_base::{Memory, Point, Polarity, Term};
use fn_store::{FnRef, FnStore, TermsErr};

impl FnStore for Davio {
    ghost functions = { λ s. functions_of s.polarity s.nodes.keys };

    fn polarity(&self) -> Polarity {
        self.polarity
    }

    fn zero(&self) -> FnRef {
        FnRef { at: 0 }
    }

    fn one(&self) -> FnRef {
        FnRef { at: 1 }
    }

    fn literal(&mut self, j: u32) -> Result<FnRef, Memory> {
        let at = self.node(Node {
            input: j,
            low: 0,
            high: 1,
        })?;
        Ok(FnRef { at: at as u64 })
    }

    fn xor(&mut self, a: FnRef, b: FnRef) -> Result<FnRef, Memory> {
        let at = self.sum(a.at as usize, b.at as usize)?;
        Ok(FnRef { at: at as u64 })
    }

    fn and(&mut self, a: FnRef, b: FnRef) -> Result<FnRef, Memory> {
        let at = self.product(a.at as usize, b.at as usize)?;
        Ok(FnRef { at: at as u64 })
    }

    fn not(&mut self, a: FnRef) -> Result<FnRef, Memory> {
        let at = self.sum(1, a.at as usize)?;
        Ok(FnRef { at: at as u64 })
    }

    fn same(&self, a: FnRef, b: FnRef) -> bool {
        a.at == b.at
    }

    fn terms_upto(&self, a: FnRef, k: u64) -> Result<Vec<Term>, TermsErr> {
        let at = a.at as usize;
        if self.room_beside(at, k).is_none() {
            return Err(TermsErr::More);
        }
        match self.terms(at) {
            Ok(terms) => Ok(terms),
            Err(Memory) => Err(TermsErr::Memory),
        }
    }

    fn point(&self, a: FnRef) -> Option<Point> {
        if a.at == 0 {
            return None;
        }
        Some(self.path(a.at as usize))
    }
}
