//! Which calls of a kind are to fail.
ghost use Rattle.std.specs.Prelude.{◌≡◌, OnOk, OnErr};
ghost use Rattle.ae_outside.specs.Memory.{no_plan, fails_next, after_call, with_failing};

use ae_base::Memory;
use std::alloc::Global;
use std::marker::Model;

/// The calls of one kind: how many there were, and which of them fail.
#[derive(Drop)]
pub struct Calls {
    made: u64,
    failing: Vec<u64>,
}

impl Model for Calls {
    ghost use Rattle.ae_outside.specs.Memory.{Plan};

    ghost Value = { Plan };

    ghost use Rattle.ae_outside.specs.Codes.{coded_plan};

    ghost coded = { coded_plan };

    ghost view = { λ c. record { made = c.made; failing = c.failing.items } };
}

impl Calls {
    /// No call was made, and none is to fail.
    pub fn new(alloc: Global) -> Self
        ensures { result ≡ no_plan }
    {
        Calls {
            made: 0,
            failing: Vec::new(alloc),
        }
    }

    /// The `k`-th call is to fail, counted from 1. After `Memory` nothing changes.
    pub fn fail(&mut self, k: u64) -> Result<(), Memory>
        ensures ok { OnOk result (self.new ≡ with_failing self.old k) }
        ensures err { OnErr result (self.new ≡ self.old) }
    {
        Ok(self.failing.push(k)?)
    }

    /// Counts a call, and tells whether it is to fail.
    pub fn fails(&mut self) -> bool
        ensures fails { result ≡ fails_next self.old }
        ensures made { self.new ≡ after_call self.old }
    {
        self.made = self.made.saturating_add(1);
        self.failing.contains(&self.made)
    }
}
