//! The advisor that proposes to complement each input.
ghost use Rattle.std.specs.Prelude.{◌≡◌, ◌≤◌, []};
ghost use Rattle.ae_base.specs.declared.limits.TheConstants.{SOURCE_LINES};
ghost use Rattle.polarity.specs.Advisors.{NextGives};
ghost use Rattle.polarity.specs.Proposals.{Moves, all_complemented, proposed};
ghost use Rattle.polarity.specs.Search.{advised};

use crate::advisor::Advisor;
use crate::entry::Entry;
use crate::log::Log;
use ae_base::{Mask, Memory, Polarity};
use std::alloc::Global;
use std::marker::Model;

/// Proposes once the polarity in which each literal is complemented.
#[derive(Drop, Debug)]
pub struct Negative {
    is_done: bool,
    log: Log,
}

impl Model for Negative {
    ghost use Rattle.std.specs.Prelude.{if◌then◌else◌};
    ghost use Rattle.polarity.specs.Search.{Advised, advised};

    ghost Value = { Advised };

    ghost view = { λ a. advised (if a.is_done then 0 else 1) a.log };
}

impl Negative {
    /// The advisor before its proposal. It takes no memory.
    pub fn new(alloc: Global) -> Negative
        ensures { result ≡ advised 1 [] }
    {
        Negative {
            is_done: false,
            log: Log::new(alloc),
        }
    }
}

impl Advisor for Negative {
    ghost left = { λ a. a.left };

    ghost log = { λ a. a.log };

    fn left(&self) -> u64 {
        u64::from(!self.is_done)
    }

    #[tactic(auto, using(ae_base::proofs::Sets::set_members))]
    fn next(&mut self, n: u32) -> Result<Option<Polarity>, Memory>
        requires { n ≤ SOURCE_LINES }
        ensures gives { NextGives n self.old.left self.old.log self.new.left self.new.log result }
        ensures moves { Moves (all_complemented n) (advised 0 (proposed self.old.log (all_complemented n))) self.old self.new result }
    {
        if self.is_done {
            return Ok(None);
        }
        let polarity = Polarity {
            n,
            plain: Mask::empty(),
        };
        self.log.propose(polarity)?;
        self.is_done = true;
        Ok(Some(polarity))
    }

    fn tell(&mut self, cost: Option<u64>) {
        self.log.tell(cost);
    }

    fn log(&self) -> &[Entry] {
        self.log.entries()
    }
}
