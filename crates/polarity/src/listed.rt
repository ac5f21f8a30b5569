//! The advisor that proposes what it was handed.
ghost use Rattle.std.specs.Prelude.{◌≡◌, ◌≤◌, [], length};
ghost use Rattle.ae_base.specs.declared.limits.TheConstants.{SOURCE_LINES};
ghost use Rattle.polarity.specs.Advisors.{NextGives};
ghost use Rattle.polarity.specs.Proposals.{Moves, list_on, next_listed};

use crate::advisor::Advisor;
use crate::entry::Entry;
use crate::log::Log;
use ae_base::{Mask, Memory, Polarity};
use std::alloc::Global;
use std::marker::Model;

/// Proposes its masks in order: the inputs of a mask are plain.
#[derive(Drop, Debug)]
pub struct Listed {
    masks: Vec<Mask>,
    given: usize,
    log: Log,
}

impl Model for Listed {
    ghost use Rattle.std.specs.Prelude.{◌≤◌, drop, vec_len};
    ghost use Rattle.polarity.specs.Proposals.{Listing};

    ghost Value = { Listing };

    ghost view = { λ a. record { masks = drop a.given a.masks.items; log = a.log } };

    ghost invariant = { λ a. a.given ≤ vec_len a.masks };
}

impl Listed {
    /// The advisor before the first of these proposals. It takes no memory.
    pub fn new(alloc: Global, masks: Vec<Mask>) -> Listed
        ensures { result ≡ record { masks = masks.items; log = [] } }
    {
        Listed {
            masks,
            given: 0,
            log: Log::new(alloc),
        }
    }
}

impl Advisor for Listed {
    ghost use Rattle.std.specs.Prelude.{length};

    ghost left = { λ a. length a.masks };

    ghost log = { λ a. a.log };

    fn left(&self) -> u64 {
        (self.masks.len() - self.given) as u64
    }

    #[tactic(auto, using(ae_base::proofs::Sets::set_members))]
    fn next(&mut self, n: u32) -> Result<Option<Polarity>, Memory>
        requires { n ≤ SOURCE_LINES }
        ensures gives { NextGives n (length self.old.masks) self.old.log (length self.new.masks) self.new.log result }
        ensures moves { Moves (next_listed n self.old) (list_on n self.old) self.old self.new result }
    {
        if self.given == self.masks.len() {
            return Ok(None);
        }
        let polarity = Polarity {
            n,
            plain: self.masks[self.given].both(Mask::first(n)),
        };
        self.log.propose(polarity)?;
        self.given += 1;
        Ok(Some(polarity))
    }

    fn tell(&mut self, cost: Option<u64>) {
        self.log.tell(cost);
    }

    fn log(&self) -> &[Entry] {
        self.log.entries()
    }
}
