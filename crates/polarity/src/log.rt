//! The log of an advisor.
ghost use Rattle.std.specs.Prelude.{◌≡◌, true, [], OnOk, OnErr};
ghost use Rattle.polarity.specs.Advisors.{TellsLast, ends_untold};
ghost use Rattle.polarity.specs.Proposals.{proposed};

use crate::entry::{Entry, Told};
use ae_base::{Memory, Polarity};
use std::alloc::Global;
use std::marker::Model;

/// The entries of an advisor's proposals, the first proposal first.
#[derive(Drop, Debug)]
pub struct Log {
    entries: Vec<Entry>,
}

impl Model for Log {
    ghost use Rattle.std.specs.Prelude.{List};
    ghost use Rattle.polarity.specs.declared.entry.Entry.{Entry};

    ghost Value = { List Entry };

    ghost view = { λ l. l.entries.items };
}

impl Log {
    /// The log of no proposals. It takes no memory before the first one.
    pub fn new(alloc: Global) -> Log
        ensures { result ≡ [] }
    {
        Log {
            entries: Vec::new(alloc),
        }
    }

    /// Appends a proposal, its cost untold. After `Memory` the log is as before.
    pub fn propose(&mut self, polarity: Polarity) -> Result<(), Memory>
        ensures ok { OnOk result (self.new ≡ proposed self.old polarity) }
        ensures err { OnErr result (self.new ≡ self.old) }
    {
        self.entries.push(Entry {
            polarity,
            cost: Told::Untold,
        })?;
        Ok(())
    }

    /// Tells the cost of the last proposal, or by `None` that it passes the limit. It takes no memory.
    pub fn tell(&mut self, cost: Option<u64>)
        requires { ends_untold self.old ≡ true }
        ensures { TellsLast cost self.old self.new }
    {
        let last = self.entries.len() - 1;
        self.entries[last].cost = match cost {
            Some(cost) => Told::Cost(cost),
            None => Told::Over,
        };
    }

    /// The entries in order.
    pub fn entries(&self) -> &[Entry]
        ensures { result.now ≡ self.now }
    {
        self.entries.as_slice()
    }
}
