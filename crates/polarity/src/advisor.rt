//! Advisors, which propose polarities.
ghost use Rattle.std.specs.Prelude.{◌≡◌, ℕ, ◌≤◌, true, List};
ghost use Rattle.ae_base.specs.declared.limits.TheConstants.{SOURCE_LINES};
ghost use Rattle.polarity.specs.Advisors.{NextGives, TellsLast, ends_untold};
ghost use Rattle.polarity.specs.declared.entry.Entry.{Entry};

use crate::entry::Entry;
use ae_base::{Memory, Polarity};

/// An object that proposes polarities, is told what each one costs, and keeps a log of them.
pub trait Advisor: Drop {
    /// A number that falls with each proposal. At 0 there are no more.
    ghost left: { Self → ℕ };

    /// The entries of all proposals so far.
    ghost log: { Self → List Entry };

    /// How many proposals there may still be. It takes no memory.
    fn left(&self) -> u64
        ensures { result ≡ left self.now };

    /// The next proposal, a polarity of `n` inputs. It is put at the end of the log, and its cost is yet untold. `None` comes exactly
    /// where nothing is left. Then, and after `Memory`, the advisor is as before.
    fn next(&mut self, n: u32) -> Result<Option<Polarity>, Memory>
        requires { n ≤ SOURCE_LINES }
        ensures { NextGives n (left self.old) (log self.old) (left self.new) (log self.new) result };

    /// Tells the cost of the last proposal, or by `None` that it passes the limit. It takes no memory.
    fn tell(&mut self, cost: Option<u64>)
        requires { ends_untold (log self.old) ≡ true }
        ensures left { left self.new ≡ left self.old }
        ensures log { TellsLast cost (log self.old) (log self.new) };

    /// The entries of all proposals so far, the first proposal first. It takes no memory.
    fn log(&self) -> &[Entry]
        ensures { result.now ≡ log self.now };
}

impl Advisor for Box<dyn Advisor> {
    ghost left = { λ b. (Advisor-box b).left b.value };

    ghost log = { λ b. (Advisor-box b).log b.value };

    fn left(&self) -> u64 {
        (**self).left()
    }

    fn next(&mut self, n: u32) -> Result<Option<Polarity>, Memory> {
        (**self).next(n)
    }

    fn tell(&mut self, cost: Option<u64>) {
        (**self).tell(cost)
    }

    fn log(&self) -> &[Entry] {
        (**self).log()
    }
}
