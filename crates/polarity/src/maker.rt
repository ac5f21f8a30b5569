//! Makers of expansions, at any polarity.
ghost use Rattle.std.specs.Prelude.{◌≡◌, ℕ, ◌<◌, ◌≤◌, ◌^◌, IfOk, IsErrOf};
ghost use Rattle.expansion.specs.Kept.{KeepsFunctions};
ghost use Rattle.expansion.specs.Terms.{Terms, cost};
ghost use Rattle.expansion.specs.declared.functions.ExpandErr.TheVariants as expand_err;
ghost use Rattle.polarity.specs.Makers.{HasTooManyAt, OfEachSource};

use ae_base::Polarity;
use expansion::{ExpandErr, Expansion};
use std::alloc::Global;

/// An object that expands the same functions at each polarity that it is asked for.
pub trait Maker {
    /// An expansion of the functions.
    ghost base: { Self → Terms };

    /// The most terms of an expansion.
    ghost limit: { Self → ℕ };

    /// The expansion of the functions at a polarity of their inputs. `TooManyTerms` comes exactly where it has more terms than the limit,
    /// and carries the first output at which the running sum passes it. Where memory runs out, `Memory`.
    fn at(&self, alloc: Global, p: Polarity) -> Result<Expansion, ExpandErr>
        requires { p.n ≡ (base self.now).polarity.n }
        ensures polarity { IfOk result (λ e. e.polarity ≡ p) }
        ensures functions { IfOk result (KeepsFunctions (base self.now)) }
        ensures within { IfOk result (λ e. cost e ≤ limit self.now) }
        ensures too_many { (output : ℕ) → IsErrOf result (expand_err.TooManyTerms output)
            → OfEachSource (base self.now) (λ s. HasTooManyAt s (limit self.now) p output) };

    /// The limit is a number below 2 to the 61.
    ghost limit_fits: { (m : Self) → limit m < 2 ^ 61 };
}
