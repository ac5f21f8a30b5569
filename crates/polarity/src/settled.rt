//! Settling: the polarity goes down in cost, one input at a time.
ghost use Rattle.std.specs.Prelude.{◌≡◌, ◌<◌, ◌≤◌, ◌^◌, IfOk, MatchOption};
ghost use Rattle.ae_base.specs.Source.{Source};
ghost use Rattle.expansion.specs.Functions.{AreExpansions};
ghost use Rattle.expansion.specs.Kept.{KeepsFunctions};
ghost use Rattle.expansion.specs.Terms.{cost};
ghost use Rattle.polarity.specs.Cost.{IsLocallyCheapest};
ghost use Rattle.polarity.specs.Round.{IsRound, NoneCheaper};
ghost use Rattle.polarity.specs.Settling.{settling};

use crate::laws::cost_law;
use ae_base::Memory;
use expansion::{Expansion, flip, pairs};
use std::alloc::Global;

/// The expansions of the same functions at the settled polarity: while some input's flip costs less, the first such input is flipped.
/// Where memory runs out, or a flip on the way has to add lists of more than 8,388,608 terms, `Memory`.
pub fn settle(alloc: Global, e: Expansion) -> Result<Expansion, Memory>
    requires { cost e < 2 ^ 61 }
    ensures settling { IfOk result (λ settled. (s : Source) → AreExpansions s e.polarity e → settled.polarity ≡ settling s e.polarity) }
    ensures functions { IfOk result (KeepsFunctions e) }
    ensures cost { IfOk result (λ settled. cost settled ≤ cost e) }
    ensures cheapest { IfOk result (λ settled. (s : Source) → AreExpansions s e.polarity e → IsLocallyCheapest s settled.polarity) }
{
    cost_law();
    let mut settled = e;
    while let Some(cheaper) = flip_first(alloc, &settled)? {
        settled = cheaper;
    }
    Ok(settled)
}

/// The expansions with the first input flipped whose flip costs less, where there is one.
fn flip_first(alloc: Global, e: &Expansion) -> Result<Option<Expansion>, Memory>
    requires { cost e.now < 2 ^ 61 }
    ensures { IfOk result (λ found. MatchOption found (NoneCheaper e.now) (IsRound e.now)) }
{
    cost_law();
    let now = pairs(e);
    for j in 0..e.inputs() {
        let flipped = flip(alloc, e, j)?;
        if pairs(&flipped) < now {
            return Ok(Some(flipped));
        }
    }
    Ok(None)
}
