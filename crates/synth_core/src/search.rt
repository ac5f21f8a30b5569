//! The polarity of a synthesis: the one at which terms are counted, or the one that a search from there chooses.
ghost use Rattle.std.specs.Prelude.{◌<◌, ◌≤◌, ◌≡◌, ◌^◌, IfOk, map};
ghost use Rattle.ae_base.specs.declared.limits.TheConstants.{SOURCE_LINES};
ghost use Rattle.expansion.specs.Kept.{KeepsFunctions};
ghost use Rattle.expansion.specs.Terms.{cost};
ghost use Rattle.polarity.specs.Search.{advised};
ghost use Rattle.polarity.specs.Makers.{OfEachSource};
ghost use Rattle.synth_core.specs.Searched.{IsSearched};
ghost use Rattle.synth_core.specs.declared.settings.Choice.TheVariants.{Search as searching};
ghost use Rattle.synth_core.specs.Steps.{ComesOf, OnlyAsked};

use crate::maker::StoreMaker;
use crate::settings::Choice;
use ae_base::Memory;
use expansion::Expansion;
use polarity::{Advisor, choose};
use std::alloc::Global;

/// The expansions at the polarity that a search chooses.
fn search(
    alloc: Global,
    limit: u64,
    start: Expansion,
    advisors: &mut Vec<Box<dyn Advisor>>,
) -> Result<Expansion, Memory>
    requires limit { limit < 2 ^ 61 }
    requires within { cost start ≤ limit }
    requires inputs { start.polarity.n ≤ SOURCE_LINES }
    ensures functions { IfOk result (KeepsFunctions start) }
    ensures within { IfOk result (λ e. cost e ≤ limit) }
    ensures searched { IfOk result (λ e. OfEachSource start (λ s.
        IsSearched s limit start.polarity (map (λ b. advised (left b) (log b)) advisors.old.items) (map (λ b. advised (left b) (log b)) advisors.new.items) e.polarity)) }
    ensures asked { OnlyAsked searching (map (λ b. advised (left b) (log b)) advisors.old.items) (map (λ b. advised (left b) (log b)) advisors.new.items) }
{
    let base = start.copy(alloc)?;
    let maker = StoreMaker { base, limit };
    choose(alloc, advisors, start, &maker)
}

/// The expansions at the polarity that is asked for, from those at which terms are counted. The advisors are asked for a search alone.
pub fn expansion_of(
    alloc: Global,
    choice: Choice,
    limit: u64,
    start: Expansion,
    advisors: &mut Vec<Box<dyn Advisor>>,
) -> Result<Expansion, Memory>
    requires limit { limit < 2 ^ 61 }
    requires within { cost start ≤ limit }
    requires inputs { start.polarity.n ≤ SOURCE_LINES }
    ensures functions { IfOk result (KeepsFunctions start) }
    ensures within { IfOk result (λ e. cost e ≤ limit) }
    ensures comes { IfOk result (λ e. OfEachSource start (λ s.
        ComesOf choice limit s start.polarity (map (λ b. advised (left b) (log b)) advisors.old.items) (map (λ b. advised (left b) (log b)) advisors.new.items) e.polarity)) }
    ensures asked { OnlyAsked choice (map (λ b. advised (left b) (log b)) advisors.old.items) (map (λ b. advised (left b) (log b)) advisors.new.items) }
{
    match choice {
        Choice::Search => search(alloc, limit, start, advisors),
        Choice::Positive | Choice::Given(_) => Ok(start),
    }
}
