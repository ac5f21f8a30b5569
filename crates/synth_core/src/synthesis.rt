//! The network of a source and the network's vectors.
ghost use Rattle.std.specs.Prelude.{◌≡◌, ◌≤◌, ◌⊎◌, ℕ, IfOk, IsOk, IsErrOf, Err, length, map};
ghost use Rattle.ae_base.specs.declared.limits.TheConstants.{TEXT_BYTES};
ghost use Rattle.ae_base.specs.Cube.{Signs};
ghost use Rattle.ae_base.specs.Source.{Source};
ghost use Rattle.polarity.specs.Search.{advised};
ghost use Rattle.synth_core.specs.declared.error.SynthErr.TheVariants as synth_err;
ghost use Rattle.synth_core.specs.declared.fault.TextFault.{TextFault};
ghost use Rattle.synth_core.specs.Asked.{HasOtherCount, HasTooMany, IsWithin};
ghost use Rattle.synth_core.specs.Errors.{of_text};
ghost use Rattle.synth_core.specs.Made.{IsMade, texts_of};
ghost use Rattle.synth_core.specs.Says.{source_says};
ghost use Rattle.synth_core.specs.Searched.{AdvisorsStand};
ghost use Rattle.synth_core.specs.Sourced.{IsSourced, IsWhole, parts};
ghost use Rattle.synth_core.specs.Steps.{IsMadeOf, OnlySearched, TooMany};

use crate::error::SynthErr;
use crate::forms::{limit_of, texts};
use crate::made::Made;
use crate::read::read_source;
use crate::search::expansion_of;
use crate::settings::Settings;
use ae_net::NetNames;
use expansion::{expand, expanded_law};
use fn_store::{FnRef, FnStore, expansion_law};
use polarity::Advisor;
use std::alloc::Global;

/// The network of a source and its vectors, as texts: of its names, and of its outputs' functions in any store.
fn synthesise_functions<S: FnStore>(
    alloc: Global,
    names: &NetNames,
    store: &S,
    outputs: &[FnRef],
    settings: &Settings,
    advisors: &mut Vec<Box<dyn Advisor>>,
) -> Result<Made, SynthErr>
    requires whole { IsWhole (parts names.now (S.functions store.now) outputs.now) }
    requires sourced { (s : Source) × (p : Signs) × IsSourced s p (parts names.now (S.functions store.now) outputs.now) }
    ensures made { IfOk result (λ made. (s : Source) (p : Signs) → IsSourced s p (parts names.now (S.functions store.now) outputs.now)
        → IsMadeOf settings.now s p (map (λ b. advised (left b) (log b)) advisors.old.items) (map (λ b. advised (left b) (log b)) advisors.new.items) (texts_of made)) }
    ensures advisors { OnlySearched settings.now (parts names.now (S.functions store.now) outputs.now) (map (λ b. advised (left b) (log b)) advisors.old.items) (map (λ b. advised (left b) (log b)) advisors.new.items) }
    ensures too_many { (output : ℕ) → IsErrOf result (synth_err.TooManyTerms output) → (s : Source) (p : Signs) → IsSourced s p (parts names.now (S.functions store.now) outputs.now) → TooMany settings.now.form s p output }
    ensures accepted { (line : ℕ) (what : TextFault) → ¬ (IsErrOf result (of_text line what)) }
    ensures counted { (given wanted : ℕ) → ¬ (IsErrOf result (synth_err.BitCount given wanted)) }
{
    expanded_law();
    let _ = names.inputs(); // opened here, since their number is the store's
    let limit = limit_of(settings.form);
    let start = expand(alloc, store, outputs, limit)?;
    let expansion = expansion_of(alloc, settings.polarity, limit, start, advisors)?;
    Ok(texts(alloc, settings.form, names, &expansion)?)
}

/// Reads a source of the kind that is asked for, and gives the texts of its network in the form that is asked for and of the network's
/// vectors, with their numbers. `Pla` and `Blif` come exactly where the text is asked for as of that kind and has a fault, with the first
/// one and its line; `BitCount` exactly where it has none and the polarity that is handed has another number of inputs than the text;
/// `TooManyTerms` exactly where neither holds and the running sum of the expansions' terms passes the limit of the form, at the polarity
/// that is handed, else at that of all plain literals, with the first output at which it does; `Memory` for want of memory alone.
///
/// The advisors are as before unless a search is asked for and the source has few enough terms to start from. Then each was asked until
/// nothing is left, unless memory is wanting.
pub fn synthesise(
    alloc: Global,
    bytes: &[u8],
    settings: &Settings,
    advisors: &mut Vec<Box<dyn Advisor>>,
) -> Result<Made, SynthErr>
    requires { length bytes.now ≤ TEXT_BYTES }
    ensures made { IfOk result (λ made. IsMade settings.now bytes.now (map (λ b. advised (left b) (log b)) advisors.old.items) (map (λ b. advised (left b) (log b)) advisors.new.items) (texts_of made)) }
    ensures advisors { AdvisorsStand settings.now (λ b. b ≡ bytes.now) (map (λ b. advised (left b) (log b)) advisors.old.items) (map (λ b. advised (left b) (log b)) advisors.new.items) }
    ensures refused { (line : ℕ) (what : TextFault) → IsErrOf result (of_text line what) → source_says settings.now.kind bytes.now ≡ Err (line, what) }
    ensures bit_count { (given wanted : ℕ) → IsErrOf result (synth_err.BitCount given wanted) → HasOtherCount settings.now bytes.now given wanted }
    ensures too_many { (output : ℕ) → IsErrOf result (synth_err.TooManyTerms output) → HasTooMany settings.now bytes.now output }
    // Each cause has its answer, unless memory is wanting.
    ensures always_refused { (line : ℕ) (what : TextFault) → source_says settings.now.kind bytes.now ≡ Err (line, what) → IsErrOf result (of_text line what) ⊎ IsErrOf result synth_err.Memory }
    ensures always_bit_count { (given wanted : ℕ) → HasOtherCount settings.now bytes.now given wanted → IsErrOf result (synth_err.BitCount given wanted) ⊎ IsErrOf result synth_err.Memory }
    ensures always_too_many { (output : ℕ) → HasTooMany settings.now bytes.now output → IsErrOf result (synth_err.TooManyTerms output) ⊎ IsErrOf result synth_err.Memory }
    ensures complete { IsWithin settings.now bytes.now → IsOk result ⊎ IsErrOf result synth_err.Memory }
{
    expansion_law();
    let sourced = read_source(alloc, bytes, settings)?;
    synthesise_functions(
        alloc,
        &sourced.names,
        &sourced.functions,
        &sourced.outputs,
        settings,
        advisors,
    )
}
