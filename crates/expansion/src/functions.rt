//! The expansions of the functions of a store.
ghost use Rattle.std.specs.Prelude.{◌≡◌, ℕ, ◌<◌, ◌≤◌, ◌^◌, IfOk, IsErrOf, All, length};
ghost use Rattle.fn_store.specs.Functions.{IsLive};
ghost use Rattle.expansion.specs.Stores.{expanded};
ghost use Rattle.expansion.specs.Terms.{PassesAt, cost};
ghost use Rattle.expansion.specs.declared.functions.ExpandErr.TheVariants as expand_err;
ghost use Rattle.expansion.specs.declared.limits.TheConstants.{LISTS};

use crate::expansion::Expansion;
use ae_base::{Memory, Seq};
use fn_store::{FnRef, FnStore, TermsErr, expansion_law};
use std::alloc::Global;
use thiserror::Error;

/// Why functions are not expanded.
#[derive(Clone, Copy, Debug, PartialEq, Eq, Drop, Error)]
pub enum ExpandErr {
    /// The running sum of the expansions' terms passes the limit, first at this output. Outputs are counted from 0.
    #[error("too many terms: output {output}, counted from 0")]
    TooManyTerms { output: u32 },
    /// Memory is wanting.
    #[error("want of memory")]
    Memory,
}

impl From<Memory> for ExpandErr {
    ghost from_gives = { λ _ r. r ≡ expand_err.Memory };

    fn from(_: Memory) -> Self {
        ExpandErr::Memory
    }
}

/// The expansions of the functions of a store, at its polarity, one for each reference in order. `TooManyTerms` comes exactly where they
/// have more terms in all than the limit, and carries the first output at which their running sum passes it. No more terms are listed
/// than the limit allows. Where memory runs out, `Memory`.
pub fn expand<S: FnStore>(
    alloc: Global,
    store: &S,
    refs: &[FnRef],
    limit: u64,
) -> Result<Expansion, ExpandErr>
    requires live { All (IsLive (S.functions store.now)) refs.now }
    requires few { length refs.now < LISTS }
    requires limit { limit < 2 ^ 61 }
    ensures lists { IfOk result (λ e. e ≡ expanded (S.functions store.now) refs.now) }
    ensures within { IfOk result (λ e. cost e ≤ limit) }
    ensures too_many { (output : ℕ) → IsErrOf result (expand_err.TooManyTerms output) → PassesAt limit (expanded (S.functions store.now) refs.now).outs output }
{
    expansion_law();
    let polarity = store.polarity();
    let _ = &polarity.n; // opened here, since its invariant is part of the expansion's
    let mut outs = Seq::new(alloc);
    let mut left = limit;
    for r in refs {
        let terms = match store.terms_upto(*r, left) {
            Ok(terms) => terms,
            Err(TermsErr::More) => {
                return Err(ExpandErr::TooManyTerms {
                    output: outs.len() as u32,
                });
            }
            Err(TermsErr::Memory) => return Err(ExpandErr::Memory),
        };
        left -= terms.len() as u64;
        outs.push(Seq::from_vec(terms))?;
    }
    Ok(Expansion { polarity, outs })
}
