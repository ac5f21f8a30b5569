//! Why nothing is synthesised.
ghost use Rattle.std.specs.Prelude.{◌≡◌};
ghost use Rattle.synth_core.specs.Errors.{of_blif, of_expand, of_pla};
ghost use Rattle.synth_core.specs.declared.error.SynthErr.TheVariants as synth_err;

use ae_base::Memory;
use blif_read::{BlifErr, BlifFault};
use expansion::ExpandErr;
use pla_read::{PlaErr, PlaFault};
use thiserror::Error;

/// Why a source is not synthesised.
#[derive(Clone, Copy, Debug, PartialEq, Eq, Drop, Error)]
pub enum SynthErr {
    /// The PLA text has this first fault.
    #[error("line {line}: {what}")]
    Pla { line: u32, what: PlaFault },
    /// The BLIF text has this first fault.
    #[error("line {line}: {what}")]
    Blif { line: u32, what: BlifFault },
    /// The polarity that is handed has another number of inputs than the source.
    #[error("a polarity of {given} inputs for {wanted} inputs")]
    BitCount { given: u32, wanted: u32 },
    /// The running sum of the expansions' terms passes the limit of the form, first at this output. Outputs are counted from 0.
    #[error("too many terms: output {output}, counted from 0")]
    TooManyTerms { output: u32 },
    /// Memory is wanting.
    #[error("want of memory")]
    Memory,
}

impl From<Memory> for SynthErr {
    ghost from_gives = { λ _ r. r ≡ synth_err.Memory };

    fn from(_: Memory) -> Self {
        SynthErr::Memory
    }
}

impl From<PlaErr> for SynthErr {
    ghost from_gives = { λ e r. r ≡ of_pla e };

    fn from(error: PlaErr) -> Self {
        match error {
            PlaErr::At { line, what } => SynthErr::Pla { line, what },
            PlaErr::Memory => SynthErr::Memory,
        }
    }
}

impl From<BlifErr> for SynthErr {
    ghost from_gives = { λ e r. r ≡ of_blif e };

    fn from(error: BlifErr) -> Self {
        match error {
            BlifErr::At { line, what } => SynthErr::Blif { line, what },
            BlifErr::Memory => SynthErr::Memory,
        }
    }
}

impl From<ExpandErr> for SynthErr {
    ghost from_gives = { λ e r. r ≡ of_expand e };

    fn from(error: ExpandErr) -> Self {
        match error {
            ExpandErr::TooManyTerms { output } => SynthErr::TooManyTerms { output },
            ExpandErr::Memory => SynthErr::Memory,
        }
    }
}
