//! Why a netlist and a vector text are no pair.
ghost use Rattle.std.specs.Prelude.{◌≡◌};
ghost use Rattle.grading.specs.PairErrors.{of_net, of_vec};
ghost use Rattle.grading.specs.declared.pair_error.PairErr.TheVariants as pair_err;

use ae_base::Memory;
use blif_read::{BlifErr, BlifFault};
use thiserror::Error;
use vec_text::{VecErr, VecFault};

/// Why a netlist and a vector text are not graded.
#[derive(Clone, Copy, Debug, PartialEq, Eq, Drop, Error)]
pub enum PairErr {
    /// The netlist has this first fault, under the limits of a written one.
    #[error("netlist, line {line}: {what}")]
    Blif { line: u32, what: BlifFault },
    /// The netlist has none, and the vector text has this first fault.
    #[error("vectors, line {line}: {what}")]
    Vector { line: u32, what: VecFault },
    /// Neither has a fault, and their lists of input names or of output names differ.
    #[error("names differ")]
    NamesDiffer,
    /// Memory is wanting.
    #[error("want of memory")]
    Memory,
}

impl From<Memory> for PairErr {
    ghost from_gives = { λ _ r. r ≡ pair_err.Memory };

    fn from(_: Memory) -> Self {
        PairErr::Memory
    }
}

impl From<BlifErr> for PairErr {
    ghost from_gives = { λ e r. r ≡ of_net e };

    fn from(error: BlifErr) -> Self {
        match error {
            BlifErr::At { line, what } => PairErr::Blif { line, what },
            BlifErr::Memory => PairErr::Memory,
        }
    }
}

impl From<VecErr> for PairErr {
    ghost from_gives = { λ e r. r ≡ of_vec e };

    fn from(error: VecErr) -> Self {
        match error {
            VecErr::At { line, what } => PairErr::Vector { line, what },
            VecErr::Memory => PairErr::Memory,
        }
    }
}
