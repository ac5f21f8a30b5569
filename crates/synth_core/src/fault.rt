//! The faults of a text that is read.

use blif_read::BlifFault;
use pla_read::PlaFault;
use std::fmt;

/// What is wrong with a text, whichever reader found it.
#[derive(Clone, Copy, Debug, PartialEq, Eq)]
pub enum TextFault {
    /// A fault of a PLA text.
    Pla(PlaFault),
    /// A fault of a BLIF text.
    Blif(BlifFault),
}

impl fmt::Display for TextFault {
    ghost use Rattle.std.specs.Prelude.{Some};
    ghost use Rattle.synth_core.specs.Says.{text_fault_name};

    ghost output = { λ fault. Some (text_fault_name fault) };

    fn fmt<W: fmt::Write>(&self, f: &mut fmt::Formatter<W>) -> fmt::Result {
        match self {
            TextFault::Pla(fault) => fault.fmt(f),
            TextFault::Blif(fault) => fault.fmt(f),
        }
    }
}
