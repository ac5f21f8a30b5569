//! Why a PLA text is refused.

use ae_lex::TextErr;
use std::fmt;

/// What is wrong with a line, or with the whole text.
#[derive(Clone, Copy, Debug, PartialEq, Eq)]
pub enum PlaFault {
    /// A line needs the number of inputs and no earlier line says it, or no line does.
    NoI,
    /// A line needs the number of outputs and no earlier line says it, or no line does.
    NoO,
    /// After `.i` or `.o` stands anything but one number of 1 to 9 digits, at least 1.
    BadNumber,
    /// There are more than `SOURCE_LINES` inputs.
    TooManyInputs,
    /// There are more than `SOURCE_LINES` outputs.
    TooManyOutputs,
    /// There are not as many words as inputs or outputs, or a word is no name of a source.
    BadNames,
    /// Two names are equal.
    NameTwice,
    /// After `.type` stands anything but one of `f`, `fd`, `fr`, `fdr`.
    BadType,
    /// An earlier line has the same header, or a row stands before it.
    Late,
    /// A header that other PLA dialects have.
    Unsupported,
    /// Any other header.
    Unknown,
    /// A character of a row is none of its plane.
    BadChar,
    /// A row has not as many characters as there are inputs and outputs.
    BadWidth,
    /// There are more than `PLA_ROWS` rows.
    TooManyRows,
    /// Two rows of a kind with an OFF-set disagree at an output.
    Clash,
}

impl fmt::Display for PlaFault {
    ghost use Rattle.std.specs.Prelude.{Some};
    ghost use Rattle.pla_read.specs.Faults.{fault_name};

    ghost output = { λ fault. Some (fault_name fault) };

    fn fmt<W: fmt::Write>(&self, f: &mut fmt::Formatter<W>) -> fmt::Result {
        match self {
            PlaFault::NoI => f.write_str("NoI"),
            PlaFault::NoO => f.write_str("NoO"),
            PlaFault::BadNumber => f.write_str("BadNumber"),
            PlaFault::TooManyInputs => f.write_str("TooManyInputs"),
            PlaFault::TooManyOutputs => f.write_str("TooManyOutputs"),
            PlaFault::BadNames => f.write_str("BadNames"),
            PlaFault::NameTwice => f.write_str("NameTwice"),
            PlaFault::BadType => f.write_str("BadType"),
            PlaFault::Late => f.write_str("Late"),
            PlaFault::Unsupported => f.write_str("Unsupported"),
            PlaFault::Unknown => f.write_str("Unknown"),
            PlaFault::BadChar => f.write_str("BadChar"),
            PlaFault::BadWidth => f.write_str("BadWidth"),
            PlaFault::TooManyRows => f.write_str("TooManyRows"),
            PlaFault::Clash => f.write_str("Clash"),
        }
    }
}

impl std::error::Error for PlaFault {}

/// Why `read_pla` gives no cover. A fault of the whole text has the number of the last line that is read: that of `.e` or `.end`, else
/// that of the last line of the text.
pub type PlaErr = TextErr<PlaFault>;
