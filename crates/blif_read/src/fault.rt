//! Why a BLIF text is refused.

ghost use Rattle.std.specs.Prelude.{◌≡◌};
ghost use Rattle.blif_read.specs.Says as says;

use ae_base::GATES;
use ae_lex::TextErr;
use std::fmt;

/// The most `.names` of a don't care part: its network has a gate besides for each output that they don't drive.
pub const PART_GATES: u32 = 131_072;

/// The most `.names` of a model or of a don't care part.
pub fn most_gates(in_part: bool) -> u32
    ensures { result ≡ says.most_gates in_part }
{
    if in_part { PART_GATES } else { GATES }
}

/// Which limits a text is to keep.
#[derive(Clone, Copy, Debug, PartialEq, Eq)]
pub enum NetLimits {
    /// Those of a source: `SOURCE_LINES` inputs and outputs, names of `SOURCE_NAME_BYTES` bytes.
    Source,
    /// Those of a written netlist: `WRITTEN_LINES` inputs and outputs, names of `NAME_BYTES` bytes.
    Written,
}

/// What is wrong with a line, or with the whole text.
#[derive(Clone, Copy, Debug, PartialEq, Eq)]
pub enum BlifFault {
    /// A second `.model`, or one after `.end` or `.exdc`.
    TwoModels,
    /// A line with words after `.end`, other than `.model` and `.end`.
    AfterEnd,
    /// A statement of the format that is not read, as `.latch`.
    Unsupported,
    /// A statement that the format has not.
    Unknown,
    /// A word that is no name under the limits, `.names` without words, or `.model` with more than one.
    BadName,
    /// A row with another number of characters than its cover has pins and an output, or with a wrong character.
    BadRow,
    /// A row whose last character is not that of the first row of its cover.
    MixedRows,
    /// A row that follows no `.names`.
    StrayRow,
    /// A signal that is declared as input or driven, and driven once more.
    DefinedTwice,
    /// A pin or an output that is no input and no gate.
    Undefined,
    /// Gates that wait for each other.
    Cycle,
    /// A name that stands twice among the inputs, or among the outputs.
    NameTwice,
    /// A name that is both input and output.
    OutputIsInput,
    /// No input is declared.
    NoInputs,
    /// No output is declared.
    NoOutputs,
    /// The first input past the limit.
    TooManyInputs,
    /// The first output past the limit.
    TooManyOutputs,
    /// A `.names` with more than `PINS` pins.
    TooManyPins,
    /// The first `.names` past `GATES`, or in a don't care part past `PART_GATES`.
    TooManyGates,
    /// A second `.exdc`.
    ExdcTwice,
    /// A name in the don't care part that the model does not declare.
    ExdcName,
}

impl fmt::Display for BlifFault {
    ghost use Rattle.std.specs.Prelude.{Some};
    ghost use Rattle.blif_read.specs.Names.{fault_name};

    ghost output = { λ fault. Some (fault_name fault) };

    /// The name of the fault.
    fn fmt<W: fmt::Write>(&self, f: &mut fmt::Formatter<W>) -> fmt::Result {
        match self {
            BlifFault::TwoModels => f.write_str("TwoModels"),
            BlifFault::AfterEnd => f.write_str("AfterEnd"),
            BlifFault::Unsupported => f.write_str("Unsupported"),
            BlifFault::Unknown => f.write_str("Unknown"),
            BlifFault::BadName => f.write_str("BadName"),
            BlifFault::BadRow => f.write_str("BadRow"),
            BlifFault::MixedRows => f.write_str("MixedRows"),
            BlifFault::StrayRow => f.write_str("StrayRow"),
            BlifFault::DefinedTwice => f.write_str("DefinedTwice"),
            BlifFault::Undefined => f.write_str("Undefined"),
            BlifFault::Cycle => f.write_str("Cycle"),
            BlifFault::NameTwice => f.write_str("NameTwice"),
            BlifFault::OutputIsInput => f.write_str("OutputIsInput"),
            BlifFault::NoInputs => f.write_str("NoInputs"),
            BlifFault::NoOutputs => f.write_str("NoOutputs"),
            BlifFault::TooManyInputs => f.write_str("TooManyInputs"),
            BlifFault::TooManyOutputs => f.write_str("TooManyOutputs"),
            BlifFault::TooManyPins => f.write_str("TooManyPins"),
            BlifFault::TooManyGates => f.write_str("TooManyGates"),
            BlifFault::ExdcTwice => f.write_str("ExdcTwice"),
            BlifFault::ExdcName => f.write_str("ExdcName"),
        }
    }
}

impl std::error::Error for BlifFault {}

/// Why a text gives no network. A fault of the whole text has the number of its last line, or that of the line that it names.
pub type BlifErr = TextErr<BlifFault>;
