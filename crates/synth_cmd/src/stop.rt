//! Why a command stops.
ghost use Rattle.std.specs.Prelude.{◌≡◌};
ghost use Rattle.synth_cmd.specs.declared.stop.Fault.TheVariants as fault;
ghost use Rattle.synth_cmd.specs.declared.stop.Refusal.TheVariants as refusal;
ghost use Rattle.synth_cmd.specs.Stops.{of_pair, of_synth, of_unmade};

use grading::PairErr;
use synth_core::{SynthErr, TextFault};
use vec_text::VecFault;

/// What is wrong with a text that a command reads.
#[derive(Clone, Copy)]
pub enum Fault {
    /// A fault of a source, or of a netlist.
    Source(TextFault),
    /// A fault of a vector file.
    Vectors(VecFault),
}

/// What was refused, and why.
#[derive(Clone, Copy)]
pub enum Refusal<'a> {
    /// The words ask for nothing.
    Words,
    /// A read of the file failed.
    ReadFault {
        file: &'a str,
    },
    /// The file has more bytes than a text may have.
    TooLong {
        file: &'a str,
    },
    /// The text of the file has this first fault.
    Text {
        file: &'a str,
        line: u32,
        what: Fault,
    },
    /// The names of the vector file are not those of the netlist.
    NamesDiffer {
        file: &'a str,
    },
    /// The polarity that is handed has another number of inputs.
    BitCount {
        given: u32,
        wanted: u32,
    },
    /// The expansions have too many terms, first at this output.
    TooManyTerms {
        output: u32,
    },
}

/// Why nothing is made.
#[derive(Clone, Copy)]
pub enum Unmade<'a> {
    Refused(Refusal<'a>),
    Memory,
}

/// Why a command stops before its report.
#[derive(Clone, Copy)]
pub enum Stop<'a> {
    Refused(Refusal<'a>),
    /// A write of the file failed.
    WriteFault { file: &'a str },
    Memory,
}

/// A command stops where nothing is made.
pub fn stop_of(unmade: Unmade<'_>) -> Stop<'_>
    ensures { result ≡ of_unmade unmade.entry }
{
    match unmade {
        Unmade::Refused(refusal) => Stop::Refused(refusal),
        Unmade::Memory => Stop::Memory,
    }
}

fn source_fault(file: &str, line: u32, what: TextFault) -> Refusal<'_>
    ensures { result ≡ refusal.Text file.entry line (fault.Source what) }
{
    Refusal::Text {
        file,
        line,
        what: Fault::Source(what),
    }
}

/// Why a source of this name gives no network.
pub fn no_synthesis(file: &str, error: SynthErr) -> Unmade<'_>
    ensures { result ≡ of_synth (λ line what. refusal.Text file.entry line (fault.Source what)) error }
{
    match error {
        SynthErr::Pla { line, what } => {
            Unmade::Refused(source_fault(file, line, TextFault::Pla(what)))
        }
        SynthErr::Blif { line, what } => {
            Unmade::Refused(source_fault(file, line, TextFault::Blif(what)))
        }
        SynthErr::BitCount { given, wanted } => {
            Unmade::Refused(Refusal::BitCount { given, wanted })
        }
        SynthErr::TooManyTerms { output } => Unmade::Refused(Refusal::TooManyTerms { output }),
        SynthErr::Memory => Unmade::Memory,
    }
}

/// Why a netlist and a vector file of these names give no report.
pub fn no_grading<'a>(net: &'a str, vectors: &'a str, error: PairErr) -> Unmade<'a>
    ensures { result ≡ of_pair (λ line what. refusal.Text net.entry line what) (λ line what. refusal.Text vectors.entry line what) (refusal.NamesDiffer vectors.entry) error }
{
    match error {
        PairErr::Blif { line, what } => {
            Unmade::Refused(source_fault(net, line, TextFault::Blif(what)))
        }
        PairErr::Vector { line, what } => Unmade::Refused(Refusal::Text {
            file: vectors,
            line,
            what: Fault::Vectors(what),
        }),
        PairErr::NamesDiffer => Unmade::Refused(Refusal::NamesDiffer { file: vectors }),
        PairErr::Memory => Unmade::Memory,
    }
}
