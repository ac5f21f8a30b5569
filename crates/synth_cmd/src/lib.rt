//! The command line over any files and any sink: a source read, its network and vectors written, and a report.
#![tactic(auto)]

mod command_line;
mod grade_report;
mod job;
mod laws;
mod lines;
mod reading;
mod report;
mod stop;
mod tell;
mod top;
mod words;

pub use laws::{one_end_law, status_law};
pub use top::run;

/// The command is done: all texts are written, and the report.
pub const DONE: u8 = 0;

/// The report of a pair is written, and it has a shortfall: some response is wrong, or some fault is missed.
pub const SHORTFALL: u8 = 1;

/// The words ask for no command.
pub const WORDS: u8 = 2;

/// A read of a file failed.
pub const READ_FAULT: u8 = 3;

/// A write of a text or of the report failed.
pub const WRITE_FAULT: u8 = 4;

/// A text has a fault, or the names of a pair differ.
pub const REFUSED: u8 = 5;

/// A file is longer than a text may be.
pub const TOO_LONG: u8 = 6;

/// The source's expansions have too many terms.
pub const TOO_MANY_TERMS: u8 = 7;

/// Memory is wanting.
pub const MEMORY: u8 = 8;
