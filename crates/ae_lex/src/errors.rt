//! Why a reader does not read a line, or a text.
ghost use Rattle.std.specs.Prelude.{◌≡◌};
ghost use Rattle.ae_lex.specs.declared.errors.LineErr.TheVariants as line_errors;
ghost use Rattle.ae_lex.specs.declared.errors.TextErr.TheVariants as text_errors;

use ae_base::Memory;
use std::alloc::{AllocError, AllocFailed};
use std::fmt::Display;
use thiserror::Error;

/// The first fault of a line, or want of memory.
#[derive(Clone, Copy, Debug, PartialEq, Eq, Drop)]
pub enum LineErr<F> {
    Fault(F),
    Memory,
}

impl<F> From<Memory> for LineErr<F> {
    ghost from_gives = { λ _ e. e ≡ line_errors.Memory };

    fn from(_: Memory) -> Self {
        LineErr::Memory
    }
}

impl<F> From<AllocError> for LineErr<F> {
    ghost from_gives = { λ _ e. e ≡ line_errors.Memory };

    fn from(_: AllocError) -> Self {
        LineErr::Memory
    }
}

impl<T: Drop, F> From<AllocFailed<T>> for LineErr<F> {
    ghost from_gives = { λ _ e. e ≡ line_errors.Memory };

    fn from(_: AllocFailed<T>) -> Self {
        LineErr::Memory
    }
}

/// Why a text is not read.
#[derive(Clone, Copy, Debug, PartialEq, Eq, Drop, Error)]
pub enum TextErr<F: Display> {
    /// The first fault, with the number of its line from 1 on. A fault of the whole text has the number of its last line, 0 where there
    /// is none.
    #[error("line {line}: {what}")]
    At { line: u32, what: F },
    /// Memory is wanting.
    #[error("want of memory")]
    Memory,
}

impl<F: Display> From<Memory> for TextErr<F> {
    ghost from_gives = { λ _ e. e ≡ text_errors.Memory };

    fn from(_: Memory) -> Self {
        TextErr::Memory
    }
}
