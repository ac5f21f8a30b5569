//! The lines of a case, without those of texts.

use crate::advisors::Brought;
use std::num::NonZeroU64;

/// A call that can be made to fail.
#[derive(Clone, Copy)]
pub enum Call {
    Read,
    Create,
    Append,
    /// A write of the report.
    Write,
}

/// What stands before a run.
#[derive(Clone, Copy)]
pub enum Before<'a> {
    /// A file of this name is there. Its text follows.
    File(&'a str),
    /// The call of this number fails, counted from 1.
    Fails(Call, u64),
    /// Files take at most so many bytes at once.
    Piece(NonZeroU64),
    /// There is one advisor more.
    Advisor(Brought<'a>),
}

/// What is wanted of a run.
#[derive(Clone, Copy)]
pub enum Want<'a> {
    Status(u8),
    /// The text of the report follows.
    Report,
    AnyReport,
    /// What the advisors are told follows.
    Told,
    /// The file of this name holds the text that follows.
    Holds(&'a str),
    AnyFile,
    /// The report and the files are as these words make them.
    As(&'a str),
}

/// A line of a case.
#[derive(Clone, Copy)]
pub enum Line<'a> {
    Before(Before<'a>),
    /// The words are carried out.
    Run(&'a str),
    Want(Want<'a>),
}

/// The call of a word.
fn call_of(word: &str) -> Option<Call> {
    match word {
        "fail_read" => Some(Call::Read),
        "fail_create" => Some(Call::Create),
        "fail_append" => Some(Call::Append),
        "fail_write" => Some(Call::Write),
        _ => None,
    }
}

fn before_of<'a>(word: &str, rest: &'a str) -> Option<Before<'a>> {
    match word {
        "file" => Some(Before::File(rest)),
        "advisor" => Some(Before::Advisor(Brought::of(rest)?)),
        "piece" => Some(Before::Piece(rest.parse::<NonZeroU64>().ok()?)),
        _ => Some(Before::Fails(call_of(word)?, rest.parse::<u64>().ok()?)),
    }
}

fn want_of<'a>(word: &str, rest: &'a str) -> Option<Want<'a>> {
    match (word, rest) {
        ("report", "") => Some(Want::Report),
        ("report", "any") => Some(Want::AnyReport),
        ("told", "") => Some(Want::Told),
        ("any", "") => Some(Want::AnyFile),
        ("status", _) => Some(Want::Status(rest.parse::<u8>().ok()?)),
        ("holds", _) => Some(Want::Holds(rest)),
        ("as", _) => Some(Want::As(rest)),
        _ => None,
    }
}

impl<'a> Line<'a> {
    /// The line that a text is, where it is one.
    pub fn of(text: &'a str) -> Option<Line<'a>> {
        let (word, rest) = text.split_once(' ').unwrap_or((text, ""));
        if word == "run" {
            return Some(Line::Run(rest));
        }
        match want_of(word, rest) {
            Some(want) => Some(Line::Want(want)),
            None => Some(Line::Before(before_of(word, rest)?)),
        }
    }
}
