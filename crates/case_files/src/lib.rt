//! Carries out the cases of files over `run`, and tells which of them end otherwise than they say.
//!
//! The words of a program that does so are names of case files. A case says what stands before, the words of a run, and what is wanted of it:
//!
//! ```text
//! # Names keep their order.
//! case inputs in another order
//! file n.blif
//! |.model m
//! |.inputs a b
//! |.outputs f
//! |.names a b f
//! |11 1
//! file v.vec
//! |andexor-vectors 1
//! |form factored
//! |inputs b a
//! |outputs f
//! |polarity 11
//! |end
//! run grade n.blif v.vec
//! status 5
//! report
//! |refused: v.vec: names differ
//! ```
//!
//! A blank line and one that begins with `#` say nothing. The others are
//!
//! | Line | What it says |
//! |---|---|
//! | `case NAME` | A case begins: no file is there, no call fails, and there is no advisor. |
//! | `file NAME` | The file is there. Its text follows. |
//! | `fail_read K`, `fail_create K`, `fail_append K` | The K-th such call of the files fails, counted from 1. |
//! | `fail_write K` | The K-th write of the next run's report fails. |
//! | `piece K` | An append takes at most K bytes. |
//! | `advisor negative`, `advisor walker SEED COUNT`, `advisor listed BITS ..` | There is one advisor more, which each run has anew: the one that complements all literals, the walk, or one that proposes these polarities. |
//! | `run WORDS` | The words are carried out. They are parted by single blanks, and `""` is the empty word. |
//! | `status N` | The status that is wanted. |
//! | `report` | The text of the report follows. `report any`: it is not looked at. |
//! | `told` | A text follows, of a line for each advisor: how many proposals are left, and for each that was made the number of terms that it was told, or `over`. |
//! | `holds NAME` | The file holds the text that follows. |
//! | `any` | No file is looked at. |
//! | `as WORDS` | Report and files are as these words, without advisors, make them of the same files. They end with the status that is said before. |
//! | `define NAME` | The lines up to the next `define` or `case` have this name from here on in the file. |
//! | `@NAME` | The lines of that name stand here. |
//!
//! Each run must say its status and its report. A file of the case or of a name among the run's words that no `holds` speaks of is to be
//! as before the run, and the advisors, where no `told` does. A further `run` finds the files as they were left.
//!
//! A text is made of lines
//!
//! | Line | What it adds |
//! |---|---|
//! | `|LINE` | the line and its end |
//! | `+LINE` | the line without an end |
//! | `bytes N ..` | the bytes of these numbers |
//! | `count FROM TO LINE` | a line of a text, or those of `@NAME`, once for each number from FROM to TO. `%` stands for the number, with zeros in front where FROM has more digits. |
//!
//! For each difference a line is printed, and at the end the numbers of cases, of runs, and of cases that differ. A line that is not
//! understood counts as a case that differs.
#![tactic(auto)]

mod advisors;
mod case;
mod compare;
mod line;
mod numbers;
mod script;
mod text;
mod wanted;

use crate::numbers::Numbers;
use crate::script::carry_out;
use anyhow::{Result, ensure};
use std::{env, fs};

/// Carries out the cases of a file, and prints a line for each difference.
fn carry_out_file(rt: HostRuntime, file: &str) -> Result<Numbers> {
    let text = fs::read_to_string(&rt, file)?;
    let outcome = carry_out(rt.alloc(), file, &text)?;
    print!(rt; "{}", outcome.differences)?;
    Ok(outcome.numbers)
}

/// Carries out the cases of the files of these names.
fn carry_out_all(rt: HostRuntime, names: env::Args) -> Result<Numbers> {
    let mut numbers = Numbers::NONE;
    for file in names.skip(1) {
        numbers = numbers.with(carry_out_file(rt, &file)?);
    }
    Ok(numbers)
}

/// Carries out the cases of the files that the program's words name, and prints a line for each difference and then the numbers of cases, of
/// runs, and of cases that differ. It answers an error where a case differs, a file is not read, the host does not take what is printed, or
/// memory is wanting.
pub fn carry_out_files(rt: HostRuntime) -> Result<()> {
    let numbers = carry_out_all(rt, env::args(&rt)?)?;
    println!(rt;
        "cases {}, runs {}, differing {}",
        numbers.cases, numbers.runs, numbers.differing
    )?;
    ensure!(numbers.differing == 0, "some cases differ");
    Ok(())
}
