//! The advisors of a case, a run with them, and what they were told.

use ae_base::{Mask, Memory, SOURCE_LINES};
use ae_outside::{MemFiles, MemSink};
use polarity::{Advisor, Listed, Negative, Told, Walker};
use std::alloc::Global;
use synth_cmd::run;

/// An advisor as a line of a case names it.
#[derive(Clone, Copy)]
pub enum Brought<'a> {
    /// The one that complements all literals.
    Negative,
    /// The one that walks from a seed through so many polarities.
    Walker { seed: u32, count: u32 },
    /// The one that proposes these words of digits in turn.
    Listed(&'a str),
}

/// The numbers of a walk.
fn walk<'a>(words: &str) -> Option<Brought<'a>> {
    let (seed, count) = words.split_once(' ')?;
    Some(Brought::Walker {
        seed: seed.parse::<u32>().ok()?,
        count: count.parse::<u32>().ok()?,
    })
}

impl<'a> Brought<'a> {
    /// The advisor that the words name, where they name one.
    pub fn of(words: &'a str) -> Option<Brought<'a>> {
        match words.split_once(' ').unwrap_or((words, "")) {
            ("negative", "") => Some(Brought::Negative),
            ("walker", numbers) => walk(numbers),
            ("listed", polarities) => Some(Brought::Listed(polarities)),
            _ => None,
        }
    }
}

/// The set of the inputs whose digit is 1.
fn plain_inputs(digits: &str) -> Mask {
    let digits = digits.as_bytes();
    let mut plain = Mask::empty();
    for j in 0..SOURCE_LINES {
        if digits.get(j as usize) == Some(&b'1') {
            plain = plain.with(j);
        }
    }
    plain
}

/// The sets of the words of digits.
fn masks(alloc: Global, polarities: &str) -> Result<Vec<Mask>, Memory> {
    let mut masks = Vec::new(alloc);
    if polarities.is_empty() {
        return Ok(masks);
    }
    for digits in polarities.split(' ') {
        masks.push(plain_inputs(digits))?;
    }
    Ok(masks)
}

/// An advisor of a case, which each run has anew.
#[derive(Drop)]
pub enum Companion {
    Negative,
    Walker { seed: u32, count: u32 },
    Listed(Vec<Mask>),
}

/// The advisor that is brought.
pub fn bring(alloc: Global, brought: Brought<'_>) -> Result<Companion, Memory> {
    match brought {
        Brought::Negative => Ok(Companion::Negative),
        Brought::Walker { seed, count } => Ok(Companion::Walker { seed, count }),
        Brought::Listed(polarities) => Ok(Companion::Listed(masks(alloc, polarities)?)),
    }
}

/// Adds what an advisor was told of one proposal.
fn push_cost(text: &mut String, told: Told) -> Result<(), Memory> {
    match told {
        Told::Untold => text.push_str(" untold")?,
        Told::Over => text.push_str(" over")?,
        Told::Cost(terms) => write!(text, " {terms}")?,
    }
    Ok(())
}

/// Adds the line of an advisor.
fn push_advisor(text: &mut String, advisor: &Box<dyn Advisor>) -> Result<(), Memory> {
    let left = advisor.left();
    write!(text, "{left}")?;
    for entry in advisor.log() {
        push_cost(text, entry.cost)?;
    }
    text.push('\n')?;
    Ok(())
}

/// A line for each advisor: how many proposals are left, and what it was told of those that were made.
fn told(alloc: Global, advisors: &[Box<dyn Advisor>]) -> Result<String, Memory> {
    let mut text = String::new(alloc);
    for advisor in advisors {
        push_advisor(&mut text, advisor)?;
    }
    Ok(text)
}

/// How a run ended.
#[derive(Drop)]
pub struct Ended {
    pub status: u8,
    /// What was told of the advisors before the run.
    pub before: String,
    /// What is told of them after it.
    pub told: String,
}

/// Carries out words with these advisors.
pub fn run_advised(
    alloc: Global,
    words: &[String],
    files: &mut MemFiles,
    report: &mut MemSink,
    companions: &[Companion],
) -> Result<Ended, Memory> {
    let mut advisors: Vec<Box<dyn Advisor>> = Vec::new(alloc);
    for companion in companions {
        match companion {
            Companion::Negative => advisors.push(Box::new(alloc, Negative::new(alloc))?)?,
            Companion::Walker { seed, count } => {
                advisors.push(Box::new(alloc, Walker::new(alloc, *seed, *count))?)?;
            }
            Companion::Listed(masks) => {
                let masks = masks.to_vec(alloc)?;
                advisors.push(Box::new(alloc, Listed::new(alloc, masks))?)?;
            }
        }
    }
    let before = told(alloc, &advisors)?;
    let status = run(alloc, words, files, report, &mut advisors);
    Ok(Ended {
        status,
        before,
        told: told(alloc, &advisors)?,
    })
}
