//! The program `andexor`: a proved design-for-test synthesiser.
#![tactic(auto)]

ghost use Rattle.std.specs.Prelude.{◌≡◌};

#[cfg(test)]
mod tests;

use ae_outside::{HostFiles, HostSink, put_all};
use polarity::{Advisor, Negative, Walker};
use std::alloc::{AllocError, Global};
use std::process::ExitCode;
use std::{env, io};
use synth_cmd::{MEMORY, run};

/// The words without the program's name.
fn words_of(alloc: Global, args: env::Args) -> Result<Vec<String>, AllocError> {
    let mut words = Vec::new(alloc);
    for word in args.skip(1) {
        words.push(word)?;
    }
    Ok(words)
}

/// Tells that memory is wanting before any work is begun.
fn tell_memory(rt: HostRuntime) -> u8
    ensures { result ≡ MEMORY }
{
    if let Ok(mut report) = HostSink::new(rt.alloc(), rt) {
        let _ = put_all(&mut report, b"want of memory\n");
    }
    MEMORY
}

/// The seed of the walk through polarities.
const SEED: u32 = 1;

/// How many polarities the walk proposes.
const PROPOSALS: u32 = 16;

/// Does what the words ask for, over the host's files and its standard output, with the program's own advisors: all literals complemented,
/// and a walk.
fn run_advised(
    alloc: Global,
    words: &[String],
    files: &mut HostFiles<HostRuntime>,
    report: &mut HostSink<HostRuntime>,
) -> Result<u8, AllocError> {
    let mut advisors: Vec<Box<dyn Advisor>> = Vec::new(alloc);
    advisors.push(Box::new(alloc, Negative::new(alloc))?)?;
    advisors.push(Box::new(alloc, Walker::new(alloc, SEED, PROPOSALS))?)?;
    Ok(run(alloc, words, files, report, &mut advisors))
}

/// Does what the words ask for. Where memory is wanting before, that is told.
fn run_words(rt: HostRuntime, words: &[String]) -> u8 {
    let alloc = rt.alloc();
    let Ok(mut files) = HostFiles::new(alloc, rt) else {
        return tell_memory(rt);
    };
    let Ok(mut report) = HostSink::new(alloc, rt) else {
        return tell_memory(rt);
    };
    match run_advised(alloc, words, &mut files, &mut report) {
        Ok(status) => status,
        Err(_) => tell_memory(rt),
    }
}

/// What stands for words that cannot be had: want of memory, or, where a word is no text, no words, which ask for no command.
fn run_without_words(rt: HostRuntime, error: &io::Error) -> u8 {
    if error.kind() == io::ErrorKind::OutOfMemory {
        tell_memory(rt)
    } else {
        run_words(rt, &[])
    }
}

/// The whole program, and its status.
fn program(rt: HostRuntime) -> u8 {
    match env::args(&rt) {
        Ok(args) => match words_of(rt.alloc(), args) {
            Ok(words) => run_words(rt, &words),
            Err(_) => tell_memory(rt),
        },
        Err(error) => run_without_words(rt, &error),
    }
}

fn main(rt: HostRuntime) -> ExitCode {
    ExitCode::from(program(rt))
}
