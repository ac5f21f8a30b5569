//! The top call, and a function for each command.
ghost use Rattle.std.specs.Prelude.{◌≡◌, ◌≢◌, ◌≤◌, List, [], ◌∷◌, map};
ghost use Rattle.polarity.specs.Search.{Advised, advised};
ghost use Rattle.synth_core.specs.Made.{texts_of};
ghost use Rattle.synth_cmd.specs.Asked.{asked};
ghost use Rattle.synth_cmd.specs.Asked.Asked.{Grade};
ghost use Rattle.synth_cmd.specs.Ends.{Ends};
ghost use Rattle.synth_cmd.specs.Headline.{HasHeadline};
ghost use Rattle.synth_cmd.specs.Outside.{outside, world_of};
ghost use Rattle.synth_cmd.specs.Telling.{Closes};
ghost use Rattle.synth_cmd.specs.Words.{HasKind, IsFit, command_of, source_of, synth_asked};

use crate::DONE;
use crate::job::{grade_files, synthesise_files};
use crate::stop::{Refusal, stop_of};
use crate::tell::{finish, finish_grade, refuse, tell_stop, want_memory};
use crate::words::{Command, FileNames, PairNames, read_command};
use ae_base::Memory;
use ae_outside::{Files, Sink, file_laws};
use grading::{Mode, grade_law};
use polarity::Advisor;
use std::alloc::Global;
use synth_core::{Settings, one_answer_law};

/// `synth IN NET VEC` and `demo NUMBER NET VEC`.
fn synth_command<F: Files, K: Sink>(
    alloc: Global,
    files: &mut F,
    report: &mut K,
    settings: &Settings,
    names: &FileNames<'_>,
    advisors: &mut Vec<Box<dyn Advisor>>,
) -> u8
    requires { HasKind settings.now (source_of names.now.source) }
    ensures { Closes (synth_asked settings.now names.now)
        (outside (world_of F.held F.read_faults F.write_faults files.old (map (λ b. advised (left b) (log b)) advisors.old.items)) (K.taken report.old) (K.faults report.old))
        (outside (world_of F.held F.read_faults F.write_faults files.new (map (λ b. advised (left b) (log b)) advisors.new.items)) (K.taken report.new) (K.faults report.new))
        result }
{
    match synthesise_files(alloc, files, settings, names, advisors) {
        Ok(made) => finish(alloc, report, made.summary),
        Err(stop) => tell_stop(alloc, report, stop),
    }
}

/// `grade NET VEC` and `check NET VEC`. No advisor is asked: what they are stays.
fn grade_command<F: Files, K: Sink>(
    alloc: Global,
    files: &mut F,
    report: &mut K,
    mode: Mode,
    names: &PairNames<'_>,
) -> u8
    ensures { (advisors : List Advised) → Closes (Grade mode names.now.net.now names.now.vectors.now)
        (outside (world_of F.held F.read_faults F.write_faults files.old advisors) (K.taken report.old) (K.faults report.old))
        (outside (world_of F.held F.read_faults F.write_faults files.new advisors) (K.taken report.new) (K.faults report.new))
        result }
{
    match grade_files(alloc, files, mode, names) {
        Ok(found) => finish_grade(alloc, report, mode, &found),
        Err(unmade) => tell_stop(alloc, report, stop_of(unmade)),
    }
}

/// Does what a command asks for.
fn obey<F: Files, K: Sink>(
    alloc: Global,
    command: &Command<'_>,
    files: &mut F,
    report: &mut K,
    advisors: &mut Vec<Box<dyn Advisor>>,
) -> u8
    requires { IsFit (command_of command.now) }
    ensures { Closes (command_of command.now)
        (outside (world_of F.held F.read_faults F.write_faults files.old (map (λ b. advised (left b) (log b)) advisors.old.items)) (K.taken report.old) (K.faults report.old))
        (outside (world_of F.held F.read_faults F.write_faults files.new (map (λ b. advised (left b) (log b)) advisors.new.items)) (K.taken report.new) (K.faults report.new))
        result }
{
    match command {
        Command::Refused => refuse(alloc, report, Refusal::Words),
        Command::Synth { settings, names } => {
            synth_command(alloc, files, report, settings, names, advisors)
        }
        Command::Grade { mode, names } => grade_command(alloc, files, report, *mode, names),
    }
}

/// Does what the words ask for, the program's own name left out, and answers the status.
///
/// `synth IN NET VEC` reads the file IN, and writes the network that implements it to NET and its vectors with their responses to VEC. The
/// advisors are asked for `--polarity search` alone, and stay in the list. `demo NUMBER NET VEC` does the same with the text that is drawn
/// from the number. `grade NET VEC` reads both, and tells which responses are wrong and which stuck-at faults the vectors miss; `check NET
/// VEC` also which of those the vector file proves undetectable. Options stand anywhere before a `--`.
pub fn run<F: Files, K: Sink>(
    alloc: Global,
    words: &[String],
    files: &mut F,
    report: &mut K,
    advisors: &mut Vec<Box<dyn Advisor>>,
) -> u8
    // The written network, its vectors, and what they detect; of a check that the pair is sound.
    ensures headline { result ≡ DONE → HasHeadline (asked words.now) (F.held files.old) (F.held files.new) }
    // What stands after each status, and when it comes.
    ensures ends { Ends (asked words.now)
        (outside (world_of F.held F.read_faults F.write_faults files.old (map (λ b. advised (left b) (log b)) advisors.old.items)) (K.taken report.old) (K.faults report.old))
        (outside (world_of F.held F.read_faults F.write_faults files.new (map (λ b. advised (left b) (log b)) advisors.new.items)) (K.taken report.new) (K.faults report.new))
        result }
{
    file_laws();
    one_answer_law();
    grade_law();
    match read_command(alloc, words) {
        Ok(command) => obey(alloc, &command, files, report, advisors),
        Err(Memory) => want_memory(report),
    }
}
