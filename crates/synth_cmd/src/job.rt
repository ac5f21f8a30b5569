//! What a command makes of the texts that it reads, and the texts that it writes.
ghost use Rattle.std.specs.Prelude.{◌≡◌, ◌≤◌, [], ◌∷◌, List, IfOk, OnOk, length, map};
ghost use Rattle.polarity.specs.Search.{Advised, advised};
ghost use Rattle.synth_core.specs.Made.{texts_of};
ghost use Rattle.synth_core.specs.Searched.{AdvisorsStand};
ghost use Rattle.synth_cmd.specs.Asked.Asked.{Grade};
ghost use Rattle.synth_cmd.specs.Ends.{WasText};
ghost use Rattle.synth_cmd.specs.Outcome.{grading_of, synthesis_of};
ghost use Rattle.synth_cmd.specs.Outside.{CountsAmong, world_of};
ghost use Rattle.synth_cmd.specs.Reading.{names_read};
ghost use Rattle.synth_cmd.specs.Telling.{Gives, GivesSource, WritesTexts, Works};
ghost use Rattle.synth_cmd.specs.Words as spec;
ghost use Rattle.synth_cmd.specs.Words.{HasKind, IsAcceptedDemo, source_of, synth_asked};

use crate::reading::{read_pair, read_text};
use crate::stop::{Stop, Unmade, no_grading, no_synthesis, stop_of};
use crate::words::{FileNames, Origin, PairNames};
use ae_base::TEXT_BYTES;
use ae_outside::{Files, WriteErr, write_whole};
use grading::{GradeReport, Mode, grade};
use polarity::Advisor;
use std::alloc::Global;
use synth_core::{Made, Settings, demo_text, one_answer_law, synthesise};

/// The name that a source is refused by.
fn name_of<'a>(source: &Origin<'a>) -> &'a str
    ensures { result.now ≡ spec.name_of (source_of source.now) }
{
    match source {
        Origin::File(name) => name,
        Origin::Demo(_) => "demo",
    }
}

/// The bytes of a source: those of its file, or the text of the demo.
fn source_text<'a, F: Files>(
    alloc: Global,
    files: &mut F,
    settings: &Settings,
    names: &FileNames<'a>,
) -> Result<Vec<u8>, Unmade<'a>>
    ensures text { GivesSource settings.now (source_of names.now.source) (names_read (synth_asked settings.now names.now)) (F.held files.old) (F.read_faults files.old) (F.read_faults files.new) result }
    ensures short { IfOk result (λ bytes. length bytes.items ≤ TEXT_BYTES) }
    ensures drawn { IfOk result (λ _. IsAcceptedDemo settings.now.form (source_of names.now.source)) }
    ensures stays { F.held files.new ≡ F.held files.old }
    ensures quiet { OnOk result (F.read_faults files.new ≡ F.read_faults files.old) }
    ensures reads { CountsAmong (names_read (synth_asked settings.now names.now)) (F.read_faults files.old) (F.read_faults files.new) }
    ensures writes { F.write_faults files.new ≡ F.write_faults files.old }
{
    match names.source {
        Origin::File(name) => read_text(alloc, files, name),
        Origin::Demo(number) => match demo_text(alloc, number, settings.form) {
            Ok(bytes) => Ok(bytes),
            Err(_) => Err(Unmade::Memory),
        },
    }
}

/// Takes the source's bytes and synthesises them.
fn make<'a, F: Files>(
    alloc: Global,
    files: &mut F,
    settings: &Settings,
    names: &FileNames<'a>,
    advisors: &mut Vec<Box<dyn Advisor>>,
) -> Result<Made, Unmade<'a>>
    requires { HasKind settings.now (source_of names.now.source) }
    ensures gives { Gives (λ made. synthesis_of (texts_of made)) (synth_asked settings.now names.now)
        (world_of F.held F.read_faults F.write_faults files.old (map (λ b. advised (left b) (log b)) advisors.old.items))
        (world_of F.held F.read_faults F.write_faults files.new (map (λ b. advised (left b) (log b)) advisors.new.items))
        result }
    ensures stays { F.held files.new ≡ F.held files.old }
    ensures quiet { OnOk result (F.read_faults files.new ≡ F.read_faults files.old) }
    ensures reads { CountsAmong (names_read (synth_asked settings.now names.now)) (F.read_faults files.old) (F.read_faults files.new) }
    ensures writes { F.write_faults files.new ≡ F.write_faults files.old }
    ensures advisors { AdvisorsStand settings.now (WasText settings.now (F.held files.old) (source_of names.now.source)) (map (λ b. advised (left b) (log b)) advisors.old.items) (map (λ b. advised (left b) (log b)) advisors.new.items) }
{
    one_answer_law();
    let bytes = match source_text(alloc, files, settings, names) {
        Ok(bytes) => bytes,
        Err(unmade) => return Err(unmade),
    };
    match synthesise(alloc, &bytes, settings, advisors) {
        Ok(made) => Ok(made),
        Err(error) => Err(no_synthesis(name_of(&names.source), error)),
    }
}

/// Writes the network's text, and then that of the vectors.
fn write_texts<'a, F: Files>(
    files: &mut F,
    net: &'a str,
    vectors: &'a str,
    made: &Made,
) -> Result<(), Stop<'a>>
    ensures writes { WritesTexts (net.now ∷ vectors.now ∷ []) (made.now.net_text.items ∷ made.now.vec_text.items ∷ []) (F.write_faults files.old) (F.write_faults files.new) (F.held files.old) (F.held files.new) result }
    ensures reads { F.read_faults files.new ≡ F.read_faults files.old }
    ensures quiet { OnOk result (F.write_faults files.new ≡ F.write_faults files.old) }
    ensures counts { CountsAmong (net.now ∷ vectors.now ∷ []) (F.write_faults files.old) (F.write_faults files.new) }
{
    match write_whole(files, net, &made.net_text) {
        Ok(()) => {}
        Err(WriteErr::Fault) => return Err(Stop::WriteFault { file: net }),
        Err(WriteErr::Memory) => return Err(Stop::Memory),
    }
    match write_whole(files, vectors, &made.vec_text) {
        Ok(()) => Ok(()),
        Err(WriteErr::Fault) => Err(Stop::WriteFault { file: vectors }),
        Err(WriteErr::Memory) => Err(Stop::Memory),
    }
}

/// Takes the source's bytes, synthesises, and writes the network and its vectors.
pub fn synthesise_files<'a, F: Files>(
    alloc: Global,
    files: &mut F,
    settings: &Settings,
    names: &FileNames<'a>,
    advisors: &mut Vec<Box<dyn Advisor>>,
) -> Result<Made, Stop<'a>>
    requires { HasKind settings.now (source_of names.now.source) }
    ensures { Works (λ made. synthesis_of (texts_of made)) (synth_asked settings.now names.now)
        (world_of F.held F.read_faults F.write_faults files.old (map (λ b. advised (left b) (log b)) advisors.old.items))
        (world_of F.held F.read_faults F.write_faults files.new (map (λ b. advised (left b) (log b)) advisors.new.items))
        result }
{
    let made = match make(alloc, files, settings, names, advisors) {
        Ok(made) => made,
        Err(unmade) => return Err(stop_of(unmade)),
    };
    match write_texts(files, names.net, names.vectors, &made) {
        Ok(()) => Ok(made),
        Err(stop) => Err(stop),
    }
}

/// Reads a netlist and a vector file, and grades them.
pub fn grade_files<'a, F: Files>(
    alloc: Global,
    files: &mut F,
    mode: Mode,
    names: &PairNames<'a>,
) -> Result<GradeReport, Unmade<'a>>
    ensures gives { (advisors : List Advised) → Gives (grading_of mode) (Grade mode names.now.net.now names.now.vectors.now)
        (world_of F.held F.read_faults F.write_faults files.old advisors) (world_of F.held F.read_faults F.write_faults files.new advisors) result }
    ensures stays { F.held files.new ≡ F.held files.old }
    ensures quiet { OnOk result (F.read_faults files.new ≡ F.read_faults files.old) }
    ensures reads { CountsAmong (names.now.net.now ∷ names.now.vectors.now ∷ []) (F.read_faults files.old) (F.read_faults files.new) }
    ensures writes { F.write_faults files.new ≡ F.write_faults files.old }
{
    let texts = match read_pair(alloc, files, names) {
        Ok(texts) => texts,
        Err(unmade) => return Err(unmade),
    };
    match grade(alloc, mode, &texts.net, &texts.vectors) {
        Ok(report) => Ok(report),
        Err(error) => Err(no_grading(names.net, names.vectors, error)),
    }
}
