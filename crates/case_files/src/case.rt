//! A case: what stands before its runs, the runs, and what is wanted of each.

use crate::advisors::{Companion, Ended, bring, run_advised};
use crate::compare::{compare, compare_status};
use crate::line::{Before, Call, Line, Want};
use crate::text::{Count, push_line};
use crate::wanted::Wanted;
use ae_base::Memory;
use ae_outside::{MemFiles, MemSink};
use std::alloc::Global;
use std::mem;

/// What a text is of.
#[derive(Drop)]
enum Place {
    Nothing,
    FileBefore(String),
    FileAfter(String),
    Report,
    Told,
}

impl Place {
    fn is_text(&self) -> bool {
        !matches!(self, Place::Nothing)
    }
}

/// A case that is carried out line by line.
#[derive(Drop)]
pub struct Case {
    alloc: Global,
    name: String,
    files: MemFiles,
    report: MemSink,
    companions: Vec<Companion>,
    /// The text that is not at its end.
    place: Place,
    text: Vec<u8>,
    /// The end of the last run, where it is not compared yet.
    ended: Option<Ended>,
    wanted: Wanted,
    runs: u64,
    /// A line for each difference.
    differences: String,
}

/// The words that are parted by single blanks. `""` stands for the empty word.
fn words_of(alloc: Global, text: &str) -> Result<Vec<String>, Memory> {
    let mut words = Vec::new(alloc);
    if text.is_empty() {
        return Ok(words);
    }
    for word in text.split(' ') {
        let word = if word == "\"\"" { "" } else { word };
        words.push(String::from_str(alloc, word)?)?;
    }
    Ok(words)
}

impl Case {
    /// The case of this name, before its first line.
    pub fn new(alloc: Global, name: String) -> Case {
        Case {
            alloc,
            name,
            files: MemFiles::new(alloc),
            report: MemSink::new(alloc),
            companions: Vec::new(alloc),
            place: Place::Nothing,
            text: Vec::new(alloc),
            ended: None,
            wanted: Wanted::new(alloc),
            runs: 0,
            differences: String::new(alloc),
        }
    }

    /// Puts the text that is at its end where it belongs.
    fn end_text(&mut self) -> Result<(), Memory> {
        let text = mem::replace(&mut self.text, Vec::new(self.alloc));
        match mem::replace(&mut self.place, Place::Nothing) {
            Place::Nothing => {}
            Place::FileBefore(name) => {
                self.files.put(&name, &text)?;
                self.wanted.hold(name, &text)?;
            }
            Place::FileAfter(name) => self.wanted.hold(name, &text)?,
            Place::Report => self.wanted.report = Some(text),
            Place::Told => self.wanted.told = Some(text),
        }
        Ok(())
    }

    /// Compares a status with the one that is wanted.
    fn compare_status(&mut self, came: u8) -> Result<(), Memory> {
        compare_status(&mut self.differences, &self.name, self.wanted.status, came)
    }

    /// Compares the report with the one that is wanted.
    fn compare_report(&mut self) -> Result<(), Memory> {
        if self.wanted.any_report {
            return Ok(());
        }
        let wanted = self.wanted.report.as_deref();
        let came = Some(self.report.bytes());
        compare(&mut self.differences, &self.name, "report", wanted, came)
    }

    /// Compares what the advisors were told with what is wanted: where nothing is said of it, that they are as before the run.
    fn compare_told(&mut self, ended: &Ended) -> Result<(), Memory> {
        let wanted = match &self.wanted.told {
            Some(told) => told.as_slice(),
            None => ended.before.as_bytes(),
        };
        let came = Some(ended.told.as_bytes());
        compare(
            &mut self.differences,
            &self.name,
            "told",
            Some(wanted),
            came,
        )
    }

    /// Compares the files with those that are wanted.
    fn compare_files(&mut self) -> Result<(), Memory> {
        for name in &self.wanted.names {
            let wanted = self.wanted.files.held(name);
            let came = self.files.held(name);
            compare(&mut self.differences, &self.name, name, wanted, came)?;
        }
        Ok(())
    }

    /// Takes the files over as they are.
    fn take_files(&mut self) -> Result<(), Memory> {
        for name in &self.wanted.names {
            if let Some(bytes) = self.files.held(name) {
                self.wanted.files.put(name, bytes)?;
            }
        }
        Ok(())
    }

    /// Compares the end of the last run, where it is not compared yet, with what is wanted of it.
    fn end_run(&mut self) -> Result<(), Memory> {
        let Some(ended) = self.ended.take() else {
            return Ok(());
        };
        self.compare_status(ended.status)?;
        self.compare_told(&ended)?;
        self.compare_report()?;
        if self.wanted.any_file {
            self.take_files()?;
        } else {
            self.compare_files()?;
        }
        self.report = MemSink::new(self.alloc);
        self.wanted.renew();
        Ok(())
    }

    /// Carries out words.
    fn run(&mut self, words: &str) -> Result<(), Memory> {
        let words = words_of(self.alloc, words)?;
        let ended = run_advised(
            self.alloc,
            &words,
            &mut self.files,
            &mut self.report,
            &self.companions,
        )?;
        self.ended = Some(ended);
        self.runs = self.runs.saturating_add(1);
        for word in words {
            self.wanted.look_at(word)?;
        }
        Ok(())
    }

    /// Wants of the last run what these words, without advisors, make of the files as they were. They end with the wanted status too.
    fn want_as(&mut self, words: &str) -> Result<(), Memory> {
        let words = words_of(self.alloc, words)?;
        let mut report = MemSink::new(self.alloc);
        let files = &mut self.wanted.files;
        let ended = run_advised(self.alloc, &words, files, &mut report, &[])?;
        self.wanted.report = Some(report.bytes().to_vec(self.alloc)?);
        self.compare_status(ended.status)
    }

    /// The call of this number is to fail.
    fn fail(&mut self, call: Call, number: u64) -> Result<(), Memory> {
        match call {
            Call::Read => self.files.fail_read(number),
            Call::Create => self.files.fail_create(number),
            Call::Append => self.files.fail_append(number),
            Call::Write => self.report.fail_write(number),
        }
    }

    fn prepare(&mut self, before: Before<'_>) -> Result<(), Memory> {
        match before {
            Before::File(name) => {
                self.place = Place::FileBefore(String::from_str(self.alloc, name)?);
            }
            Before::Fails(call, number) => self.fail(call, number)?,
            Before::Piece(limit) => self.files.piece(limit.get()),
            Before::Advisor(brought) => self.companions.push(bring(self.alloc, brought)?)?,
        }
        Ok(())
    }

    fn want(&mut self, want: Want<'_>) -> Result<(), Memory> {
        match want {
            Want::Status(status) => self.wanted.status = Some(status),
            Want::Report => self.place = Place::Report,
            Want::AnyReport => self.wanted.any_report = true,
            Want::Told => self.place = Place::Told,
            Want::Holds(name) => {
                self.place = Place::FileAfter(String::from_str(self.alloc, name)?);
            }
            Want::AnyFile => self.wanted.any_file = true,
            Want::As(words) => self.want_as(words)?,
        }
        Ok(())
    }

    fn obey(&mut self, line: Line<'_>) -> Result<(), Memory> {
        self.end_text()?;
        match line {
            Line::Before(before) => {
                self.end_run()?;
                self.prepare(before)
            }
            Line::Run(words) => {
                self.end_run()?;
                self.run(words)
            }
            Line::Want(want) => self.want(want),
        }
    }

    /// Takes a line. `false` where it is none that may stand there.
    pub fn take(&mut self, line: &str) -> Result<bool, Memory> {
        if self.place.is_text() && push_line(&mut self.text, line)? {
            return Ok(true);
        }
        match Line::of(line) {
            Some(line) => {
                self.obey(line)?;
                Ok(true)
            }
            None => Ok(false),
        }
    }

    /// Takes lines of a text once for each number. `false` where some are none, or stand in no text.
    pub fn take_count(&mut self, count: &Count<'_>, lines: &str) -> Result<bool, Memory> {
        if self.place.is_text() {
            count.push(self.alloc, &mut self.text, lines)
        } else {
            Ok(false)
        }
    }

    /// Ends the case: how many runs there were, and a line for each difference.
    pub fn end(mut self) -> Result<(u64, String), Memory> {
        self.end_text()?;
        self.end_run()?;
        if self.runs == 0 {
            writeln!(&mut self.differences, "{}: nothing is run", self.name)?;
        }
        Ok((self.runs, self.differences))
    }
}
