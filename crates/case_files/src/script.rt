//! A case file: its definitions and its cases, section by section.

use crate::case::Case;
use crate::numbers::Numbers;
use crate::text::Count;
use ae_base::Memory;
use std::alloc::Global;
use std::collections::BTreeMap;

/// What the cases of a file came to.
#[derive(Drop)]
pub struct Outcome {
    pub numbers: Numbers,
    /// A line for each difference, and for each line that is not understood.
    pub differences: String,
}

impl Outcome {
    /// A case ended.
    fn add(&mut self, runs: u64, differences: &str) -> Result<(), Memory> {
        let ended = Numbers::of_case(runs, !differences.is_empty());
        self.numbers = self.numbers.with(ended);
        self.differences.push_str(differences)?;
        Ok(())
    }

    /// A line is not understood.
    fn refuse(&mut self, file: &str, line: Numbered<'_>) -> Result<(), Memory> {
        self.numbers = self.numbers.with(Numbers::LINE);
        writeln!(
            &mut self.differences,
            "{file}: line {} is not understood: {}",
            line.number, line.text
        )?;
        Ok(())
    }
}

/// A line with its number in the file.
#[derive(Clone, Copy)]
struct Numbered<'a> {
    number: u64,
    text: &'a str,
}

/// What a section is of.
#[derive(Clone, Copy)]
enum Head<'a> {
    Definition(&'a str),
    Case(&'a str),
}

impl<'a> Head<'a> {
    /// The section that a line begins, where it begins one.
    fn of(line: &'a str) -> Option<Head<'a>> {
        match line.split_once(' ') {
            Some(("define", name)) => Some(Head::Definition(name)),
            Some(("case", name)) => Some(Head::Case(name)),
            _ => None,
        }
    }
}

/// Lines by their names.
#[derive(Drop)]
struct Definitions {
    alloc: Global,
    by_name: BTreeMap<String, String>,
}

impl Definitions {
    /// The lines for which a line stands: those of the definition that it names, or itself.
    fn lines_of<'a>(&'a self, line: &'a str) -> Option<&'a str> {
        match line.strip_prefix('@') {
            Some(name) => Some(self.by_name.get(name)?.as_str()),
            None => Some(line),
        }
    }

    /// The lines have the name from here on.
    fn define(&mut self, name: &str, lines: String) -> Result<(), Memory> {
        self.by_name
            .insert(String::from_str(self.alloc, name)?, lines)?;
        Ok(())
    }
}

/// Adds lines, each with its end.
fn push_lines(text: &mut String, lines: &str) -> Result<(), Memory> {
    for line in lines.lines() {
        text.push_str(line)?;
        text.push('\n')?;
    }
    Ok(())
}

/// Has a case take a line, or those of a text once for each number. `false` where it is none that may stand there.
fn take(definitions: &Definitions, case: &mut Case, line: &str) -> Result<bool, Memory> {
    match Count::of(line) {
        Some(count) => match definitions.lines_of(count.line) {
            Some(lines) => case.take_count(&count, lines),
            None => Ok(false),
        },
        None => case.take(line),
    }
}

/// Has a case take the lines for which a line stands.
fn take_all(definitions: &Definitions, case: &mut Case, line: &str) -> Result<bool, Memory> {
    let Some(lines) = definitions.lines_of(line) else {
        return Ok(false);
    };
    for line in lines.lines() {
        if !take(definitions, case, line)? {
            return Ok(false);
        }
    }
    Ok(true)
}

/// A case file that is carried out section by section.
#[derive(Drop)]
struct Script<'a> {
    alloc: Global,
    file: &'a str,
    definitions: Definitions,
    /// The section that is not at its end, and its lines.
    head: Option<Head<'a>>,
    lines: Vec<Numbered<'a>>,
    outcome: Outcome,
}

impl<'a> Script<'a> {
    fn new(alloc: Global, file: &'a str) -> Script<'a> {
        Script {
            alloc,
            file,
            definitions: Definitions {
                alloc,
                by_name: BTreeMap::new(alloc),
            },
            head: None,
            lines: Vec::new(alloc),
            outcome: Outcome {
                numbers: Numbers::NONE,
                differences: String::new(alloc),
            },
        }
    }

    /// The lines of the section have the name.
    fn define(&mut self, name: &str) -> Result<(), Memory> {
        let mut text = String::new(self.alloc);
        for line in &self.lines {
            match self.definitions.lines_of(line.text) {
                Some(lines) => push_lines(&mut text, lines)?,
                None => self.outcome.refuse(self.file, *line)?,
            }
        }
        self.definitions.define(name, text)
    }

    /// Has the case take the lines of the section.
    fn take_lines(&mut self, case: &mut Case) -> Result<(), Memory> {
        for line in &self.lines {
            if !take_all(&self.definitions, case, line.text)? {
                self.outcome.refuse(self.file, *line)?;
            }
        }
        Ok(())
    }

    /// Carries out the case of the name.
    fn carry_out(&mut self, name: &str) -> Result<(), Memory> {
        let name = format!(in self.alloc; "{}: {name}", self.file)?;
        let mut case = Case::new(self.alloc, name);
        self.take_lines(&mut case)?;
        let (runs, differences) = case.end()?;
        self.outcome.add(runs, &differences)
    }

    /// Ends the section. What stands before the first one is not understood.
    fn end(&mut self) -> Result<(), Memory> {
        match self.head {
            Some(Head::Definition(name)) => self.define(name)?,
            Some(Head::Case(name)) => self.carry_out(name)?,
            None => {
                for line in &self.lines {
                    self.outcome.refuse(self.file, *line)?;
                }
            }
        }
        self.lines.clear();
        Ok(())
    }

    /// Takes a line of the file.
    fn take(&mut self, line: Numbered<'a>) -> Result<(), Memory> {
        if line.text.is_empty() || line.text.starts_with('#') {
            return Ok(());
        }
        match Head::of(line.text) {
            Some(head) => {
                self.end()?;
                self.head = Some(head);
            }
            None => self.lines.push(line)?,
        }
        Ok(())
    }
}

/// Carries out the cases of a file.
pub fn carry_out(alloc: Global, file: &str, text: &str) -> Result<Outcome, Memory> {
    let mut script = Script::new(alloc, file);
    for (number, text) in (1u64..).zip(text.lines()) {
        script.take(Numbered { number, text })?;
    }
    script.end()?;
    Ok(script.outcome)
}
