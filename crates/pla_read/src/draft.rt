//! The cover so far: what the lines that were read say.
ghost use Rattle.std.specs.Prelude.{◌≡◌, [], ◌∷◌, length, not, codes, ◌==◌, slice_index};
ghost use Rattle.ae_lex.specs.Slices.{texts};
ghost use Rattle.ae_lex.specs.Reads.{Takes};
ghost use Rattle.pla_read.specs.Pla.{row_faults};
ghost use Rattle.pla_read.specs.Seen as spec;

use crate::fault::PlaFault;
use crate::words::{
    are_inputs, are_outputs, is_end, is_unsupported, join, read_count, read_kind, read_names,
    row_of,
};
use ae_base::{Name, SOURCE_LINES, Seq, has_twins};
use ae_cover::{Kind, PLA_ROWS, Row};
use ae_lex::LineErr;
use std::alloc::Global;
use std::marker::Model;

/// What the lines so far say, none of which has a fault.
#[derive(Drop, Debug)]
pub struct Draft {
    pub inputs: Option<u32>,
    pub outputs: Option<u32>,
    pub input_names: Option<Seq<Name>>,
    pub output_names: Option<Seq<Name>>,
    pub kind: Option<Kind>,
    pub rows: Seq<Row>,
}

impl Model for Draft {
    ghost use Rattle.pla_read.specs.Seen.{Seen};
    ghost use Rattle.pla_read.specs.Sound.{IsSound};

    ghost Value = { Seen };

    ghost view = { λ s. record { inputs = s.inputs; outputs = s.outputs; input_names = s.input_names; output_names = s.output_names; kind = s.kind; rows = s.rows } };

    ghost invariant = { λ s. IsSound (record { inputs = s.inputs; outputs = s.outputs; input_names = s.input_names; output_names = s.output_names; kind = s.kind; rows = s.rows }) };
}

impl Draft {
    /// Nothing is said yet.
    #[tactic(auto, unfolding(crate::specs::Seen::seen))]
    pub fn new(alloc: Global) -> Draft
        ensures { result ≡ spec.seen [] }
    {
        Draft {
            inputs: None,
            outputs: None,
            input_names: None,
            output_names: None,
            kind: None,
            rows: Seq::new(alloc),
        }
    }

    fn has_rows(&self) -> bool
        ensures { result ≡ not (length self.now.rows == 0) }
    {
        !self.rows.is_empty()
    }

    /// The number of inputs.
    #[tactic(auto, unfolding(crate::specs::Pla::line_faults, crate::specs::Seen::with_line))]
    fn read_inputs(&mut self, words: &[&[u8]]) -> Result<(), LineErr<PlaFault>>
        ensures { Takes (spec.faults_in self.old (codes ".i" ∷ texts words.now)) (self.new ≡ spec.with_line self.old (codes ".i" ∷ texts words.now)) result }
    {
        if self.inputs.is_some() || self.has_rows() {
            return Err(LineErr::Fault(PlaFault::Late));
        }
        let Some(n) = read_count(words) else {
            return Err(LineErr::Fault(PlaFault::BadNumber));
        };
        if n > SOURCE_LINES {
            return Err(LineErr::Fault(PlaFault::TooManyInputs));
        }
        self.inputs = Some(n);
        Ok(())
    }

    /// The number of outputs.
    #[tactic(auto, unfolding(crate::specs::Pla::line_faults, crate::specs::Seen::with_line))]
    fn read_outputs(&mut self, words: &[&[u8]]) -> Result<(), LineErr<PlaFault>>
        ensures { Takes (spec.faults_in self.old (codes ".o" ∷ texts words.now)) (self.new ≡ spec.with_line self.old (codes ".o" ∷ texts words.now)) result }
    {
        if self.outputs.is_some() || self.has_rows() {
            return Err(LineErr::Fault(PlaFault::Late));
        }
        let Some(n) = read_count(words) else {
            return Err(LineErr::Fault(PlaFault::BadNumber));
        };
        if n > SOURCE_LINES {
            return Err(LineErr::Fault(PlaFault::TooManyOutputs));
        }
        self.outputs = Some(n);
        Ok(())
    }

    /// The kind.
    #[tactic(auto, unfolding(crate::specs::Pla::line_faults, crate::specs::Seen::with_line))]
    fn read_kind(&mut self, words: &[&[u8]]) -> Result<(), LineErr<PlaFault>>
        ensures { Takes (spec.faults_in self.old (codes ".type" ∷ texts words.now)) (self.new ≡ spec.with_line self.old (codes ".type" ∷ texts words.now)) result }
    {
        if self.kind.is_some() || self.has_rows() {
            return Err(LineErr::Fault(PlaFault::Late));
        }
        let Some(kind) = read_kind(words) else {
            return Err(LineErr::Fault(PlaFault::BadType));
        };
        self.kind = Some(kind);
        Ok(())
    }

    /// The names of the inputs.
    #[tactic(auto, unfolding(crate::specs::Pla::line_faults, crate::specs::Seen::with_line))]
    fn read_input_names(&mut self, alloc: Global, words: &[&[u8]]) -> Result<(), LineErr<PlaFault>>
        ensures { Takes (spec.faults_in self.old (codes ".ilb" ∷ texts words.now)) (self.new ≡ spec.with_line self.old (codes ".ilb" ∷ texts words.now)) result }
    {
        if self.input_names.is_some() || self.has_rows() {
            return Err(LineErr::Fault(PlaFault::Late));
        }
        let Some(n) = self.inputs else {
            return Err(LineErr::Fault(PlaFault::NoI));
        };
        let Some(names) = read_names(alloc, n, words)? else {
            return Err(LineErr::Fault(PlaFault::BadNames));
        };
        if has_twins(names.as_slice()) {
            return Err(LineErr::Fault(PlaFault::NameTwice));
        }
        self.input_names = Some(names);
        Ok(())
    }

    /// The names of the outputs.
    #[tactic(auto, unfolding(crate::specs::Pla::line_faults, crate::specs::Seen::with_line))]
    fn read_output_names(&mut self, alloc: Global, words: &[&[u8]]) -> Result<(), LineErr<PlaFault>>
        ensures { Takes (spec.faults_in self.old (codes ".ob" ∷ texts words.now)) (self.new ≡ spec.with_line self.old (codes ".ob" ∷ texts words.now)) result }
    {
        if self.output_names.is_some() || self.has_rows() {
            return Err(LineErr::Fault(PlaFault::Late));
        }
        let Some(m) = self.outputs else {
            return Err(LineErr::Fault(PlaFault::NoO));
        };
        let Some(names) = read_names(alloc, m, words)? else {
            return Err(LineErr::Fault(PlaFault::BadNames));
        };
        if has_twins(names.as_slice()) {
            return Err(LineErr::Fault(PlaFault::NameTwice));
        }
        self.output_names = Some(names);
        Ok(())
    }

    /// The characters of a row.
    fn read_row(&mut self, alloc: Global, chars: &[u8]) -> Result<(), LineErr<PlaFault>>
        ensures { Takes (row_faults self.old.inputs self.old.outputs (length self.old.rows) chars.now) (self.new ≡ spec.with_row self.old chars.now) result }
    {
        let Some(n) = self.inputs else {
            return Err(LineErr::Fault(PlaFault::NoI));
        };
        let Some(m) = self.outputs else {
            return Err(LineErr::Fault(PlaFault::NoO));
        };
        if chars.len() != (n + m) as usize {
            return Err(LineErr::Fault(PlaFault::BadWidth));
        }
        let (front, back) = chars.split_at(n as usize);
        if !are_inputs(front) || !are_outputs(back) {
            return Err(LineErr::Fault(PlaFault::BadChar));
        }
        if self.rows.len() >= PLA_ROWS {
            return Err(LineErr::Fault(PlaFault::TooManyRows));
        }
        self.rows.push(row_of(alloc, n, chars)?)?;
        Ok(())
    }

    /// Reads the words of one more line.
    #[tactic(auto, unfolding(crate::specs::Pla::line_faults, crate::specs::Seen::with_line))]
    fn read_words(&mut self, alloc: Global, words: &[&[u8]]) -> Result<(), LineErr<PlaFault>>
        ensures { Takes (spec.faults_in self.old (texts words.now)) (self.new ≡ spec.with_line self.old (texts words.now)) result }
    {
        match words {
            [[b'.', ..], args @ ..] => self.read_header(alloc, words[0], args),
            _ => {
                let chars = join(alloc, words)?;
                self.read_row(alloc, chars.as_slice())
            }
        }
    }

    /// A header and the words after it.
    #[tactic(auto, unfolding(crate::specs::Pla::line_faults, crate::specs::Seen::with_line))]
    fn read_header(
        &mut self,
        alloc: Global,
        header: &[u8],
        args: &[&[u8]],
    ) -> Result<(), LineErr<PlaFault>>
        requires { slice_index header.now 0 ≡ 46 }
        ensures { Takes (spec.faults_in self.old (header.now ∷ texts args.now)) (self.new ≡ spec.with_line self.old (header.now ∷ texts args.now)) result }
    {
        match header {
            b".i" => self.read_inputs(args),
            b".o" => self.read_outputs(args),
            b".ilb" => self.read_input_names(alloc, args),
            b".ob" => self.read_output_names(alloc, args),
            b".type" => self.read_kind(args),
            b".p" => Ok(()),
            _ if is_unsupported(header) => Err(LineErr::Fault(PlaFault::Unsupported)),
            _ => Err(LineErr::Fault(PlaFault::Unknown)),
        }
    }
}

impl ae_lex::Draft for Draft {
    ghost use Rattle.std.specs.Prelude.{◌≡◌};
    ghost use Rattle.pla_read.specs.Pla.{faults};
    ghost use Rattle.pla_read.specs.Seen.{seen};
    ghost use Rattle.pla_read.specs.Words.{is_end};

    type Fault = PlaFault;

    ghost says = { λ lines draft. draft ≡ seen lines };

    ghost faults = { faults };

    ghost ends = { is_end };

    fn ends(words: &[&[u8]]) -> bool {
        is_end(words)
    }

    fn read(&mut self, alloc: Global, words: &[&[u8]]) -> Result<(), LineErr<PlaFault>> {
        self.read_words(alloc, words)
    }
}
