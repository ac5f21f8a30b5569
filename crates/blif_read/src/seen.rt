//! What the lines so far say.
ghost use Rattle.std.specs.Prelude.{◌≡◌, ◌∷◌, ◌++◌, [], List, Option, Some, None, false, codes, slice_index, option_map};
ghost use Rattle.ae_lex.specs.Heads.{Word};
ghost use Rattle.ae_lex.specs.Reads.{Takes};
ghost use Rattle.ae_lex.specs.Slices.{texts};
ghost use Rattle.blif_read.specs.Says.{Declared, faults};
ghost use Rattle.blif_read.specs.SourceSays.{declared_by};
ghost use Rattle.blif_read.specs.Seen as spec;

use crate::declare::{Kind, read_heading};
use crate::fault::{BlifFault, NetLimits, most_gates};
use crate::statement::{are_names, is_row, is_word, joined, other_fault, read_name, row_end};
use crate::table::NameTable;
use ae_base::{Name, PINS};
use ae_lex::LineErr;
use std::alloc::Global;

/// Of the cover that is open: the number of its pins, and the last character of its first row.
#[derive(Clone, Copy)]
pub struct OpenCover {
    pub pins: usize,
    pub end_char: Option<u8>,
}

/// What the lines so far say, as far as the faults of a further line depend on it.
/// In a don't care part the inputs and outputs are those of the model, and its lines declare none.
#[derive(Drop)]
pub struct Seen {
    pub in_part: bool,
    pub ended: bool,
    pub has_model: bool,
    pub model: Option<Name>,
    pub inputs: NameTable,
    pub outputs: NameTable,
    pub driven: NameTable,
    pub cover: Option<OpenCover>,
}

impl Seen {
    /// Nothing is said yet.
    #[tactic(auto, unfolding(crate::specs::Seen::seen, crate::specs::Says::gates_of))]
    pub fn new(alloc: Global) -> Seen
        ensures { result ≡ spec.seen None [] }
    {
        Seen {
            in_part: false,
            ended: false,
            has_model: false,
            model: None,
            inputs: NameTable::new(alloc),
            outputs: NameTable::new(alloc),
            driven: NameTable::new(alloc),
            cover: None,
        }
    }

    /// Nothing is said yet of the don't care part of this model.
    #[tactic(auto, unfolding(crate::specs::Seen::seen, crate::specs::Says::gates_of))]
    pub fn into_part(self, alloc: Global) -> Seen
        ensures { (lines : List (List Word)) → self ≡ spec.seen None lines → result ≡ spec.seen (Some (declared_by lines)) [] }
    {
        Seen {
            in_part: true,
            ended: false,
            has_model: false,
            model: None,
            inputs: self.inputs,
            outputs: self.outputs,
            driven: NameTable::new(alloc),
            cover: None,
        }
    }

    #[tactic(auto, unfolding(crate::specs::Seen::faults_in, crate::specs::Seen::with_line))]
    fn read_model(
        &mut self,
        alloc: Global,
        limits: NetLimits,
        words: &[&[u8]],
    ) -> Result<(), LineErr<BlifFault>>
        ensures { Takes (spec.faults_in limits self.old (codes ".model" ∷ texts words.now)) (self.new ≡ spec.with_line self.old (codes ".model" ∷ texts words.now)) result }
    {
        if self.ended || self.in_part || self.has_model {
            return Err(LineErr::Fault(BlifFault::TwoModels));
        }
        let model = match words {
            [] => None,
            [word] => match read_name(alloc, limits, word)? {
                Some(name) => Some(name),
                None => return Err(LineErr::Fault(BlifFault::BadName)),
            },
            _ => return Err(LineErr::Fault(BlifFault::BadName)),
        };
        self.model = model;
        self.has_model = true;
        self.cover = None;
        Ok(())
    }

    #[tactic(auto, unfolding(crate::specs::Seen::faults_in, crate::specs::Seen::with_line))]
    fn read_inputs(
        &mut self,
        alloc: Global,
        limits: NetLimits,
        words: &[&[u8]],
    ) -> Result<(), LineErr<BlifFault>>
        requires { self.now.ended ≡ false }
        ensures { Takes (spec.faults_in limits self.old (codes ".inputs" ∷ texts words.now)) (self.new ≡ spec.with_line self.old (codes ".inputs" ∷ texts words.now)) result }
    {
        let kind = Kind {
            limits,
            in_part: self.in_part,
            too_many: BlifFault::TooManyInputs,
        };
        read_heading(
            alloc,
            kind,
            &self.outputs,
            &self.driven,
            &mut self.inputs,
            words,
        )?;
        self.cover = None;
        Ok(())
    }

    #[tactic(auto, unfolding(crate::specs::Seen::faults_in, crate::specs::Seen::with_line))]
    fn read_outputs(
        &mut self,
        alloc: Global,
        limits: NetLimits,
        words: &[&[u8]],
    ) -> Result<(), LineErr<BlifFault>>
        requires { self.now.ended ≡ false }
        ensures { Takes (spec.faults_in limits self.old (codes ".outputs" ∷ texts words.now)) (self.new ≡ spec.with_line self.old (codes ".outputs" ∷ texts words.now)) result }
    {
        let kind = Kind {
            limits,
            in_part: self.in_part,
            too_many: BlifFault::TooManyOutputs,
        };
        let no_gates = NameTable::new(alloc);
        read_heading(
            alloc,
            kind,
            &self.inputs,
            &no_gates,
            &mut self.outputs,
            words,
        )?;
        self.cover = None;
        Ok(())
    }

    /// The gate that the last of the words names.
    #[tactic(auto, unfolding(crate::specs::Seen::faults_in, crate::specs::Seen::with_line), using(crate::proofs::Words::last_is_name, crate::proofs::Steps::among_both))]
    fn read_names(
        &mut self,
        alloc: Global,
        limits: NetLimits,
        words: &[&[u8]],
    ) -> Result<(), LineErr<BlifFault>>
        requires { self.now.ended ≡ false }
        ensures { Takes (spec.faults_in limits self.old (codes ".names" ∷ texts words.now)) (self.new ≡ spec.with_line self.old (codes ".names" ∷ texts words.now)) result }
    {
        if words.is_empty() || !are_names(limits, words) {
            return Err(LineErr::Fault(BlifFault::BadName));
        }
        if words.len() - 1 > PINS as usize {
            return Err(LineErr::Fault(BlifFault::TooManyPins));
        }
        if self.driven.len() >= most_gates(self.in_part) as usize {
            return Err(LineErr::Fault(BlifFault::TooManyGates));
        }
        let name = Name::known(alloc, words[words.len() - 1])?;
        if self.inputs.has(&name) || self.driven.has(&name) {
            return Err(LineErr::Fault(BlifFault::DefinedTwice));
        }
        self.driven.push(name)?;
        self.cover = Some(OpenCover {
            pins: words.len() - 1,
            end_char: None,
        });
        Ok(())
    }

    fn read_row(&mut self, chars: &[u8]) -> Result<(), LineErr<BlifFault>>
        ensures { Takes (spec.row_faults_in self.old.cover chars.now) (self.new ≡ record self.old { cover = option_map (spec.with_end chars.now) self.old.cover }) result }
    {
        let Some(cover) = self.cover else {
            return Err(LineErr::Fault(BlifFault::StrayRow));
        };
        if !is_row(cover.pins, chars) {
            return Err(LineErr::Fault(BlifFault::BadRow));
        }
        let end = row_end(chars);
        let first_end = cover.end_char.unwrap_or(end);
        if first_end != end {
            return Err(LineErr::Fault(BlifFault::MixedRows));
        }
        self.cover = Some(OpenCover {
            pins: cover.pins,
            end_char: Some(first_end),
        });
        Ok(())
    }

    /// A statement, by its first word and those after it.
    #[tactic(auto, unfolding(crate::specs::Seen::faults_in, crate::specs::Seen::with_line))]
    fn read_statement(
        &mut self,
        alloc: Global,
        limits: NetLimits,
        head: &[u8],
        words: &[&[u8]],
    ) -> Result<(), LineErr<BlifFault>>
        requires { slice_index head.now 0 ≡ 46 }
        ensures { Takes (spec.faults_in limits self.old (head.now ∷ texts words.now)) (self.new ≡ spec.with_line self.old (head.now ∷ texts words.now)) result }
    {
        if is_word(head, b".model") {
            self.read_model(alloc, limits, words)
        } else if is_word(head, b".end") {
            self.ended = true;
            self.cover = None;
            Ok(())
        } else if self.ended {
            Err(LineErr::Fault(BlifFault::AfterEnd))
        } else if is_word(head, b".inputs") {
            self.read_inputs(alloc, limits, words)
        } else if is_word(head, b".outputs") {
            self.read_outputs(alloc, limits, words)
        } else if is_word(head, b".names") {
            self.read_names(alloc, limits, words)
        } else {
            Err(LineErr::Fault(other_fault(self.in_part, head)))
        }
    }

    #[tactic(auto, unfolding(crate::specs::Seen::faults_in, crate::specs::Seen::with_line))]
    fn read_words(
        &mut self,
        alloc: Global,
        limits: NetLimits,
        words: &[&[u8]],
    ) -> Result<(), LineErr<BlifFault>>
        ensures { Takes (spec.faults_in limits self.old (texts words.now)) (self.new ≡ spec.with_line self.old (texts words.now)) result }
    {
        let ended = self.ended;
        match words {
            [[b'.', ..], others @ ..] => self.read_statement(alloc, limits, words[0], others),
            _ if ended => Err(LineErr::Fault(BlifFault::AfterEnd)),
            _ => {
                let chars = joined(alloc, words)?;
                self.read_row(chars.as_slice())
            }
        }
    }

    /// Reads one more line. After an error nothing is to be read from the value.
    pub fn read(
        &mut self,
        alloc: Global,
        limits: NetLimits,
        words: &[&[u8]],
    ) -> Result<(), LineErr<BlifFault>>
        ensures { (model : Option Declared) (before : List (List Word)) → self.old ≡ spec.seen model before → Takes (faults limits model before (texts words.now)) (self.new ≡ spec.seen model (before ++ texts words.now ∷ [])) result }
    {
        self.read_words(alloc, limits, words)
    }
}
