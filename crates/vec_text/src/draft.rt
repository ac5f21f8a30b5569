//! The vector file so far: what the lines that were read say.
ghost use Rattle.std.specs.Prelude.{◌≡◌, ◌≤◌, ◌-◌, ◌==◌, [], ◌∷◌, length, codes, false, if◌then◌else◌};
ghost use Rattle.ae_base.specs.declared.limits.TheConstants.{WRITTEN_LINES};
ghost use Rattle.ae_base.specs.Form.{features_of};
ghost use Rattle.ae_lex.specs.Reads.{Takes};
ghost use Rattle.ae_lex.specs.Slices.{texts};
ghost use Rattle.vec_text.specs.Seen as spec;

use crate::fault::VecFault;
use crate::file::{EsopLine, Idle, Vector};
use crate::idle::read_idle;
use crate::words::{
    is_end, is_head, is_word, polarity_of, read_count, read_cube, read_form, read_names, vector_of,
};
use ae_base::{Form, Mask, Name, Polarity, Seq, has_twins, share};
use ae_lex::LineErr;
use std::alloc::Global;
use std::marker::Model;

/// What the lines so far say, none of which has a fault.
#[derive(Drop, Debug)]
pub struct Draft {
    /// The number of lines, counted up to the five of which each file has one.
    pub stage: u32,
    pub form: Form,
    pub inputs: Seq<Name>,
    pub outputs: Seq<Name>,
    pub polarity: Polarity,
    pub esop: Seq<EsopLine>,
    pub vectors: Seq<Vector>,
    pub unchanged: Seq<Idle>,
}

impl Model for Draft {
    ghost use Rattle.vec_text.specs.Seen.{Seen};
    ghost use Rattle.vec_text.specs.Sound.{AreFew};

    ghost Value = { Seen };

    ghost view = { λ s. record { stage = s.stage; file = record { form = s.form; inputs = s.inputs; outputs = s.outputs; polarity = s.polarity; esop = s.esop; vectors = s.vectors; unchanged = s.unchanged } } };

    ghost invariant = { λ s. AreFew (record { form = s.form; inputs = s.inputs; outputs = s.outputs; polarity = s.polarity; esop = s.esop; vectors = s.vectors; unchanged = s.unchanged }) };
}

impl Draft {
    /// Nothing is said yet.
    #[tactic(auto, using(ae_base::proofs::Sets::set_members), unfolding(crate::specs::Seen::seen, crate::specs::Says::file_of, ae_base::specs::Digits::ones))]
    pub fn new(alloc: Global) -> Draft
        ensures { result ≡ spec.seen [] }
    {
        Draft {
            stage: 0,
            form: Form::Reddy,
            inputs: Seq::new(alloc),
            outputs: Seq::new(alloc),
            polarity: Polarity {
                n: 0,
                plain: Mask::empty(),
            },
            esop: Seq::new(alloc),
            vectors: Seq::new(alloc),
            unchanged: Seq::new(alloc),
        }
    }

    /// The number of inputs.
    fn input_count(&self) -> u32
        ensures count { result ≡ length self.now.file.inputs }
        ensures few { result ≤ WRITTEN_LINES }
    {
        self.inputs.len() as u32
    }

    /// The number of outputs.
    fn output_count(&self) -> u32
        ensures count { result ≡ length self.now.file.outputs }
        ensures few { result ≤ WRITTEN_LINES }
    {
        self.outputs.len() as u32
    }

    /// The number of the source's inputs.
    fn source_inputs(&self) -> u32
        ensures count { result ≡ (if (features_of self.now.file.form).control then length self.now.file.inputs - 1 else length self.now.file.inputs) }
        ensures few { result ≤ WRITTEN_LINES }
    {
        let n = self.input_count();
        if self.form.features().control && 0 < n {
            n - 1
        } else {
            n
        }
    }

    #[tactic(auto, unfolding(crate::specs::Says::line_faults, crate::specs::Seen::with_line))]
    fn read_head(&mut self, words: &[&[u8]]) -> Result<(), LineErr<VecFault>>
        requires { self.now.stage ≡ 0 }
        ensures { Takes (spec.faults_in self.old (texts words.now)) (self.new ≡ spec.with_line self.old (texts words.now)) result }
    {
        if !is_head(words) {
            return Err(LineErr::Fault(VecFault::NoHead));
        }
        self.stage = 1;
        Ok(())
    }

    #[tactic(auto, unfolding(crate::specs::Says::line_faults, crate::specs::Seen::with_line))]
    fn read_form(&mut self, words: &[&[u8]]) -> Result<(), LineErr<VecFault>>
        requires { (self.now.stage == 0) ≡ false }
        ensures { Takes (spec.faults_in self.old (codes "form" ∷ texts words.now)) (self.new ≡ spec.with_line self.old (codes "form" ∷ texts words.now)) result }
    {
        if self.stage != 1 {
            return Err(LineErr::Fault(VecFault::OutOfOrder));
        }
        let Some(form) = read_form(words) else {
            return Err(LineErr::Fault(VecFault::BadForm));
        };
        self.form = form;
        self.stage = 2;
        Ok(())
    }

    #[tactic(auto, unfolding(crate::specs::Says::line_faults, crate::specs::Seen::with_line))]
    fn read_inputs(&mut self, alloc: Global, words: &[&[u8]]) -> Result<(), LineErr<VecFault>>
        requires { (self.now.stage == 0) ≡ false }
        ensures { Takes (spec.faults_in self.old (codes "inputs" ∷ texts words.now)) (self.new ≡ spec.with_line self.old (codes "inputs" ∷ texts words.now)) result }
    {
        if self.stage != 2 {
            return Err(LineErr::Fault(VecFault::OutOfOrder));
        }
        let Some(names) = read_names(alloc, words)? else {
            return Err(LineErr::Fault(VecFault::BadNames));
        };
        if self.form.features().control && words.len() == 1 {
            return Err(LineErr::Fault(VecFault::BadNames));
        }
        if has_twins(names.as_slice()) {
            return Err(LineErr::Fault(VecFault::NameTwice));
        }
        self.inputs = names;
        self.stage = 3;
        Ok(())
    }

    #[tactic(auto, unfolding(crate::specs::Says::line_faults, crate::specs::Seen::with_line))]
    fn read_outputs(&mut self, alloc: Global, words: &[&[u8]]) -> Result<(), LineErr<VecFault>>
        requires { (self.now.stage == 0) ≡ false }
        ensures { Takes (spec.faults_in self.old (codes "outputs" ∷ texts words.now)) (self.new ≡ spec.with_line self.old (codes "outputs" ∷ texts words.now)) result }
    {
        if self.stage != 3 {
            return Err(LineErr::Fault(VecFault::OutOfOrder));
        }
        let Some(names) = read_names(alloc, words)? else {
            return Err(LineErr::Fault(VecFault::BadNames));
        };
        if has_twins(names.as_slice()) || share(self.inputs.as_slice(), names.as_slice()) {
            return Err(LineErr::Fault(VecFault::NameTwice));
        }
        self.outputs = names;
        self.stage = 4;
        Ok(())
    }

    #[tactic(auto, unfolding(crate::specs::Says::line_faults, crate::specs::Seen::with_line))]
    fn read_polarity(&mut self, words: &[&[u8]]) -> Result<(), LineErr<VecFault>>
        requires { (self.now.stage == 0) ≡ false }
        ensures { Takes (spec.faults_in self.old (codes "polarity" ∷ texts words.now)) (self.new ≡ spec.with_line self.old (codes "polarity" ∷ texts words.now)) result }
    {
        if self.stage != 4 {
            return Err(LineErr::Fault(VecFault::OutOfOrder));
        }
        let Some(polarity) = polarity_of(self.source_inputs(), words) else {
            return Err(LineErr::Fault(VecFault::BadBits));
        };
        self.polarity = polarity;
        self.stage = 5;
        Ok(())
    }

    #[tactic(auto, unfolding(crate::specs::Says::line_faults, crate::specs::Seen::with_line))]
    fn read_esop(&mut self, words: &[&[u8]]) -> Result<(), LineErr<VecFault>>
        requires { (self.now.stage == 0) ≡ false }
        ensures { Takes (spec.faults_in self.old (codes "esop" ∷ texts words.now)) (self.new ≡ spec.with_line self.old (codes "esop" ∷ texts words.now)) result }
    {
        if self.stage < 5
            || !self.form.features().cubes
            || !self.vectors.is_empty()
            || !self.unchanged.is_empty()
        {
            return Err(LineErr::Fault(VecFault::OutOfOrder));
        }
        let [number, cube] = words else {
            return Err(LineErr::Fault(VecFault::BadBits));
        };
        let Some(k) = read_count(self.output_count(), number) else {
            return Err(LineErr::Fault(VecFault::BadNumber));
        };
        let Some(cube) = read_cube(self.input_count(), cube) else {
            return Err(LineErr::Fault(VecFault::BadBits));
        };
        self.esop.push(EsopLine {
            output: k - 1,
            cube,
        })?;
        Ok(())
    }

    #[tactic(auto, unfolding(crate::specs::Says::line_faults, crate::specs::Seen::with_line))]
    fn read_vector(&mut self, words: &[&[u8]]) -> Result<(), LineErr<VecFault>>
        requires { (self.now.stage == 0) ≡ false }
        ensures { Takes (spec.faults_in self.old (codes "vector" ∷ texts words.now)) (self.new ≡ spec.with_line self.old (codes "vector" ∷ texts words.now)) result }
    {
        if self.stage < 5 || !self.unchanged.is_empty() {
            return Err(LineErr::Fault(VecFault::OutOfOrder));
        }
        let Some(vector) = vector_of(self.input_count(), self.output_count(), words) else {
            return Err(LineErr::Fault(VecFault::BadBits));
        };
        self.vectors.push(vector)?;
        Ok(())
    }

    #[tactic(auto, unfolding(crate::specs::Says::line_faults, crate::specs::Seen::with_line))]
    fn read_unchanged(&mut self, alloc: Global, words: &[&[u8]]) -> Result<(), LineErr<VecFault>>
        requires { (self.now.stage == 0) ≡ false }
        ensures { Takes (spec.faults_in self.old (codes "unchanged" ∷ texts words.now)) (self.new ≡ spec.with_line self.old (codes "unchanged" ∷ texts words.now)) result }
    {
        if self.stage < 5 || !self.form.features().undetectable {
            return Err(LineErr::Fault(VecFault::OutOfOrder));
        }
        let idle = read_idle(alloc, words)?;
        self.unchanged.push(idle)?;
        Ok(())
    }

    /// A line's first word, and the words after it.
    #[tactic(auto, unfolding(crate::specs::Says::line_faults, crate::specs::Seen::with_line))]
    fn read_line(
        &mut self,
        alloc: Global,
        first: &[u8],
        words: &[&[u8]],
    ) -> Result<(), LineErr<VecFault>>
        requires { (self.now.stage == 0) ≡ false }
        ensures { Takes (spec.faults_in self.old (first.now ∷ texts words.now)) (self.new ≡ spec.with_line self.old (first.now ∷ texts words.now)) result }
    {
        if is_word(first, b"form") {
            self.read_form(words)
        } else if is_word(first, b"inputs") {
            self.read_inputs(alloc, words)
        } else if is_word(first, b"outputs") {
            self.read_outputs(alloc, words)
        } else if is_word(first, b"polarity") {
            self.read_polarity(words)
        } else if is_word(first, b"esop") {
            self.read_esop(words)
        } else if is_word(first, b"vector") {
            self.read_vector(words)
        } else if is_word(first, b"unchanged") {
            self.read_unchanged(alloc, words)
        } else {
            Err(LineErr::Fault(VecFault::Unknown))
        }
    }

    /// Reads the words of one more line.
    #[tactic(auto, unfolding(crate::specs::Says::line_faults, crate::specs::Seen::with_line))]
    fn read_words(&mut self, alloc: Global, words: &[&[u8]]) -> Result<(), LineErr<VecFault>>
        ensures { Takes (spec.faults_in self.old (texts words.now)) (self.new ≡ spec.with_line self.old (texts words.now)) result }
    {
        if self.stage == 0 {
            return self.read_head(words);
        }
        match words {
            [] => Err(LineErr::Fault(VecFault::Unknown)),
            [first, others @ ..] => self.read_line(alloc, first, others),
        }
    }
}

impl ae_lex::Draft for Draft {
    ghost use Rattle.std.specs.Prelude.{◌≡◌};
    ghost use Rattle.vec_text.specs.Says.{faults};
    ghost use Rattle.vec_text.specs.Seen.{seen};
    ghost use Rattle.vec_text.specs.Words.{is_end};

    type Fault = VecFault;

    ghost says = { λ lines draft. draft ≡ seen lines };

    ghost faults = { faults };

    ghost ends = { is_end };

    fn ends(words: &[&[u8]]) -> bool {
        is_end(words)
    }

    fn read(&mut self, alloc: Global, words: &[&[u8]]) -> Result<(), LineErr<VecFault>> {
        self.read_words(alloc, words)
    }
}
