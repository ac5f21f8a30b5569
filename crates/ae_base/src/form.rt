//! The forms of a network.
ghost use Rattle.std.specs.Prelude.{◌≡◌};
ghost use Rattle.ae_base.specs.Form as spec;

use crate::limits::{FACTORED_CUBES, REDDY_TERMS};

/// Which construction a network and its vectors have.
#[derive(Clone, Copy, Debug, PartialEq, Eq)]
pub enum Form {
    /// The AND-EXOR cascade with a control input (after Reddy 1972).
    Reddy,
    /// The network of a factored ESOP, without a control input.
    Factored,
}

/// What a form has: the row of a table with a row for each form.
#[derive(Clone, Copy, Debug, PartialEq, Eq)]
pub struct Features {
    /// The network has a control, its last input.
    pub control: bool,
    /// The vector file lists the cubes of the ESOP.
    pub cubes: bool,
    /// The vector file lists the undetectable faults.
    pub undetectable: bool,
    /// The most terms that the outputs of a source may have in all.
    pub most_terms: u64,
}

impl Form {
    /// The row of this form.
    pub fn features(self) -> Features
        ensures { result ≡ spec.features_of self }
    {
        match self {
            Form::Reddy => Features {
                control: true,
                cubes: false,
                undetectable: false,
                most_terms: REDDY_TERMS,
            },
            Form::Factored => Features {
                control: false,
                cubes: true,
                undetectable: true,
                most_terms: FACTORED_CUBES,
            },
        }
    }

    /// The word of this form in texts and on the command line.
    pub fn word(self) -> &'static str
        ensures { result.now ≡ spec.form_word self }
    {
        match self {
            Form::Reddy => "reddy",
            Form::Factored => "factored",
        }
    }

    /// The form that a word names, or `None` exactly where it names none.
    pub fn of_word(word: &[u8]) -> Option<Form>
        ensures { result ≡ spec.form_of word.now }
    {
        FORMS
            .iter()
            .copied()
            .find(|form| word == form.word().as_bytes())
    }
}

/// All forms.
static FORMS: [Form; 2] = [Form::Reddy, Form::Factored];
