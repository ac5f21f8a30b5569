//! Why a vector text is refused.

use ae_lex::TextErr;
use std::fmt;

/// What is wrong with a line, or with the whole text.
#[derive(Clone, Copy, Debug, PartialEq, Eq)]
pub enum VecFault {
    /// The first line with words is not `andexor-vectors 1`, or no line has words.
    NoHead,
    /// A later line begins with a word that the format has not.
    Unknown,
    /// The line's first word may not stand after the lines before it, or not in this form.
    OutOfOrder,
    /// `form` is not followed by exactly one word of a form.
    BadForm,
    /// `inputs` or `outputs` has no name, more than `WRITTEN_LINES`, or a word that is no name, or `inputs` only one in a form with a control.
    BadNames,
    /// A name of the line stands earlier in it, or among the inputs.
    NameTwice,
    /// `polarity`, `esop` or `vector` has a wrong number of words, or a word of wrong length or with a wrong character.
    BadBits,
    /// The number of an output is not from 1 to the number of outputs, or that of a pin not from 1 to `PINS`, or it has not 1 to 9 digits.
    BadNumber,
    /// `unchanged` has a wrong number of words, names no place, or has another value than 0 and 1.
    BadPlace,
    /// The last word of `unchanged` is neither `wide` nor made of letters `S` and `L`.
    BadEvidence,
    /// No `end` was read.
    NoEnd,
}

impl fmt::Display for VecFault {
    ghost use Rattle.std.specs.Prelude.{Some};
    ghost use Rattle.vec_text.specs.Faults.{fault_name};

    ghost output = { λ fault. Some (fault_name fault) };

    /// The name of the fault.
    fn fmt<W: fmt::Write>(&self, f: &mut fmt::Formatter<W>) -> fmt::Result {
        match self {
            VecFault::NoHead => f.write_str("NoHead"),
            VecFault::Unknown => f.write_str("Unknown"),
            VecFault::OutOfOrder => f.write_str("OutOfOrder"),
            VecFault::BadForm => f.write_str("BadForm"),
            VecFault::BadNames => f.write_str("BadNames"),
            VecFault::NameTwice => f.write_str("NameTwice"),
            VecFault::BadBits => f.write_str("BadBits"),
            VecFault::BadNumber => f.write_str("BadNumber"),
            VecFault::BadPlace => f.write_str("BadPlace"),
            VecFault::BadEvidence => f.write_str("BadEvidence"),
            VecFault::NoEnd => f.write_str("NoEnd"),
        }
    }
}

impl std::error::Error for VecFault {}

/// Why `read_vec` gives no vector file. A fault of the whole text has the number of the last line that is read: that of `end`, else that
/// of the last line of the text, 0 where there is none.
pub type VecErr = TextErr<VecFault>;
