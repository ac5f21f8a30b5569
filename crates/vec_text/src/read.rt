//! Reads a vector text.
ghost use Rattle.std.specs.Prelude.{◌≡◌, ◌≤◌, None, length, is_some, unwrap_or};
ghost use Rattle.ae_lex.specs.First.{first_of, at_line, judged};
ghost use Rattle.ae_lex.specs.Reads.{Gives};
ghost use Rattle.vec_text.specs.Says as spec;
ghost use Rattle.vec_text.specs.VectorFile.{IsValidVectorFile};

use crate::draft::Draft;
use crate::fault::{VecErr, VecFault};
use crate::file::VecFile;
use ae_base::TEXT_BYTES;
use ae_lex::{Style, WordLines, read_lines, word_lines};
use std::alloc::Global;

/// The fault of the whole text, at this stage of its draft and with or without an `end`.
fn whole_fault(stage: u32, ended: bool) -> Option<VecFault>
    ensures { result ≡ first_of (spec.whole_faults stage ended) }
{
    if stage == 0 {
        return Some(VecFault::NoHead);
    }
    if !ended {
        return Some(VecFault::NoEnd);
    }
    if stage < 5 {
        return Some(VecFault::OutOfOrder);
    }
    None
}

/// The file of a draft.
fn file_of(draft: Draft) -> VecFile
    requires { IsValidVectorFile draft.file }
    ensures { result ≡ draft.file }
{
    VecFile {
        form: draft.form,
        inputs: draft.inputs,
        outputs: draft.outputs,
        polarity: draft.polarity,
        esop: draft.esop,
        vectors: draft.vectors,
        unchanged: draft.unchanged,
    }
}

/// The file of a draft, or the fault of the whole text, which ends on the line of the number `end`, or has no end and so many lines.
fn finish(draft: Draft, end: Option<u32>, last: u32) -> Result<VecFile, VecErr>
    requires { first_of (spec.whole_faults draft.stage (is_some end)) ≡ None → IsValidVectorFile draft.file }
    ensures { Gives (judged (at_line (unwrap_or end last) (first_of (spec.whole_faults draft.stage (is_some end)))) draft.file) result }
{
    match whole_fault(draft.stage, end.is_some()) {
        Some(what) => Err(VecErr::At {
            line: end.unwrap_or(last),
            what,
        }),
        None => Ok(file_of(draft)),
    }
}

/// The vector file that a text says. The text has at most `TEXT_BYTES` bytes.
///
/// `At` carries exactly the first fault: that of the first faulty line in order, and only where no line that is read has one, that of the
/// whole text with the number of the last line that is read. Nothing is read after an `end`. `Memory` comes only for want of memory. The
/// text is a format of this project's own, whose rules `VecFault` names.
pub fn read_vec(alloc: Global, bytes: &[u8]) -> Result<VecFile, VecErr>
    requires { length bytes.now ≤ TEXT_BYTES }
    ensures { Gives (spec.vec_says bytes.now) result }
{
    let WordLines { list, last } = word_lines(alloc, bytes, Style::Pla)?;
    let mut draft = Draft::new(alloc);
    let end = read_lines(alloc, list.as_slice(), &mut draft)?;
    finish(draft, end, last)
}
