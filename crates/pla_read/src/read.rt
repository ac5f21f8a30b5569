//! Reads a PLA text.
ghost use Rattle.std.specs.Prelude.{◌≡◌, ◌≤◌, length};
ghost use Rattle.ae_cover.specs.Clash.{has_clash};
ghost use Rattle.ae_cover.specs.Cover.{IsCover};
ghost use Rattle.ae_lex.specs.First.{first_of, at_line, judged};
ghost use Rattle.ae_lex.specs.Reads.{Gives};
ghost use Rattle.pla_read.specs.Pla as spec;
ghost use Rattle.pla_read.specs.Seen.{table_of};

use crate::draft::Draft;
use crate::fault::{PlaErr, PlaFault};
use crate::names::names_or;
use ae_base::{TEXT_BYTES, share};
use ae_cover::{Cover, Kind, clash_laws};
use ae_lex::{Style, WordLines, read_lines, word_lines};
use std::alloc::Global;

/// Whether two rows of a cover clash.
fn has_clash(cover: &Cover) -> bool
    requires { IsCover cover.now }
    ensures { result ≡ has_clash cover.now }
{
    clash_laws();
    cover.first_clash().is_some()
}

/// The cover of a draft, or the first fault of the whole text, whose last line that is read has this number.
#[tactic(auto, unfolding(crate::specs::Seen::table_of))]
fn finish(alloc: Global, draft: Draft, line: u32) -> Result<Cover, PlaErr>
    ensures { Gives (judged (at_line line (first_of (spec.whole_faults draft.inputs draft.outputs (table_of draft)))) (table_of draft)) result }
{
    let Draft {
        inputs,
        outputs,
        input_names,
        output_names,
        kind,
        rows,
    } = draft;
    let Some(n) = inputs else {
        return Err(PlaErr::At {
            line,
            what: PlaFault::NoI,
        });
    };
    let Some(m) = outputs else {
        return Err(PlaErr::At {
            line,
            what: PlaFault::NoO,
        });
    };
    let inputs = names_or(alloc, input_names, b'x', n)?;
    let outputs = names_or(alloc, output_names, b'f', m)?;
    if share(inputs.as_slice(), outputs.as_slice()) {
        return Err(PlaErr::At {
            line,
            what: PlaFault::NameTwice,
        });
    }
    let cover = Cover {
        inputs,
        outputs,
        kind: kind.unwrap_or(Kind::Fd),
        rows,
    };
    if has_clash(&cover) {
        return Err(PlaErr::At {
            line,
            what: PlaFault::Clash,
        });
    }
    Ok(cover)
}

/// The cover that a PLA text says. The text has at most `TEXT_BYTES` bytes.
///
/// `At` carries exactly the first fault: that of the first faulty line, and only where no line that is read has one, the
/// first of the whole text with the number of the last line that is read. `Memory` comes only for want of memory.
pub fn read_pla(alloc: Global, bytes: &[u8]) -> Result<Cover, PlaErr>
    requires { length bytes.now ≤ TEXT_BYTES }
    ensures { Gives (spec.pla_says bytes.now) result }
{
    let WordLines { list, last } = word_lines(alloc, bytes, Style::Pla)?;
    let mut draft = Draft::new(alloc);
    let end = read_lines(alloc, list.as_slice(), &mut draft)?;
    finish(alloc, draft, end.unwrap_or(last))
}
