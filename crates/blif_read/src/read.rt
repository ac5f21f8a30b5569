//! Reads a text line by line.
ghost use Rattle.std.specs.Prelude.{◌≡◌, ◌≤◌, [], Option, length};
ghost use Rattle.ae_lex.specs.First.{first_fault};
ghost use Rattle.ae_lex.specs.Reads.{Gives, words_of};
ghost use Rattle.blif_read.specs.Seen as spec;
ghost use Rattle.blif_read.specs.Seen.{Tells};
ghost use Rattle.blif_read.specs.Says.{Declared, faults, blif_says, model_says};

use crate::fault::{BlifErr, NetLimits};
use crate::net::net_said;
use crate::seen::Seen;
use ae_base::TEXT_BYTES;
use ae_lex::{LineErr, Style, WordLine, WordLines, word_lines};
use ae_net::Net;
use std::alloc::Global;

/// Reads the lines from the first on. `seen` is then what they say together.
pub fn read_lines(
    alloc: Global,
    limits: NetLimits,
    lines: &[WordLine<'_>],
    seen: &mut Seen,
) -> Result<(), BlifErr>
    ensures { (model : Option Declared) → seen.old ≡ spec.seen model [] → Tells (first_fault (faults limits model) [] lines.now) (seen.new ≡ spec.seen model (words_of lines.now)) result }
{
    for line in lines {
        match seen.read(alloc, limits, line.words()) {
            Ok(()) => {}
            Err(LineErr::Memory) => return Err(BlifErr::Memory),
            Err(LineErr::Fault(what)) => {
                return Err(BlifErr::At {
                    line: line.number(),
                    what,
                });
            }
        }
    }
    Ok(())
}

/// The network that the lines of a model say under the limits, in a text with so many physical lines, or their first fault.
pub fn read_model(
    alloc: Global,
    limits: NetLimits,
    lines: &[WordLine<'_>],
    last: u32,
) -> Result<Net, BlifErr>
    ensures { Gives (model_says limits last lines.now) result }
{
    let mut seen = Seen::new(alloc);
    read_lines(alloc, limits, lines, &mut seen)?;
    net_said(alloc, lines, last, &seen)
}

/// The network that a text says under the limits, with its gates in the order of placing, or its first fault.
///
/// `At` carries the line and the kind of the first fault of the lines in order; where none has one, that of the whole text. `Memory` comes
/// only for want of memory. What is read is combinational BLIF of one model, in the profile that `BlifFault` names.
#[tactic(auto, unfolding(crate::specs::Says::blif_says))]
pub fn read_blif(alloc: Global, bytes: &[u8], limits: NetLimits) -> Result<Net, BlifErr>
    requires { length bytes.now ≤ TEXT_BYTES }
    ensures { Gives (blif_says limits bytes.now) result }
{
    let WordLines { list, last } = word_lines(alloc, bytes, Style::Blif)?;
    read_model(alloc, limits, list.as_slice(), last)
}
