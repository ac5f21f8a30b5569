//! Reads a text that may have external don't cares.
ghost use Rattle.std.specs.Prelude.{◌≡◌, ◌<◌, ◌≤◌, ℕ, List, [], Ok, false, bytes_eq, length, position, take, IfSome};
ghost use Rattle.ae_lex.specs.Heads.{heads};
ghost use Rattle.ae_lex.specs.Reads.{Gives};
ghost use Rattle.ae_net.specs.NetSource.{NetSource, IsValidSource};
ghost use Rattle.blif_read.specs.Limits.{KeepsLimits};
ghost use Rattle.blif_read.specs.Says.{blif_says};
ghost use Rattle.blif_read.specs.SourceSays as spec;
ghost use Rattle.blif_read.specs.declared.fault.NetLimits.TheVariants.{Source as source_limits};

use crate::draft::words_after;
use crate::fault::{BlifErr, NetLimits};
use crate::net::{lines_after, net_said, part_said};
use crate::read::{read_lines, read_model};
use crate::seen::Seen;
use ae_base::TEXT_BYTES;
use ae_lex::{Style, WordLine, WordLines, word_lines};
use ae_net::Source;
use std::alloc::Global;

/// Whether a line begins with this word.
fn begins(head: &[u8], line: &WordLine<'_>) -> bool
    requires { bytes_eq [] head.now ≡ false }
    ensures { result ≡ heads head.now line.now.words }
{
    words_after(head, line.words()).is_some()
}

/// Whether a line is `.exdc` or `.end`.
fn ends_model(line: &WordLine<'_>) -> bool
    ensures { result ≡ spec.ends_model line.now.words }
{
    begins(b".exdc", line) || begins(b".end", line)
}

/// The place of the first line that is `.exdc` or `.end`.
fn model_end(lines: &[WordLine<'_>]) -> Option<usize>
    ensures { result ≡ position (λ line. spec.ends_model line.words) lines.now }
{
    lines.iter().position(|line| ends_model(line))
}

/// The place of the first `.exdc`, unless an `.end` stands before it.
fn exdc_place(lines: &[WordLine<'_>]) -> Option<usize>
    ensures place { result ≡ spec.exdc_place lines.now }
    ensures within { IfSome result (λ k. k < length lines.now) }
{
    let place = model_end(lines)?;
    if begins(b".exdc", &lines[place]) {
        Some(place)
    } else {
        None
    }
}

/// The lines before a place.
fn lines_before<'a, 'b>(lines: &'a [WordLine<'b>], place: usize) -> &'a [WordLine<'b>]
    requires { place < length lines.now }
    ensures { result.now ≡ take place lines.now }
{
    &lines[..place]
}

/// What the lines of a model and those of its don't care part say, in a text with so many physical lines.
fn read_both(
    alloc: Global,
    lines: &[WordLine<'_>],
    part: &[WordLine<'_>],
    last: u32,
) -> Result<Source, BlifErr>
    ensures { Gives (spec.both_say last lines.now part.now) result }
{
    let mut seen = Seen::new(alloc);
    read_lines(alloc, NetLimits::Source, lines, &mut seen)?;
    // A fault of the whole model comes after those of the lines of the part.
    let said = net_said(alloc, lines, last, &seen);
    let mut part_seen = seen.into_part(alloc);
    read_lines(alloc, NetLimits::Source, part, &mut part_seen)?;
    let net = said?;
    let free = part_said(alloc, part, &part_seen, net.model())?;
    Ok(Source {
        net,
        free: Some(free),
    })
}

/// The network that a text says under the limits of a source, with its external don't cares (`.exdc`) where it has them, or its first fault.
///
/// The lines after `.exdc` are read as those of a network too, which has the inputs and outputs of the model before it: where it shows 1
/// at an output, that output is free. An output that it does not drive is nowhere free. `At` carries the line and the kind of the first
/// fault of the lines in order; where none has one, that of the whole model, and then that of the whole part. `Memory` comes only for want
/// of memory.
#[tactic(auto, unfolding(crate::specs::SourceSays::source_says))]
pub fn read_source(alloc: Global, bytes: &[u8]) -> Result<Source, BlifErr>
    requires { length bytes.now ≤ TEXT_BYTES }
    ensures { Gives (spec.source_says bytes.now) result }
{
    let WordLines { list, last } = word_lines(alloc, bytes, Style::Blif)?;
    let lines = list.as_slice();
    match exdc_place(lines) {
        Some(place) => read_both(
            alloc,
            lines_before(lines, place),
            lines_after(lines, place),
            last,
        ),
        None => Ok(Source {
            net: read_model(alloc, NetLimits::Source, lines, last)?,
            free: None,
        }),
    }
}

/// What holds of what a text says: where it says a source, that is valid and within the limits of a source. Without a `.exdc` before its
/// end it says what `read_blif` reads under those limits.
///
/// The function does nothing: its contract is the law, and a caller has it after the call.
pub fn source_law()
    ensures valid { (text : List ℕ) (s : NetSource) → spec.source_says text ≡ Ok s → IsValidSource s }
    ensures keeps { (text : List ℕ) (s : NetSource) → spec.source_says text ≡ Ok s → KeepsLimits source_limits s.net }
    ensures plain { (text : List ℕ) → spec.has_exdc text ≡ false → spec.source_says text ≡ spec.as_source (blif_says source_limits text) }
{}
