//! The gates of a text by their lines.
ghost use Rattle.std.specs.Prelude.{◌≡◌, ◌++◌, ◌∷◌, ◌+◌, ◌<◌, ◌^◌, length, map, drop, All, [], true, false, bytes_eq, MatchOption, IfOk, IfSome};
ghost use Rattle.ae_base.specs.Name.{is_name};
ghost use Rattle.blif_read.specs.Words.{pin_names};
ghost use Rattle.ae_lex.specs.declared.errors.TextErr.TheVariants as errors;
ghost use Rattle.blif_read.specs.declared.fault.BlifFault.TheVariants as fault;
ghost use Rattle.blif_read.specs.Seen.{Tells};
ghost use Rattle.blif_read.specs.Build as spec;
ghost use Rattle.blif_read.specs.Says.{undefined_output, undefined_pin};
ghost use Rattle.ae_lex.specs.Heads.{heads};
ghost use Rattle.ae_lex.specs.Slices.{texts};

use crate::fault::{BlifErr, BlifFault};
use crate::statement::is_word;
use crate::table::NameTable;
use ae_base::{Memory, Name, Seq};
use ae_lex::WordLine;
use std::alloc::Global;

/// A gate before all are placed: the place of its `.names` among the lines, and the signals of its pins in file order.
#[derive(Drop)]
pub struct Draft {
    pub line: usize,
    pub pins: Seq<u32>,
}

/// The signal of a name in file order, where it has one.
#[tactic(auto, using(crate::proofs::Tables::place_in_both))]
pub fn signal_of(inputs: &NameTable, driven: &NameTable, name: &Name) -> Option<u32>
    requires { length (inputs.now ++ driven.now) < 2 ^ 32 }
    ensures signal { result ≡ spec.signal_in (inputs.now ++ driven.now) name.now }
    ensures within { IfSome result (λ s. s < length inputs.now + length driven.now) }
{
    let count = inputs.len();
    if let Some(i) = inputs.place(name) {
        return Some(i as u32);
    }
    let g = driven.place(name)?;
    Some((count + g) as u32)
}

/// The signals of these words in file order, where each has one.
#[tactic(auto, using(crate::proofs::Signals::one_unknown, crate::proofs::Signals::one_more))]
fn signals_of(
    alloc: Global,
    inputs: &NameTable,
    driven: &NameTable,
    words: &[&[u8]],
) -> Result<Option<Seq<u32>>, Memory>
    requires { spec.AreSignals (inputs.now ++ driven.now) }
    ensures { IfOk result (λ found. found ≡ spec.signals_in (inputs.now ++ driven.now) (texts words.now)) }
{
    let mut signals = Seq::new(alloc);
    for word in words {
        let Some(signal) = signal_of_word(alloc, inputs, driven, word)? else {
            return Ok(None);
        };
        signals.push(signal)?;
    }
    Ok(Some(signals))
}

#[tactic(auto, using(crate::proofs::Tables::not_a_name))]
fn signal_of_word(
    alloc: Global,
    inputs: &NameTable,
    driven: &NameTable,
    word: &[u8],
) -> Result<Option<u32>, Memory>
    requires { spec.AreSignals (inputs.now ++ driven.now) }
    ensures { IfOk result (λ found. found ≡ spec.signal_in (inputs.now ++ driven.now) word.now) }
{
    let Some(name) = Name::from_bytes(alloc, word)? else {
        return Ok(None);
    };
    Ok(signal_of(inputs, driven, &name))
}

/// The words after the first of a line that begins with this word.
pub fn words_after<'a, 'b>(head: &[u8], words: &'a [&'b [u8]]) -> Option<&'a [&'b [u8]]>
    requires { bytes_eq [] head.now ≡ false }
    ensures { MatchOption result (heads head.now (texts words.now) ≡ false) (λ args. (heads head.now (texts words.now) ≡ true) × (texts args.now ≡ drop 1 (texts words.now))) }
{
    match words {
        [first, args @ ..] if is_word(first, head) => Some(args),
        _ => None,
    }
}

/// Of the words after `.names` those of the pins.
#[tactic(auto, using(crate::proofs::Words::pins_cut))]
fn pin_words<'a, 'b>(words: &'a [&'b [u8]]) -> &'a [&'b [u8]]
    ensures { texts result.now ≡ pin_names (texts words.now) }
{
    match words {
        [] => words,
        [pins @ .., _] => pins,
    }
}

/// A name of this line is undefined.
fn undefined_at(line: &WordLine<'_>) -> BlifErr
    ensures { result ≡ errors.At line.now.number fault.Undefined }
{
    BlifErr::At {
        line: line.number(),
        what: BlifFault::Undefined,
    }
}

/// Drafts the gate of the line at a place, if that is a `.names`.
fn draft_line(
    alloc: Global,
    place: usize,
    line: &WordLine<'_>,
    inputs: &NameTable,
    driven: &NameTable,
    drafts: &mut Seq<Draft>,
) -> Result<(), BlifErr>
    requires { spec.AreSignals (inputs.now ++ driven.now) }
    ensures { Tells (undefined_pin (inputs.now ++ driven.now) (line.now ∷ [])) (drafts.new ≡ drafts.old ++ spec.drafted (inputs.now ++ driven.now) place line.now.words) result }
{
    let Some(names) = words_after(b".names", line.words()) else {
        return Ok(());
    };
    match signals_of(alloc, inputs, driven, pin_words(names))? {
        Some(pins) => {
            drafts.push(Draft { line: place, pins })?;
            Ok(())
        }
        None => Err(undefined_at(line)),
    }
}

/// Checks that the names of a line are signals, if it is an `.outputs`.
fn check_line(
    alloc: Global,
    line: &WordLine<'_>,
    inputs: &NameTable,
    driven: &NameTable,
) -> Result<(), BlifErr>
    requires { spec.AreSignals (inputs.now ++ driven.now) }
    ensures { Tells (undefined_output (inputs.now ++ driven.now) (line.now ∷ [])) (Unit {0}) result }
{
    let Some(names) = words_after(b".outputs", line.words()) else {
        return Ok(());
    };
    match signals_of(alloc, inputs, driven, names)? {
        Some(_) => Ok(()),
        None => Err(undefined_at(line)),
    }
}

/// Drafts the gates of all lines, or answers the first that reads a name which nothing defines.
pub fn draft_gates(
    alloc: Global,
    lines: &[WordLine<'_>],
    inputs: &NameTable,
    driven: &NameTable,
    drafts: &mut Seq<Draft>,
) -> Result<(), BlifErr>
    requires signals { spec.AreSignals (inputs.now ++ driven.now) }
    requires none { drafts.old ≡ [] }
    ensures { Tells (undefined_pin (inputs.now ++ driven.now) lines.now) (drafts.new ≡ spec.drafts_of (inputs.now ++ driven.now) 0 lines.now) result }
{
    for (place, line) in lines.iter().enumerate() {
        draft_line(alloc, place, line, inputs, driven, drafts)?;
    }
    Ok(())
}

/// Checks that the names of all `.outputs` are signals.
pub fn check_outputs(
    alloc: Global,
    lines: &[WordLine<'_>],
    inputs: &NameTable,
    driven: &NameTable,
) -> Result<(), BlifErr>
    requires { spec.AreSignals (inputs.now ++ driven.now) }
    ensures { Tells (undefined_output (inputs.now ++ driven.now) lines.now) (Unit {0}) result }
{
    for line in lines {
        check_line(alloc, line, inputs, driven)?;
    }
    Ok(())
}
