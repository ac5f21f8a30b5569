//! What the words of a line are.
ghost use Rattle.std.specs.Prelude.{◌≡◌, ◌∷◌, List, bytes_eq, if◌then◌else◌, Some, None, IfOk};
ghost use Rattle.std.specs.List.{list_all, concat};
ghost use Rattle.ae_base.specs.Twins.{is_among};
ghost use Rattle.blif_read.specs.Says.{other_faults};
ghost use Rattle.blif_read.specs.Words as words;
ghost use Rattle.ae_lex.specs.First.{first_of};
ghost use Rattle.ae_lex.specs.Heads.{Word};
ghost use Rattle.ae_lex.specs.Slices.{texts};

use crate::fault::{BlifFault, NetLimits};
use ae_base::{
    Memory, Name, SOURCE_LINES, WRITTEN_LINES, are_literals, is_bit, is_name, is_source_name,
};
use ae_lex::is_one_of;
use std::alloc::Global;

/// The most inputs, and the most outputs.
pub fn most_lines(limits: NetLimits) -> u32
    ensures { result ≡ words.most_lines limits }
{
    match limits {
        NetLimits::Source => SOURCE_LINES,
        NetLimits::Written => WRITTEN_LINES,
    }
}

/// Whether a word is a name under the limits.
fn is_name_under(limits: NetLimits, word: &[u8]) -> bool
    ensures { result ≡ words.is_name_under limits word.now }
{
    match limits {
        NetLimits::Source => is_source_name(word),
        NetLimits::Written => is_name(word),
    }
}

/// Whether each word is a name under the limits.
pub fn are_names(limits: NetLimits, line: &[&[u8]]) -> bool
    ensures { result ≡ list_all (words.is_name_under limits) (texts line.now) }
{
    line.iter().all(|word| is_name_under(limits, word))
}

/// The name that a word is under the limits, if it is one.
#[tactic(auto, using(crate::proofs::Words::name_under))]
pub fn read_name(alloc: Global, limits: NetLimits, word: &[u8]) -> Result<Option<Name>, Memory>
    ensures { IfOk result (λ found. found ≡ (if words.is_name_under limits word.now then Some word.now else None)) }
{
    if !is_name_under(limits, word) {
        return Ok(None);
    }
    Ok(Some(Name::known(alloc, word)?))
}

/// Statements of the format that are not read.
static UNSUPPORTED: [&[u8]; 19] = [
    b".latch",
    b".mlatch",
    b".subckt",
    b".gate",
    b".search",
    b".exdc",
    b".clock",
    b".area",
    b".delay",
    b".wire",
    b".wire_load_slope",
    b".input_arrival",
    b".output_required",
    b".default_input_arrival",
    b".default_output_required",
    b".start_kiss",
    b".end_kiss",
    b".latch_order",
    b".code",
];

/// Whether a word is this one.
pub fn is_word(word: &[u8], other: &[u8]) -> bool
    ensures { result ≡ bytes_eq word.now other.now }
{
    word == other
}

/// Whether a statement with this first word is one of the format that is not read.
fn is_unsupported(word: &[u8]) -> bool
    ensures { result ≡ is_among word.now words.unsupported }
{
    is_one_of(word, &UNSUPPORTED)
}

/// What is wrong with a statement with this first word, which is none of those that are read.
pub fn other_fault(in_part: bool, head: &[u8]) -> BlifFault
    ensures { (words : List Word) → first_of (other_faults in_part (head.now ∷ words)) ≡ Some result }
{
    if in_part && is_word(head, b".exdc") {
        return BlifFault::ExdcTwice;
    }
    if is_unsupported(head) {
        return BlifFault::Unsupported;
    }
    BlifFault::Unknown
}

/// The characters of a row: those of its words, one after the other.
#[tactic(auto, using(crate::proofs::Words::joined_more))]
pub fn joined(alloc: Global, words: &[&[u8]]) -> Result<Vec<u8>, Memory>
    ensures { IfOk result (λ chars. chars.items ≡ concat (texts words.now)) }
{
    let mut chars = Vec::new(alloc);
    for word in words {
        chars.extend_from_slice(word)?;
    }
    Ok(chars)
}

/// Whether these are the characters of a row over so many pins.
pub fn is_row(pins: usize, chars: &[u8]) -> bool
    ensures { result ≡ words.is_row pins chars.now }
{
    if chars.is_empty() {
        return false;
    }
    if chars.len() - 1 != pins {
        return false;
    }
    if !are_literals(&chars[..pins]) {
        return false;
    }
    is_bit(chars[pins])
}

/// The last character.
pub fn row_end(chars: &[u8]) -> u8
    ensures { result ≡ words.row_end chars.now }
{
    if chars.is_empty() {
        return 0;
    }
    chars[chars.len() - 1]
}
