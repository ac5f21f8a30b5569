//! The lines of undetectable faults.
ghost use Rattle.std.specs.Prelude.{not, ◌||◌, [], ◌∷◌, if◌then◌else◌, codes, bytes_eq};
ghost use Rattle.ae_base.specs.Name.{is_name};
ghost use Rattle.ae_lex.specs.Slices.{texts};
ghost use Rattle.vec_text.specs.declared.fault.VecFault.TheVariants as fault;
ghost use Rattle.vec_text.specs.declared.file.PlaceName.TheVariants as places;
ghost use Rattle.vec_text.specs.Seen.{Finds, idle_faults, named_faults, named_said, pin_faults, pin_said};
ghost use Rattle.vec_text.specs.Words as spec;

use crate::fault::VecFault;
use crate::file::{Idle, PlaceName, Shown};
use crate::words::{is_word, read_count, read_shown, read_value};
use ae_base::{Name, PINS};
use ae_lex::LineErr;
use std::alloc::Global;

fn read_name(alloc: Global, word: &[u8]) -> Result<Name, LineErr<VecFault>>
    ensures { Finds ((not (is_name word.now), fault.BadPlace) ∷ []) word.now result }
{
    match Name::from_bytes(alloc, word)? {
        Some(name) => Ok(name),
        None => Err(LineErr::Fault(VecFault::BadPlace)),
    }
}

/// What a file shows of an undetectable fault.
fn read_evidence(alloc: Global, word: &[u8]) -> Result<Shown, LineErr<VecFault>>
    ensures { Finds ((not (spec.is_tree word.now), fault.BadEvidence) ∷ []) (spec.shown_said word.now) result }
{
    match read_shown(alloc, word)? {
        Some(shown) => Ok(shown),
        None => Err(LineErr::Fault(VecFault::BadEvidence)),
    }
}

/// The place of a kind and a name.
fn place_of(kind: &[u8], name: Name) -> Result<PlaceName, LineErr<VecFault>>
    ensures { Finds ((not (bytes_eq kind.now (codes "stem") || bytes_eq kind.now (codes "port")), fault.BadPlace) ∷ [])
        (if bytes_eq kind.now (codes "stem") then places.Stem name else places.Port name) result }
{
    match kind {
        b"stem" => Ok(PlaceName::Stem(name)),
        b"port" => Ok(PlaceName::Port(name)),
        _ => Err(LineErr::Fault(VecFault::BadPlace)),
    }
}

/// A fault at a stem or a port.
fn read_named(
    alloc: Global,
    kind: &[u8],
    name: &[u8],
    value: &[u8],
    tree: &[u8],
) -> Result<Idle, LineErr<VecFault>>
    ensures { Finds (named_faults kind.now name.now value.now tree.now) (named_said kind.now name.now value.now tree.now) result }
{
    let Some(value) = read_value(value) else {
        return Err(LineErr::Fault(VecFault::BadPlace));
    };
    let place = place_of(kind, read_name(alloc, name)?)?;
    let shown = read_evidence(alloc, tree)?;
    Ok(Idle {
        place,
        value,
        shown,
    })
}

/// A fault at the pin of this number.
fn read_pin(
    alloc: Global,
    gate: &[u8],
    number: &[u8],
    value: &[u8],
    tree: &[u8],
) -> Result<Idle, LineErr<VecFault>>
    ensures { Finds (pin_faults gate.now number.now value.now tree.now) (pin_said gate.now number.now value.now tree.now) result }
{
    let Some(value) = read_value(value) else {
        return Err(LineErr::Fault(VecFault::BadPlace));
    };
    let gate = read_name(alloc, gate)?;
    let Some(k) = read_count(PINS, number) else {
        return Err(LineErr::Fault(VecFault::BadNumber));
    };
    let shown = read_evidence(alloc, tree)?;
    Ok(Idle {
        place: PlaceName::Pin(gate, k),
        value,
        shown,
    })
}

/// The undetectable fault that the words after `unchanged` say.
pub fn read_idle(alloc: Global, words: &[&[u8]]) -> Result<Idle, LineErr<VecFault>>
    ensures { Finds (idle_faults (texts words.now)) (spec.idle_said (texts words.now)) result }
{
    match words {
        [kind, name, value, tree] => read_named(alloc, kind, name, value, tree),
        [kind, gate, number, value, tree] => {
            if !is_word(kind, b"pin") {
                return Err(LineErr::Fault(VecFault::BadPlace));
            }
            read_pin(alloc, gate, number, value, tree)
        }
        _ => Err(LineErr::Fault(VecFault::BadPlace)),
    }
}
