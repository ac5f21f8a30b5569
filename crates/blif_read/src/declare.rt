//! The names that statements declare.
ghost use Rattle.std.specs.Prelude.{◌≡◌, ◌++◌, ◌∷◌, []};
ghost use Rattle.blif_read.specs.Says.{declared_faults, heading_faults, listed_faults};
ghost use Rattle.blif_read.specs.Seen.{declared_more};
ghost use Rattle.ae_lex.specs.Reads.{Takes};
ghost use Rattle.ae_lex.specs.Slices.{texts};

use crate::fault::{BlifFault, NetLimits};
use crate::statement::{most_lines, read_name};
use crate::table::NameTable;
use ae_lex::LineErr;
use std::alloc::Global;

/// What is declared: under which limits, whether it only repeats what the model declares, and the fault of the first name past the most.
#[derive(Clone, Copy)]
pub struct Kind {
    pub limits: NetLimits,
    pub in_part: bool,
    pub too_many: BlifFault,
}

/// Declares a name, which is to be none of the others and no gate.
fn add_name(
    alloc: Global,
    kind: Kind,
    others: &NameTable,
    gates: &NameTable,
    names: &mut NameTable,
    word: &[u8],
) -> Result<(), LineErr<BlifFault>>
    ensures { Takes (declared_faults kind.limits kind.too_many others.now gates.now names.old (word.now ∷ [])) (names.new ≡ names.old ++ word.now ∷ []) result }
{
    let Some(name) = read_name(alloc, kind.limits, word)? else {
        return Err(LineErr::Fault(BlifFault::BadName));
    };
    if names.has(&name) {
        return Err(LineErr::Fault(BlifFault::NameTwice));
    }
    if others.has(&name) {
        return Err(LineErr::Fault(BlifFault::OutputIsInput));
    }
    if gates.has(&name) {
        return Err(LineErr::Fault(BlifFault::DefinedTwice));
    }
    if names.len() >= most_lines(kind.limits) as usize {
        return Err(LineErr::Fault(kind.too_many));
    }
    names.push(name)?;
    Ok(())
}

/// Declares the words of `.inputs` or `.outputs`.
fn add_names(
    alloc: Global,
    kind: Kind,
    others: &NameTable,
    gates: &NameTable,
    names: &mut NameTable,
    words: &[&[u8]],
) -> Result<(), LineErr<BlifFault>>
    ensures { Takes (declared_faults kind.limits kind.too_many others.now gates.now names.old (texts words.now)) (names.new ≡ names.old ++ texts words.now) result }
{
    for word in words {
        add_name(alloc, kind, others, gates, names, word)?;
    }
    Ok(())
}

/// Checks that each word is one of the names.
fn check_names(
    alloc: Global,
    limits: NetLimits,
    names: &NameTable,
    words: &[&[u8]],
) -> Result<(), LineErr<BlifFault>>
    ensures { Takes (listed_faults limits names.now (texts words.now)) (Unit {0}) result }
{
    for word in words {
        check_name(alloc, limits, names, word)?;
    }
    Ok(())
}

fn check_name(
    alloc: Global,
    limits: NetLimits,
    names: &NameTable,
    word: &[u8],
) -> Result<(), LineErr<BlifFault>>
    ensures { Takes (listed_faults limits names.now (word.now ∷ [])) (Unit {0}) result }
{
    match read_name(alloc, limits, word)? {
        None => Err(LineErr::Fault(BlifFault::BadName)),
        Some(name) if !names.has(&name) => Err(LineErr::Fault(BlifFault::ExdcName)),
        Some(_) => Ok(()),
    }
}

/// Reads the words of `.inputs` or `.outputs`: it declares them, but in a don't care part they are to be among the names.
pub fn read_heading(
    alloc: Global,
    kind: Kind,
    others: &NameTable,
    gates: &NameTable,
    names: &mut NameTable,
    words: &[&[u8]],
) -> Result<(), LineErr<BlifFault>>
    ensures { Takes (heading_faults kind.limits kind.in_part kind.too_many others.now gates.now names.old (texts words.now)) (names.new ≡ declared_more kind.in_part names.old (texts words.now)) result }
{
    if kind.in_part {
        return check_names(alloc, kind.limits, names, words);
    }
    add_names(alloc, kind, others, gates, names, words)
}
