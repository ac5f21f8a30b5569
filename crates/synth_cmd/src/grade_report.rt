//! The report of a grading or a check.
ghost use Rattle.std.specs.Prelude.{◌≡◌, ◌++◌, ◌∷◌, [], IfOk, OnOk, map};
ghost use Rattle.std.specs.List.{flat_map};
ghost use Rattle.ae_base.specs.Text.{text_of};
ghost use Rattle.synth_cmd.specs.Lines as spec;
ghost use Rattle.vec_text.specs.VectorFile.{place_words, value_word};

use crate::report::{push_count, push_number};
use crate::{DONE, SHORTFALL};
use ae_base::{Memory, push_word};
use grading::{GradeReport, Mode};
use named_faults::NamedFault;
use std::alloc::Global;
use vec_text::{PlaceName, line_law};

/// Writes the words of a fault site, each after a blank.
fn push_place(alloc: Global, out: &mut Vec<u8>, place: &PlaceName) -> Result<(), Memory>
    ensures { OnOk result (out.new.items ≡ out.old.items ++ flat_map (λ w. 32 ∷ w) (place_words place.now)) }
{
    match place {
        PlaceName::Stem(name) => {
            push_word(out, b"stem")?;
            push_word(out, name.bytes())
        }
        PlaceName::Pin(gate, k) => {
            push_word(out, b"pin")?;
            push_word(out, gate.bytes())?;
            push_number(alloc, out, *k as u64)
        }
        PlaceName::Port(name) => {
            push_word(out, b"port")?;
            push_word(out, name.bytes())
        }
    }
}

fn value_word(value: bool) -> &'static [u8]
    ensures { result.now ≡ value_word value }
{
    if value { b"1" } else { b"0" }
}

/// Writes the line of a missed fault.
fn push_miss(alloc: Global, out: &mut Vec<u8>, fault: &NamedFault) -> Result<(), Memory>
    ensures { OnOk result (out.new.items ≡ out.old.items ++ text_of (spec.miss_line fault.now ∷ [])) }
{
    out.extend_from_slice(b"miss")?;
    push_place(alloc, out, &fault.place)?;
    push_word(out, value_word(fault.value))?;
    out.push(b'\n')?;
    Ok(())
}

/// Writes the lines of missed faults.
fn push_misses(alloc: Global, out: &mut Vec<u8>, missed: &[NamedFault]) -> Result<(), Memory>
    ensures { OnOk result (out.new.items ≡ out.old.items ++ text_of (map spec.miss_line missed.now)) }
{
    for fault in missed {
        push_miss(alloc, out, fault)?;
    }
    Ok(())
}

/// Writes the lines of the numbers of faults that are left, and in a check that are proved undetectable.
fn push_left(
    alloc: Global,
    out: &mut Vec<u8>,
    mode: Mode,
    found: &GradeReport,
) -> Result<(), Memory>
    ensures { OnOk result (out.new.items ≡ out.old.items ++ text_of (spec.left_counts mode found.now)) }
{
    line_law();
    let left = found.left.len() as u64;
    match mode {
        Mode::Grade => push_count(alloc, out, b"missed", left),
        Mode::Check => {
            push_count(alloc, out, b"proved", found.proved)?;
            push_count(alloc, out, b"unproved", left)
        }
    }
}

/// Writes the lines of the numbers of faults.
fn push_faults(
    alloc: Global,
    out: &mut Vec<u8>,
    mode: Mode,
    found: &GradeReport,
) -> Result<(), Memory>
    ensures { OnOk result (out.new.items ≡ out.old.items ++ text_of (spec.fault_counts mode found.now)) }
{
    line_law();
    push_count(alloc, out, b"faults", found.faults)?;
    push_count(alloc, out, b"told", found.told)?;
    push_left(alloc, out, mode, found)
}

/// Writes the lines of the numbers.
fn push_counts(
    alloc: Global,
    out: &mut Vec<u8>,
    mode: Mode,
    found: &GradeReport,
) -> Result<(), Memory>
    ensures { OnOk result (out.new.items ≡ out.old.items ++ text_of (spec.grade_counts mode found.now)) }
{
    line_law();
    push_count(alloc, out, b"vectors", found.vectors)?;
    push_count(alloc, out, b"wrong", found.wrong)?;
    push_faults(alloc, out, mode, found)
}

/// The report of a grading or a check.
pub fn grade_report(alloc: Global, mode: Mode, found: &GradeReport) -> Result<Vec<u8>, Memory>
    ensures { IfOk result (λ bytes. bytes.items ≡ spec.grade_lines mode found.now) }
{
    line_law();
    let mut out = Vec::new(alloc);
    push_counts(alloc, &mut out, mode, found)?;
    push_misses(alloc, &mut out, found.left.as_slice())?;
    Ok(out)
}

/// The status of a report that is written: that of a shortfall where some response is wrong or some fault is left.
pub fn finding_status(wrong: u64, left: &[NamedFault]) -> u8
    ensures { result ≡ spec.finding_status wrong left.now }
{
    if 0 < wrong || !left.is_empty() {
        SHORTFALL
    } else {
        DONE
    }
}
