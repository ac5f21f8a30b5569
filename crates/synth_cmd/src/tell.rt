//! What the report takes at the end of a call.
ghost use Rattle.std.specs.Prelude.{◌≡◌, ◌≤◌, ℕ, List, string_bytes, IfOk};
ghost use Rattle.ae_outside.specs.Files.{TookFront};
ghost use Rattle.synth_cmd.specs.Lines as spec;
ghost use Rattle.synth_cmd.specs.Lines.{memory_line, status_of, line_of};
ghost use Rattle.synth_cmd.specs.Telling.{Reports, Tells, TellsStop};

use crate::grade_report::{finding_status, grade_report};
use crate::report::report as report_of;
use crate::stop::{Fault, Refusal, Stop};
use crate::{
    DONE, MEMORY, READ_FAULT, REFUSED, TOO_LONG, TOO_MANY_TERMS, WORDS, WRITE_FAULT, lines,
};
use ae_outside::{Sink, WriteErr, file_laws, put_all};
use grading::{GradeReport, Mode};
use std::alloc::{AllocError, Global};
use synth_core::Summary;

/// Tells that memory is wanting.
pub fn want_memory<K: Sink>(report: &mut K) -> u8
    ensures status { result ≡ MEMORY }
    ensures told { TookFront memory_line (K.taken report.old) (K.taken report.new) }
    ensures counts { K.faults report.old ≤ K.faults report.new }
{
    let _ = put_all(report, b"want of memory\n");
    MEMORY
}

/// Tells a line and answers the status, or that of memory. A fault of the report changes no status.
fn tell<K: Sink>(report: &mut K, line: &[u8], status: u8) -> u8
    ensures told { Tells line.now status (K.taken report.old) (K.taken report.new) (K.faults report.old) (K.faults report.new) result }
    ensures counts { K.faults report.old ≤ K.faults report.new }
{
    file_laws();
    match put_all(report, line) {
        Ok(()) => status,
        Err(WriteErr::Fault) => status,
        Err(WriteErr::Memory) => want_memory(report),
    }
}

/// Tells a line that is made, and answers the status, or that of memory.
fn tell_made<K: Sink>(report: &mut K, line: Result<String, AllocError>, status: u8) -> u8
    ensures told { (text : List ℕ) → IfOk line (λ made. string_bytes made ≡ text) → Tells text status (K.taken report.old) (K.taken report.new) (K.faults report.old) (K.faults report.new) result }
    ensures counts { K.faults report.old ≤ K.faults report.new }
{
    match line {
        Ok(line) => tell(report, line.as_bytes(), status),
        Err(_) => want_memory(report),
    }
}

/// Tells the first fault of a text.
fn refuse_text<K: Sink>(alloc: Global, report: &mut K, file: &str, line: u32, what: Fault) -> u8
    ensures told { Tells (spec.refused_line file.now line (spec.fault_name what)) REFUSED (K.taken report.old) (K.taken report.new) (K.faults report.old) (K.faults report.new) result }
    ensures counts { K.faults report.old ≤ K.faults report.new }
{
    match what {
        Fault::Source(what) => {
            tell_made(report, lines::refused(alloc, file, line, what), REFUSED)
        }
        Fault::Vectors(what) => tell_made(
            report,
            lines::refused_vectors(alloc, file, line, what),
            REFUSED,
        ),
    }
}

/// Tells what was refused and why, and answers the refusal's status, or that of memory.
pub fn refuse<K: Sink>(alloc: Global, report: &mut K, refusal: Refusal<'_>) -> u8
    ensures told { Tells (line_of refusal.entry) (status_of refusal.entry) (K.taken report.old) (K.taken report.new) (K.faults report.old) (K.faults report.new) result }
    ensures counts { K.faults report.old ≤ K.faults report.new }
{
    match refusal {
        Refusal::Words => tell(
            report,
            b"usage: andexor synth IN NET VEC, grade NET VEC, check NET VEC, demo NUMBER NET VEC\n",
            WORDS,
        ),
        Refusal::ReadFault { file } => {
            tell_made(report, lines::read_fault(alloc, file), READ_FAULT)
        }
        Refusal::TooLong { file } => tell_made(report, lines::too_long(alloc, file), TOO_LONG),
        Refusal::Text { file, line, what } => refuse_text(alloc, report, file, line, what),
        Refusal::NamesDiffer { file } => {
            tell_made(report, lines::names_differ(alloc, file), REFUSED)
        }
        Refusal::BitCount { given, wanted } => {
            tell_made(report, lines::bit_count(alloc, given, wanted), WORDS)
        }
        Refusal::TooManyTerms { output } => tell_made(
            report,
            lines::too_many_terms(alloc, output),
            TOO_MANY_TERMS,
        ),
    }
}

/// Tells why a command stops, and answers the status of the cause, or that of memory.
pub fn tell_stop<K: Sink>(alloc: Global, report: &mut K, stop: Stop<'_>) -> u8
    ensures told { TellsStop stop.entry (K.taken report.old) (K.taken report.new) (K.faults report.old) (K.faults report.new) result }
    ensures counts { K.faults report.old ≤ K.faults report.new }
{
    match stop {
        Stop::Refused(refusal) => refuse(alloc, report, refusal),
        Stop::WriteFault { file } => {
            tell_made(report, lines::write_fault(alloc, file), WRITE_FAULT)
        }
        Stop::Memory => want_memory(report),
    }
}

/// Writes a report, and answers the status, or that of a write fault or of memory.
fn put_report<K: Sink>(report: &mut K, text: &[u8], status: u8) -> u8
    ensures told { Reports text.now status (K.taken report.old) (K.taken report.new) (K.faults report.old) (K.faults report.new) result }
    ensures counts { K.faults report.old ≤ K.faults report.new }
{
    file_laws();
    match put_all(report, text) {
        Ok(()) => status,
        Err(WriteErr::Fault) => WRITE_FAULT,
        Err(WriteErr::Memory) => want_memory(report),
    }
}

/// Reports a synthesis.
pub fn finish<K: Sink>(alloc: Global, report: &mut K, summary: Summary) -> u8
    ensures told { Reports (spec.report_lines summary) DONE (K.taken report.old) (K.taken report.new) (K.faults report.old) (K.faults report.new) result }
    ensures counts { K.faults report.old ≤ K.faults report.new }
{
    match report_of(alloc, summary) {
        Ok(text) => put_report(report, &text, DONE),
        Err(_) => want_memory(report),
    }
}

/// Reports a grading or a check.
pub fn finish_grade<K: Sink>(alloc: Global, report: &mut K, mode: Mode, found: &GradeReport) -> u8
    ensures told { Reports (spec.grade_lines mode found.now) (spec.finding_status found.now.wrong found.now.left) (K.taken report.old) (K.taken report.new) (K.faults report.old) (K.faults report.new) result }
    ensures counts { K.faults report.old ≤ K.faults report.new }
{
    match grade_report(alloc, mode, found) {
        Ok(text) => put_report(
            report,
            &text,
            finding_status(found.wrong, found.left.as_slice()),
        ),
        Err(_) => want_memory(report),
    }
}
