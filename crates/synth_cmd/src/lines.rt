//! The lines that tell a refusal or a fault.
ghost use Rattle.std.specs.Prelude.{◌≡◌, IfOk, string_bytes};
ghost use Rattle.synth_core.specs.Says.{text_fault_name};
ghost use Rattle.synth_cmd.specs.Lines as spec;
ghost use Rattle.vec_text.specs.Faults.{fault_name};

use std::alloc::{AllocError, Global};
use synth_core::TextFault;
use vec_text::VecFault;

/// Tells that a read of the file failed.
pub fn read_fault(alloc: Global, name: &str) -> Result<String, AllocError>
    ensures { IfOk result (λ line. string_bytes line ≡ spec.read_fault_line name.now) }
{
    format!(in alloc; "read fault: {name}\n")
}

/// Tells that a write of the file failed.
pub fn write_fault(alloc: Global, name: &str) -> Result<String, AllocError>
    ensures { IfOk result (λ line. string_bytes line ≡ spec.write_fault_line name.now) }
{
    format!(in alloc; "write fault: {name}\n")
}

/// Tells the first fault of the file's text, with its line.
pub fn refused(alloc: Global, name: &str, line: u32, what: TextFault) -> Result<String, AllocError>
    ensures { IfOk result (λ text. string_bytes text ≡ spec.refused_line name.now line (text_fault_name what)) }
{
    format!(in alloc; "refused: {name}: line {line}: {what}\n")
}

/// Tells the first fault of a vector text, with its line.
pub fn refused_vectors(
    alloc: Global,
    name: &str,
    line: u32,
    what: VecFault,
) -> Result<String, AllocError>
    ensures { IfOk result (λ text. string_bytes text ≡ spec.refused_line name.now line (fault_name what)) }
{
    format!(in alloc; "refused: {name}: line {line}: {what}\n")
}

/// Tells that the names of the vector file are not those of the netlist.
pub fn names_differ(alloc: Global, name: &str) -> Result<String, AllocError>
    ensures { IfOk result (λ line. string_bytes line ≡ spec.names_line name.now) }
{
    format!(in alloc; "refused: {name}: names differ\n")
}

/// Tells that the file is too long.
pub fn too_long(alloc: Global, name: &str) -> Result<String, AllocError>
    ensures { IfOk result (λ line. string_bytes line ≡ spec.too_long_line name.now) }
{
    format!(in alloc; "too long: {name}\n")
}

/// Tells that the polarity that is handed has another number of inputs than the source.
pub fn bit_count(alloc: Global, given: u32, wanted: u32) -> Result<String, AllocError>
    ensures { IfOk result (λ line. string_bytes line ≡ spec.bit_count_line given wanted) }
{
    format!(in alloc; "polarity: {given} bits for {wanted} inputs\n")
}

/// Tells the first output at which there are too many terms. Outputs are counted from 0, and printed from 1 on.
pub fn too_many_terms(alloc: Global, output: u32) -> Result<String, AllocError>
    ensures { IfOk result (λ line. string_bytes line ≡ spec.too_many_line output) }
{
    let number = output as u64 + 1;
    format!(in alloc; "too many terms: output {number}\n")
}
