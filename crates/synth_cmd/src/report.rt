//! The report of a synthesis.
ghost use Rattle.std.specs.Prelude.{◌≡◌, ◌++◌, ◌∷◌, [], codes, IfOk, OnOk};
ghost use Rattle.std.specs.Fmt.{decimal};
ghost use Rattle.ae_base.specs.Text.{text_of};
ghost use Rattle.synth_cmd.specs.Lines as spec;

use ae_base::{Memory, push_word};
use std::alloc::Global;
use synth_core::Summary;
use vec_text::{line_law, push_form, push_polarity};

/// Writes a blank and a number.
pub fn push_number(alloc: Global, out: &mut Vec<u8>, number: u64) -> Result<(), Memory>
    ensures { OnOk result (out.new.items ≡ out.old.items ++ 32 ∷ decimal number) }
{
    let digits = format!(in alloc; "{number}")?;
    push_word(out, digits.as_bytes())
}

/// Writes the line of the source's inputs and outputs.
fn push_sizes(alloc: Global, out: &mut Vec<u8>, inputs: u32, outputs: u32) -> Result<(), Memory>
    ensures { OnOk result (out.new.items ≡ out.old.items ++ text_of ((codes "inputs" ∷ decimal inputs ∷ codes "outputs" ∷ decimal outputs ∷ []) ∷ [])) }
{
    out.extend_from_slice(b"inputs")?;
    push_number(alloc, out, inputs as u64)?;
    out.extend_from_slice(b" outputs")?;
    push_number(alloc, out, outputs as u64)?;
    out.push(b'\n')?;
    Ok(())
}

/// Writes a line of a word and a number.
pub fn push_count(alloc: Global, out: &mut Vec<u8>, word: &[u8], number: u64) -> Result<(), Memory>
    ensures { OnOk result (out.new.items ≡ out.old.items ++ text_of ((word.now ∷ decimal number ∷ []) ∷ [])) }
{
    line_law();
    out.extend_from_slice(word)?;
    push_number(alloc, out, number)?;
    out.push(b'\n')?;
    Ok(())
}

/// Writes the line of the number of cubes, where the form has some.
fn push_cubes(alloc: Global, out: &mut Vec<u8>, summary: &Summary) -> Result<(), Memory>
    ensures { OnOk result (out.new.items ≡ out.old.items ++ text_of (spec.cubes_lines summary.now.form summary.now)) }
{
    if summary.form.features().cubes {
        push_count(alloc, out, b"cubes", summary.cubes)
    } else {
        Ok(())
    }
}

/// Writes the lines of the numbers of a network and its vectors.
fn push_net(alloc: Global, out: &mut Vec<u8>, summary: &Summary) -> Result<(), Memory>
    ensures { OnOk result (out.new.items ≡ out.old.items ++ text_of (spec.net_lines summary.now)) }
{
    line_law();
    push_count(alloc, out, b"gates", summary.gates)?;
    push_count(alloc, out, b"faults", summary.faults)?;
    push_count(alloc, out, b"vectors", summary.vectors)?;
    push_count(alloc, out, b"unchanged", summary.unchanged)?;
    Ok(())
}

/// Writes the lines of the numbers.
fn push_counts(alloc: Global, out: &mut Vec<u8>, summary: &Summary) -> Result<(), Memory>
    ensures { OnOk result (out.new.items ≡ out.old.items ++ text_of (spec.count_lines summary.now)) }
{
    line_law();
    push_count(alloc, out, b"terms", summary.terms)?;
    push_cubes(alloc, out, summary)?;
    push_net(alloc, out, summary)?;
    Ok(())
}

/// The report of a synthesis.
pub fn report(alloc: Global, summary: Summary) -> Result<Vec<u8>, Memory>
    ensures { IfOk result (λ bytes. bytes.items ≡ spec.report_lines summary) }
{
    line_law();
    let mut out = Vec::new(alloc);
    push_form(&mut out, summary.form)?;
    push_sizes(alloc, &mut out, summary.inputs, summary.outputs)?;
    push_polarity(&mut out, summary.polarity)?;
    push_counts(alloc, &mut out, &summary)?;
    Ok(out)
}
