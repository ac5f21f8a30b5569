//! The rows of a demo.
ghost use Rattle.std.specs.Prelude.{◌≡◌, ◌+◌, ◌*◌, ◌++◌, ◌∷◌, [], map, OnOk};
ghost use Rattle.std.specs.List.{range_with_len};
ghost use Rattle.ae_base.specs.Text.{text_of};
ghost use Rattle.polarity.specs.Draws.{after_draws};
ghost use Rattle.demo_source.specs.Demo as spec;
ghost use Rattle.demo_source.specs.Rows.{row_from};

use crate::sizes::Sizes;
use ae_base::Memory;
use polarity::Generator;

/// The character of an input: half of all draws give no literal.
fn input_char(draw: u32) -> u8
    ensures { result ≡ spec.input_char draw }
{
    match draw {
        0 => b'0',
        1 => b'1',
        _ => b'-',
    }
}

/// The character of an output: one draw of four gives a `1`.
fn output_char(draw: u32) -> u8
    ensures { result ≡ spec.output_char draw }
{
    if draw == 0 { b'1' } else { b'0' }
}

fn push_inputs(out: &mut Vec<u8>, generator: &mut Generator, count: u32) -> Result<(), Memory>
    ensures text { OnOk result (out.new.items ≡ out.old.items ++ spec.characters spec.input_char generator.old 0 count) }
    ensures state { OnOk result (generator.new ≡ after_draws count generator.old) }
{
    for _ in 0..count {
        out.push(input_char(generator.draw()))?;
    }
    Ok(())
}

fn push_outputs(out: &mut Vec<u8>, generator: &mut Generator, count: u32) -> Result<(), Memory>
    ensures text { OnOk result (out.new.items ≡ out.old.items ++ spec.characters spec.output_char generator.old 0 count) }
    ensures state { OnOk result (generator.new ≡ after_draws count generator.old) }
{
    for _ in 0..count {
        out.push(output_char(generator.draw()))?;
    }
    Ok(())
}

/// Writes the line of a row.
fn push_row(out: &mut Vec<u8>, generator: &mut Generator, sizes: Sizes) -> Result<(), Memory>
    ensures text { OnOk result (out.new.items ≡ out.old.items ++ text_of (row_from sizes.inputs sizes.outputs generator.old ∷ [])) }
    ensures state { OnOk result (generator.new ≡ after_draws (sizes.inputs + sizes.outputs) generator.old) }
{
    push_inputs(out, generator, sizes.inputs)?;
    out.push(b' ')?;
    push_outputs(out, generator, sizes.outputs)?;
    out.push(b'\n')?;
    Ok(())
}

/// Writes the lines of so many rows, each from the draws after those of the row before it.
pub fn push_rows(out: &mut Vec<u8>, generator: &mut Generator, sizes: Sizes) -> Result<(), Memory>
    ensures { OnOk result (out.new.items ≡ out.old.items ++ text_of (map (spec.demo_row sizes.inputs sizes.outputs generator.old) (range_with_len 0 sizes.rows))) }
{
    for _ in 0..sizes.rows {
        push_row(out, generator, sizes)?;
    }
    Ok(())
}
