//! The text of a demo.
ghost use Rattle.std.specs.Prelude.{◌≡◌, ◌<◌, ◌++◌, ◌∷◌, [], ℕ, OnOk, IfOk, length};
ghost use Rattle.std.specs.Fmt.{decimal};
ghost use Rattle.ae_base.specs.Text.{text_of};
ghost use Rattle.demo_source.specs.Demo as spec;

use crate::rows::push_rows;
use crate::sizes::sizes_of;
use ae_base::{Form, Memory, push_word};
use polarity::Generator;
use std::alloc::Global;

/// Writes a line of a header and a number.
fn push_header(alloc: Global, out: &mut Vec<u8>, header: &[u8], number: u32) -> Result<(), Memory>
    ensures { OnOk result (out.new.items ≡ out.old.items ++ text_of ((header.now ∷ decimal number ∷ []) ∷ [])) }
{
    let digits = format!(in alloc; "{number}")?;
    out.extend_from_slice(header)?;
    push_word(out, digits.as_bytes())?;
    out.push(b'\n')?;
    Ok(())
}

/// The PLA text that is drawn from a seed, of the sizes for a form. `Memory` comes only for want of memory, and is the one error.
pub fn demo_text(alloc: Global, seed: u32, form: Form) -> Result<Vec<u8>, Memory>
    ensures { IfOk result (λ bytes. bytes.items ≡ spec.demo_text seed form) }
{
    let sizes = sizes_of(form);
    let mut out = Vec::new(alloc);
    push_header(alloc, &mut out, b".i", sizes.inputs)?;
    push_header(alloc, &mut out, b".o", sizes.outputs)?;
    push_rows(&mut out, &mut Generator::new(seed), sizes)?;
    out.extend_from_slice(b".e\n")?;
    Ok(out)
}
