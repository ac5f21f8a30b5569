//! Pieces of the texts that are written.
ghost use Rattle.std.specs.Prelude.{◌≡◌, ◌++◌, ◌∷◌, [], length, OnOk};
ghost use Rattle.std.specs.List.{flat_map};
ghost use Rattle.ae_base.specs.Text as spec;

use crate::mask::Mask;
use crate::memory::Memory;
use crate::name::Name;

/// Writes a blank and a word. After want of memory some of it may stand.
pub fn push_word(out: &mut Vec<u8>, word: &[u8]) -> Result<(), Memory>
    ensures { OnOk result (out.new.items ≡ out.old.items ++ 32 ∷ word.now) }
{
    out.push(b' ')?;
    out.extend_from_slice(word)?;
    Ok(())
}

/// Writes names, each after a blank. After want of memory some of them may stand.
pub fn push_names(out: &mut Vec<u8>, names: &[Name]) -> Result<(), Memory>
    ensures { OnOk result (out.new.items ≡ out.old.items ++ flat_map (λ w. 32 ∷ w) names.now) }
{
    for name in names {
        push_word(out, name.bytes())?;
    }
    Ok(())
}

fn digit(bit: bool) -> u8
    ensures { result ≡ spec.digit bit }
{
    if bit { b'1' } else { b'0' }
}

/// Writes a digit for each number below `n`: 1 where it is a member. After want of memory some of them may stand.
pub fn push_bits(out: &mut Vec<u8>, n: u32, bits: Mask) -> Result<(), Memory>
    ensures { OnOk result (out.new.items ≡ out.old.items ++ spec.bits_of n bits) }
{
    for j in 0..n {
        out.push(digit(bits.has(j)))?;
    }
    Ok(())
}
