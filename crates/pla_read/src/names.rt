//! The default names of inputs and outputs.
ghost use Rattle.std.specs.Prelude.{◌≡◌, ◌∷◌, Some, length, true, IfOk, IfSome};
ghost use Rattle.std.specs.Fmt.{decimal};
ghost use Rattle.ae_base.specs.Name.{is_allowed};
ghost use Rattle.pla_read.specs.Pla as spec;
ghost use Rattle.pla_read.specs.Sound.{AreLabels};

use ae_base::{Memory, Name, Seq};
use std::alloc::Global;

/// The bytes of a letter and a number.
fn default_bytes(alloc: Global, letter: u8, number: u32) -> Result<Vec<u8>, Memory>
    ensures { IfOk result (λ bytes. bytes.items ≡ letter ∷ decimal number) }
{
    let text = format!(in alloc; "{number}")?;
    let mut bytes = Vec::new(alloc);
    bytes.push(letter)?;
    bytes.extend_from_slice(text.as_bytes())?;
    Ok(bytes)
}

/// The name of a letter and a number.
#[tactic(auto, using(crate::proofs::Defaults::default_is_name))]
fn default_name(alloc: Global, letter: u8, number: u32) -> Result<Name, Memory>
    requires { is_allowed letter ≡ true }
    ensures { IfOk result (λ name. name ≡ letter ∷ decimal number) }
{
    let bytes = default_bytes(alloc, letter, number)?;
    match Name::from_bytes(alloc, &bytes)? {
        Some(name) => Ok(name),
        None => unreachable!(),
    }
}

/// The names of a letter and the numbers from 1 to `count`.
fn default_names(alloc: Global, letter: u8, count: u32) -> Result<Seq<Name>, Memory>
    requires { is_allowed letter ≡ true }
    ensures { IfOk result (λ names. names ≡ spec.default_names letter count) }
{
    let mut names = Seq::new(alloc);
    for k in 0..count {
        names.push(default_name(alloc, letter, k + 1)?)?;
    }
    Ok(names)
}

/// The names that are said, or the default names.
#[tactic(auto, using(crate::proofs::Defaults::default_count))]
pub fn names_or(
    alloc: Global,
    names: Option<Seq<Name>>,
    letter: u8,
    count: u32,
) -> Result<Seq<Name>, Memory>
    requires letter { is_allowed letter ≡ true }
    requires count { IfSome names (λ names. length names ≡ count) }
    requires labels { IfSome names AreLabels }
    ensures names { IfOk result (λ found. found ≡ spec.names_or names letter (Some count)) }
    ensures count { IfOk result (λ found. length found ≡ count) }
    ensures labels { IfOk result AreLabels }
{
    match names {
        Some(names) => Ok(names),
        None => default_names(alloc, letter, count),
    }
}
