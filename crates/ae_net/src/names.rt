//! Names of a source, and inner names.
ghost use Rattle.std.specs.Prelude.{map, ◌++◌, ◌≡◌, true, ◌≤◌, ◌<◌, ◌+◌, [], ◌∷◌, IfOk};
ghost use Rattle.std.specs.Fmt.{decimal};
ghost use Rattle.ae_base.specs.Name.{is_name};
ghost use Rattle.ae_net.specs.Lead as lead_spec;
ghost use Rattle.ae_net.specs.Names as spec;

use ae_base::{Memory, Name, SOURCE_NAME_BYTES, Seq};
use std::alloc::Global;
use std::marker::Model;

/// The names of a source: from 1 to `SOURCE_LINES` inputs and as many outputs at most, whose names differ from each other and have at most
/// `SOURCE_NAME_BYTES` bytes each.
#[derive(Drop)]
pub struct NetNames {
    pub model: Name,
    pub inputs: Seq<Name>,
    pub outputs: Seq<Name>,
}

impl Model for NetNames {
    ghost use Rattle.ae_net.specs.Names.{Names, IsNames};

    ghost Value = { Names };

    ghost view = { λ n. record { model = n.model; inputs = n.inputs; outputs = n.outputs } };

    ghost invariant = { λ n. IsNames (record { model = n.model; inputs = n.inputs; outputs = n.outputs }) };
}

impl NetNames {
    ghost use Rattle.ae_net.specs.Names.{IsNames};

    /// The name of the model.
    pub fn model(&self) -> &Name
        ensures model { result.now ≡ self.now.model }
        ensures valid { IsNames self.now }
    {
        &self.model
    }

    /// The names of the inputs, in order.
    pub fn inputs(&self) -> &[Name]
        ensures inputs { result.now ≡ self.now.inputs }
        ensures valid { IsNames self.now }
    {
        self.inputs.as_slice()
    }

    /// The names of the outputs, in order.
    pub fn outputs(&self) -> &[Name]
        ensures outputs { result.now ≡ self.now.outputs }
        ensures valid { IsNames self.now }
    {
        self.outputs.as_slice()
    }
}

/// `k` underscores, and then a letter.
#[tactic(auto, unfolding(crate::specs::Names::inner))]
fn inner_bytes(alloc: Global, k: u32, letter: u8) -> Result<Vec<u8>, Memory>
    ensures { IfOk result (λ bytes. bytes.items ≡ spec.inner k (letter ∷ [])) }
{
    let mut bytes = vec![in alloc; b'_'; k as usize]?;
    bytes.push(letter)?;
    Ok(bytes)
}

/// The inner name that has this letter alone after `k` underscores.
#[tactic(auto, using(crate::proofs::InnerAreNames::letter_is_name))]
pub fn letter_name(alloc: Global, k: u32, letter: u8) -> Result<Name, Memory>
    requires short { k ≤ SOURCE_NAME_BYTES + 1 }
    requires letter { lead_spec.IsLetter letter }
    ensures { IfOk result (λ name. name ≡ spec.inner k (letter ∷ [])) }
{
    let bytes = inner_bytes(alloc, k, letter)?;
    Name::known(alloc, bytes.as_slice())
}

/// The inner name that has this letter and this number, in decimal digits, after `k` underscores.
pub fn numbered_name(alloc: Global, k: u32, letter: u8, number: usize) -> Result<Name, Memory>
    requires short { k ≤ SOURCE_NAME_BYTES + 1 }
    requires letter { lead_spec.IsLetter letter }
    ensures { IfOk result (λ name. name ≡ spec.inner k (letter ∷ decimal number)) }
{
    let mut bytes = inner_bytes(alloc, k, letter)?;
    let digits = format!(in alloc; "{number}")?;
    bytes.extend_from_slice(digits.as_bytes())?;
    Name::known(alloc, bytes.as_slice())
}

/// The number of underscores that a name begins with.
fn underscores(bytes: &[u8]) -> usize
    ensures { result ≡ spec.underscores bytes.now }
{
    for (i, b) in bytes.iter().enumerate() {
        if *b != b'_' {
            return i;
        }
    }
    bytes.len()
}

/// Whether some name begins with exactly `k` underscores.
fn is_taken(names: &[Name], k: usize) -> bool
    ensures { result ≡ spec.is_taken names.now k }
{
    names.iter().any(|name| underscores(name.bytes()) == k)
}

/// The greatest number of underscores that a name begins with.
fn most_underscores(names: &[Name]) -> usize
    ensures { result ≡ lead_spec.greatest (map spec.underscores names.now) }
{
    let mut most = 0;
    for name in names {
        most = most.max(underscores(name.bytes()));
    }
    most
}

/// Whether some name of the source begins with exactly `k` underscores.
#[tactic(auto, using(crate::proofs::LeadLemmas::taken_both))]
fn is_source_taken(inputs: &[Name], outputs: &[Name], k: usize) -> bool
    ensures { result ≡ spec.is_taken (inputs.now ++ outputs.now) k }
{
    is_taken(inputs, k) || is_taken(outputs, k)
}

/// The least free number of underscores from 1 to `most`, or the number after it.
#[tactic(auto, using(crate::proofs::LeadLemmas::free_now, crate::proofs::LeadLemmas::free_on))]
fn least_free(inputs: &[Name], outputs: &[Name], most: usize) -> u32
    requires { most ≤ SOURCE_NAME_BYTES }
    ensures { result ≡ lead_spec.free_from (inputs.now ++ outputs.now) most 1 }
{
    for d in 0..most {
        if !is_source_taken(inputs, outputs, d + 1) {
            return d as u32 + 1;
        }
    }
    most as u32 + 1
}

/// The number of underscores that inner names begin with: the least from 1 on such that no input or output name begins with exactly
/// so many. It is at most one more than a name of a source has bytes.
pub fn lead(names: &NetNames) -> u32
    ensures lead { result ≡ lead_spec.lead names.now }
    ensures least { spec.IsLead names.now result }
    ensures short { result ≤ SOURCE_NAME_BYTES + 1 }
{
    let inputs = names.inputs();
    let outputs = names.outputs();
    let most = most_underscores(inputs).max(most_underscores(outputs));
    least_free(inputs, outputs, most)
}
