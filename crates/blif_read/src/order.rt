//! The order of the gates in the network.
ghost use Rattle.std.specs.Prelude.{◌≡◌, ℕ, ◌<◌, ◌==◌, ◌^◌, ◌++◌, ◌∷◌, [], length, map, All, None, Some, if◌then◌else◌, slice_index_or, position, is_none, IfOk, OnOk};
ghost use Rattle.std.specs.Option.{option_or};
ghost use Rattle.blif_read.specs.Build as spec;

use crate::draft::Draft;
use ae_base::{Memory, Seq};
use std::alloc::Global;

/// Of signals in file order, where `inputs` of them are inputs, those of gates, as places of gates.
#[tactic(auto, using(crate::proofs::Ranks::gates_more))]
fn gates_among(alloc: Global, inputs: u32, signals: &[u32]) -> Result<Seq<u32>, Memory>
    ensures { IfOk result (λ gates. gates ≡ spec.gates_among inputs signals.now) }
{
    let mut gates = Seq::new(alloc);
    for signal in signals {
        push_gate(&mut gates, inputs, *signal)?;
    }
    Ok(gates)
}

fn push_gate(gates: &mut Seq<u32>, inputs: u32, signal: u32) -> Result<(), Memory>
    ensures { OnOk result (gates.new ≡ gates.old ++ spec.gates_among inputs (signal ∷ [])) }
{
    if signal >= inputs {
        gates.push(signal - inputs)?;
    }
    Ok(())
}

/// For each gate those that it waits for.
pub fn needs_of(alloc: Global, inputs: u32, drafts: &[Draft]) -> Result<Vec<Seq<u32>>, Memory>
    ensures { IfOk result (λ needs. needs.items ≡ map (λ d. spec.gates_among inputs d.pins) drafts.now) }
{
    let mut needs = Vec::new(alloc);
    for draft in drafts {
        needs.push(gates_among(alloc, inputs, draft.pins.as_slice())?)?;
    }
    Ok(needs)
}

fn no_ranks(alloc: Global, count: usize) -> Result<Vec<Option<u32>>, Memory>
    ensures len { IfOk result (λ ranks. length ranks.items ≡ count) }
    ensures none { IfOk result (λ ranks. (g : ℕ) → slice_index_or ranks.items g None ≡ None) }
{
    let mut ranks = Vec::new(alloc);
    for _ in 0..count {
        ranks.push(None)?;
    }
    Ok(ranks)
}

/// Ranks a gate that has no rank.
fn rank(ranks: &mut [Option<u32>], gate: usize, rank: u32)
    requires { gate < length ranks.old }
    ensures len { length ranks.new ≡ length ranks.old }
    ensures ranks { (g : ℕ) → slice_index_or ranks.new g None ≡ option_or (slice_index_or ranks.old g None) (if gate == g then Some rank else None) }
{
    if ranks[gate].is_none() {
        ranks[gate] = Some(rank);
    }
}

/// Ranks the gates of an order, none of which has a rank.
#[tactic(auto, using(crate::proofs::Ranks::rank_more))]
fn rank_all(ranks: &mut [Option<u32>], order: &[u32])
    requires short { length order.now < 2 ^ 32 }
    requires within { All (λ g. g < length ranks.old) order.now }
    requires none { (g : ℕ) → slice_index_or ranks.old g None ≡ None }
    ensures len { length ranks.new ≡ length ranks.old }
    ensures ranks { (g : ℕ) → slice_index_or ranks.new g None ≡ spec.rank_in order.now g }
{
    for (i, gate) in order.iter().enumerate() {
        rank(ranks, *gate as usize, i as u32);
    }
}

/// For each of so many gates its place in the order, where it has one.
pub fn ranks_of(alloc: Global, order: &[u32], count: usize) -> Result<Vec<Option<u32>>, Memory>
    requires short { length order.now < 2 ^ 32 }
    requires within { All (λ g. g < count) order.now }
    ensures len { IfOk result (λ ranks. length ranks.items ≡ count) }
    ensures ranks { IfOk result (λ ranks. (g : ℕ) → slice_index_or ranks.items g None ≡ spec.rank_in order.now g) }
{
    let mut ranks = no_ranks(alloc, count)?;
    rank_all(ranks.as_mut_slice(), order);
    Ok(ranks)
}

/// The first gate without a rank.
pub fn first_unplaced(ranks: &[Option<u32>]) -> Option<usize>
    ensures { result ≡ position (λ r. is_none r) ranks.now }
{
    ranks.iter().position(|r| r.is_none())
}
