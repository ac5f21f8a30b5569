//! The first four vectors of the Reddy form.
ghost use Rattle.std.specs.Prelude.{◌≡◌, ◌<◌, ◌==◌, ◌++◌, ◌∷◌, [], if◌then◌else◌, false, true, IfOk, OnOk};
ghost use Rattle.std.specs.List.{list_any};
ghost use Rattle.ae_base.specs.declared.limits.TheConstants.{WIDTH};
ghost use Rattle.expansion.specs.Terms.{used_inputs};
ghost use Rattle.cascade.specs.FirstVectors as spec;

use ae_base::{Memory, Point, push_new};
use expansion::{Expansion, used_inputs};
use std::alloc::Global;

/// The point with the literals of all used inputs at 1, and all else at 0. It takes no memory.
#[tactic(auto, using(crate::proofs::VectorLemmas::all_high))]
pub fn literals_high(e: &Expansion) -> Point
    ensures { result ≡ spec.literals_at e.now.polarity (used_inputs e.now) true }
{
    used_inputs(e).both(e.polarity().plain)
}

/// The point with the literals of all used inputs at 0.
#[tactic(auto, using(crate::proofs::VectorLemmas::all_low))]
pub fn literals_low(e: &Expansion) -> Point
    ensures { result ≡ spec.literals_at e.now.polarity (used_inputs e.now) false }
{
    used_inputs(e).xor(literals_high(e))
}

/// The first four vectors of the Reddy form, of which one that is equal to an earlier one is left out: control 0 and all literals 0,
/// control 0 and all literals 1, control 1 and all literals 0, control 1 and all literals 1. The control is the number after the inputs,
/// which a `Mask` has to be able to hold, and the literals are those of the used inputs. An input that is not used is 0.
#[tactic(auto, using(crate::proofs::VectorLemmas::four), unfolding(crate::specs::FirstVectors::first_vectors))]
pub fn first_vectors(alloc: Global, e: &Expansion) -> Result<Vec<Point>, Memory>
    requires control { e.now.polarity.n < WIDTH }
    ensures { IfOk result (λ list. list.items ≡ spec.first_vectors e.now.polarity (used_inputs e.now)) }
{
    let control = e.inputs();
    let low = literals_low(e);
    let high = literals_high(e);
    let mut list = Vec::new(alloc);
    list.push(low)?;
    push_new(&mut list, high)?;
    push_new(&mut list, low.with(control))?;
    push_new(&mut list, high.with(control))?;
    Ok(list)
}
