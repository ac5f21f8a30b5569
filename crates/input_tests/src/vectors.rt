//! The vectors of even inputs.
ghost use Rattle.std.specs.Prelude.{◌≡◌, ◌<◌, ◌≤◌, ◌+◌, ◌*◌, ◌==◌, ◌%◌, ℕ, false, ◌++◌, IfOk, OnOk, All, count_by, length};
ghost use Rattle.std.specs.List.{find};
ghost use Rattle.ae_base.specs.declared.limits.TheConstants.{WIDTH};
ghost use Rattle.ae_base.specs.Mask.{has, len};
ghost use Rattle.ae_base.specs.Terms.{IsPoint};
ghost use Rattle.ae_net.specs.Names.{Names};
ghost use Rattle.ae_net.specs.Valid.{IsDistinct};
ghost use Rattle.cascade.specs.FirstVectors.{literals_at};
ghost use Rattle.cascade.specs.Shows.{CanBuild, reddy_net};
ghost use Rattle.expansion.specs.Counts.{is_odd};
ghost use Rattle.expansion.specs.Even.{even_inputs};
ghost use Rattle.expansion.specs.Terms.{used_inputs};
ghost use Rattle.expansion.specs.Kept.{IsTerms};
ghost use Rattle.input_tests.specs.Added.{all_added};
ghost use Rattle.input_tests.specs.Complete.{DetectsAll};
ghost use Rattle.input_tests.specs.Inputs as spec;
ghost use Rattle.input_tests.specs.Inputs.{pair_at};
ghost use Rattle.input_tests.specs.Whole.{new_ones};
ghost use Rattle.universal_tests.specs.Universal.{universal_vectors};

use crate::laws::input_law;
use ae_base::{Mask, Memory, Point, Term, push_new};
use cascade::literals_high;
use expansion::{Expansion, even_law, used_inputs};
use std::alloc::Global;

/// The first of the terms that holds the input.
fn first_holding(terms: &[Term], j: u32) -> Option<Term>
    ensures { result ≡ find (λ t. has t j) terms.now }
{
    terms.iter().copied().find(|t| t.has(j))
}

/// Of the first output whose expansion holds the input, the first term that holds it.
fn first_term(e: &Expansion, j: u32) -> Option<Term>
    ensures { result ≡ spec.first_term e.now j }
{
    for terms in e.lists() {
        if let Some(term) = first_holding(terms.as_slice(), j) {
            return Some(term);
        }
    }
    None
}

/// The inputs that an odd number of the terms hold.
fn odd_in(terms: &[Term]) -> Mask
    ensures { (j : ℕ) → has result j ≡ (count_by (λ t. has t j) terms.now % 2 == 1) }
{
    let mut odd = Mask::empty();
    for term in terms {
        odd = odd.xor(*term);
    }
    odd
}

/// The inputs that the expansion of some output holds an odd number of times.
fn odd_inputs(e: &Expansion) -> Mask
    ensures odd { (j : ℕ) → has result j ≡ is_odd e.now j }
    ensures valid { IsTerms e.now }
{
    let mut odd = Mask::empty();
    for terms in e.lists() {
        odd = odd.or(odd_in(terms.as_slice()));
    }
    odd
}

/// The used inputs that no output's expansion holds an odd number of times.
fn even_inputs(e: &Expansion) -> Mask
    ensures even { result ≡ even_inputs e.now }
    ensures valid { IsTerms e.now }
{
    even_law();
    let used = used_inputs(e);
    used.xor(used.both(odd_inputs(e)))
}

/// Adds the two vectors of an input, those that the list has not yet. `low` is the point of all literals 0.
fn push_pair(list: &mut Vec<Point>, e: &Expansion, low: Point, j: u32) -> Result<(), Memory>
    requires input { j < WIDTH }
    requires low { low ≡ literals_at e.now.polarity (used_inputs e.now) false }
    ensures { OnOk result (list.new.items ≡ all_added (pair_at e.now.polarity (used_inputs e.now) j (spec.first_term e.now j)) list.old.items) }
{
    if let Some(term) = first_term(e, j) {
        let high = low.xor(term);
        push_new(list, high)?;
        push_new(list, high.xor(Mask::empty().with(j)))?;
    }
    Ok(())
}

/// The two vectors of each even input in order, each once.
#[tactic(auto, using(crate::proofs::CodeLemmas::none_so_far))]
fn vectors_of(alloc: Global, e: &Expansion) -> Result<Vec<Point>, Memory>
    requires control { e.now.polarity.n < WIDTH }
    ensures vectors { IfOk result (λ list. list.items ≡ spec.input_vectors_of e.now) }
    ensures valid { OnOk result (IsTerms e.now) }
{
    let even = even_inputs(e);
    let low = used_inputs(e).xor(literals_high(e));
    let mut list = Vec::new(alloc);
    for j in even.members() {
        push_pair(&mut list, e, low, j)?;
    }
    Ok(list)
}

/// The two vectors of each even input in order, each once, over n + 1 inputs, the last of which is the control; n is the number of inputs,
/// and a `Mask` has to be able to hold it. They are at most two for each even input.
///
/// An input is even where some term holds it and no output's expansion holds it an odd number of times. T being the first term that holds
/// it, of the first output whose expansion does, the one vector has the literals of T at 1 and those of the other used inputs at 0, and
/// the other has the even input's own literal at 0 too. Unused inputs and the control are 0 in both. With the universal vectors these
/// detect every stuck-at fault of the Reddy network.
#[tactic(auto, using(crate::proofs::Whole::two_each, crate::proofs::CodeLemmas::pairs_distinct, crate::proofs::CodeLemmas::all_points))]
pub fn input_vectors(alloc: Global, e: &Expansion) -> Result<Vec<Point>, Memory>
    requires control { e.now.polarity.n < WIDTH }
    ensures vectors { IfOk result (λ list. list.items ≡ spec.input_vectors_of e.now) }
    ensures few { IfOk result (λ list. length list.items ≤ 2 * len (even_inputs e.now)) }
    ensures distinct { IfOk result (λ list. IsDistinct list.items) }
    ensures points { IfOk result (λ list. All (IsPoint (e.now.polarity.n + 1)) list.items) }
    ensures complete { IfOk result (λ list. (names : Names) → CanBuild names e.now
        → let universal = universal_vectors e.now.polarity (used_inputs e.now) in DetectsAll (reddy_net names e.now) (universal ++ new_ones universal list.items)) }
{
    let list = vectors_of(alloc, e)?;
    input_law();
    Ok(list)
}
