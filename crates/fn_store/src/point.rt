//! The least point at which a function is 1.
ghost use Rattle.std.specs.Prelude.{◌≡◌, Bool, false, [], MatchOption};
ghost use Rattle.ae_base.specs.Mask.{Set};
ghost use Rattle.fn_store.specs.Davio.{IsExpansion};
ghost use Rattle.fn_store.specs.Functions.{AgreeAt, IsLeastPoint};
ghost use Rattle.fn_store.specs.Scratch.{IsLowest, IsLowerOne};

use ae_base::{Mask, Point, Polarity, Term};

/// The least point of the function with this expansion. Its literals that are 1 are the members of the lowest term: at this point no
/// other term is 1, and a term that is 1 at a point is not above the point's literals.
pub(crate) fn least_point(polarity: Polarity, terms: &[Term]) -> Option<Point>
    ensures { (f : Set → Bool) → IsExpansion polarity f terms.now → MatchOption result (AgreeAt polarity.n f (λ x. false)) (IsLeastPoint polarity f) }
{
    match lowest(terms) {
        Some(term) => {
            let complemented = polarity.plain.xor(Mask::first(polarity.n));
            Some(term.xor(complemented))
        }
        None => None,
    }
}

/// The lowest of the terms.
fn lowest(terms: &[Term]) -> Option<Term>
    ensures { MatchOption result (terms.now ≡ []) (λ t. IsLowest terms.now t) }
{
    if terms.is_empty() {
        return None;
    }
    let mut best = terms[0];
    for t in terms {
        best = lower_one(best, *t);
    }
    Some(best)
}

/// The lower one: the one that lacks the least number that is in one of the two alone.
fn lower_one(s: Mask, t: Mask) -> Mask
    ensures { IsLowerOne s t result }
{
    match s.xor(t).least() {
        Some(j) if s.has(j) => t,
        _ => s,
    }
}
