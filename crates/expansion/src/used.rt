//! The inputs that an expansion uses.
ghost use Rattle.std.specs.Prelude.{◌≡◌, ◌||◌, ℕ};
ghost use Rattle.std.specs.List.{list_any};
ghost use Rattle.ae_base.specs.Mask.{has};
ghost use Rattle.expansion.specs.Terms as spec;

use crate::expansion::Expansion;
use ae_base::{Mask, Seq, Term};

/// The set, with the inputs that some of the terms holds.
fn with_terms(held: Mask, terms: &[Term]) -> Mask
    ensures { (j : ℕ) → has result j ≡ (has held j || list_any (λ t. has t j) terms.now) }
{
    let mut all = held;
    for term in terms {
        all = all.or(*term);
    }
    all
}

/// The inputs that some term of some output holds, in one pass over the terms. It takes no memory.
pub fn used_inputs(e: &Expansion) -> Mask
    ensures { result ≡ spec.used_inputs e.now }
{
    let mut used = Mask::empty();
    for terms in e.lists() {
        used = with_terms(used, terms.as_slice());
    }
    used
}
