//! Expansions of sums and products of functions.
ghost use Rattle.std.specs.Prelude.{◌≡◌, ◌+◌, ◌&&◌, ◌<◌, ◌≤◌, Bool, true, IfOk, [], ◌∷◌, length};
ghost use Rattle.ae_base.specs.Mask.{Set, differ, empty, with, first, inside};
ghost use Rattle.ae_base.specs.Cube.{Signs};
ghost use Rattle.ae_base.specs.Terms.{literal, product as product_of};
ghost use Rattle.fn_store.specs.Davio.{IsExpansion};

use crate::terms::{exor, times_term};
use ae_base::{Mask, Memory, Term, WIDTH};
use std::alloc::Global;

/// The expansion of the function that is 1 everywhere.
pub(crate) fn unit(alloc: Global) -> Result<Vec<Term>, Memory>
    ensures terms { IfOk result (λ ts. ts.items ≡ empty ∷ []) }
    ensures means { IfOk result (λ ts. (p : Signs) → IsExpansion p (λ x. true) ts.items) }
{
    let terms = Vec::from_slice(alloc, &[Mask::empty()])?;
    Ok(terms)
}

/// The expansion of the literal of an input.
pub(crate) fn single(alloc: Global, j: u32) -> Result<Vec<Term>, Memory>
    requires { j < WIDTH }
    ensures { IfOk result (λ ts. (p : Signs) → j < p.n → IsExpansion p (literal p j) ts.items) }
{
    let terms = Vec::from_slice(alloc, &[Mask::empty().with(j)])?;
    Ok(terms)
}

/// The expansion of the EXOR of two functions, in one pass over theirs. Where memory runs out, or the two lists
/// together pass 8,388,608 terms, `Memory`.
pub fn sum(alloc: Global, a: &[Term], b: &[Term]) -> Result<Vec<Term>, Memory>
    ensures expansion { IfOk result (λ ts. (p : Signs) (f g : Set → Bool) → IsExpansion p f a.now → IsExpansion p g b.now → IsExpansion p (λ x. differ (f x) (g x)) ts.items) }
    ensures count { IfOk result (λ ts. length ts.items ≤ length a.now + length b.now) }
{
    exor(alloc, a, b)
}

/// The expansion of the AND of two functions. The terms of the shorter list are gone through.
pub(crate) fn product(alloc: Global, a: &[Term], b: &[Term]) -> Result<Vec<Term>, Memory>
    ensures { IfOk result (λ ts. (p : Signs) (f g : Set → Bool) → IsExpansion p f a.now → IsExpansion p g b.now → IsExpansion p (λ x. f x && g x) ts.items) }
{
    if a.len() <= b.len() {
        sum_of_rows(alloc, a, b)
    } else {
        sum_of_rows(alloc, b, a)
    }
}

/// The EXOR of the products of each term of the first list with the second list's function.
fn sum_of_rows(alloc: Global, a: &[Term], b: &[Term]) -> Result<Vec<Term>, Memory>
    ensures { IfOk result (λ ts. (p : Signs) (f g : Set → Bool) → IsExpansion p f a.now → IsExpansion p g b.now → IsExpansion p (λ x. f x && g x) ts.items) }
{
    let mut rows = Vec::new(alloc);
    for t in a {
        rows = add_row(alloc, &rows, b, *t)?;
    }
    Ok(rows)
}

/// The sum with the product of a term and a function.
fn add_row(alloc: Global, rows: &[Term], b: &[Term], t: Term) -> Result<Vec<Term>, Memory>
    ensures { IfOk result (λ ts. (p : Signs) (f g : Set → Bool) → inside t (first p.n) ≡ true → IsExpansion p f rows.now → IsExpansion p g b.now → IsExpansion p (λ x. differ (f x) (product_of p t x && g x)) ts.items) }
{
    let row = times_term(alloc, b, t)?;
    exor(alloc, rows, &row)
}
