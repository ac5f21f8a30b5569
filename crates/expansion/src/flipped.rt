//! The expansions at the polarity that differs in one input.
ghost use Rattle.std.specs.Prelude.{◌≡◌, ◌+◌, ◌<◌, ◌≤◌, ◌^◌, Bool, IfOk, length, map, filter};
ghost use Rattle.ae_base.specs.Mask.{Set, has, without};
ghost use Rattle.ae_base.specs.Cube.{Signs};
ghost use Rattle.ae_base.specs.declared.limits.TheConstants.{WIDTH};
ghost use Rattle.fn_store.specs.Davio.{IsExpansion};
ghost use Rattle.expansion.specs.Flipped.{flipped_polarity};
ghost use Rattle.expansion.specs.Kept.{KeepsFunctions};
ghost use Rattle.expansion.specs.Terms.{cost};

use crate::expansion::Expansion;
use ae_base::{Mask, Memory, Polarity, Seq, Term};
use fn_store::{expansion_law, sum};
use std::alloc::Global;

/// The expansions of the same functions at the polarity that differs in input `j` alone, in time linear in the terms. Where memory runs
/// out, or the two lists of a sum together pass 8,388,608 terms, `Memory`.
pub fn flip(alloc: Global, e: &Expansion, j: u32) -> Result<Expansion, Memory>
    requires input { j < e.now.polarity.n }
    requires cost { cost e.now < 2 ^ 61 }
    ensures polarity { IfOk result (λ flipped. flipped.polarity ≡ flipped_polarity e.now.polarity j) }
    ensures functions { IfOk result (KeepsFunctions e.now) }
{
    expansion_law();
    let mut outs = Seq::new(alloc);
    for terms in e.lists() {
        let flipped = flip_terms(alloc, terms.as_slice(), j)?;
        outs.push(Seq::from_vec(flipped))?;
    }
    Ok(Expansion {
        polarity: flip_literal(e.polarity(), j),
        outs,
    })
}

/// The polarity that differs in input `j` alone.
#[tactic(auto, using(ae_base::proofs::Sets::set_members))]
fn flip_literal(polarity: Polarity, j: u32) -> Polarity
    requires { j < polarity.n }
    ensures { result ≡ flipped_polarity polarity j }
{
    Polarity {
        n: polarity.n,
        plain: polarity.plain.xor(Mask::empty().with(j)),
    }
}

/// The expansion of the same function at the polarity that differs in input `j`: the terms that hold `j` are added without it.
fn flip_terms(alloc: Global, terms: &[Term], j: u32) -> Result<Vec<Term>, Memory>
    requires { j < WIDTH }
    ensures expansion { IfOk result (λ ts. (p : Signs) (f : Set → Bool) → IsExpansion p f terms.now → IsExpansion (flipped_polarity p j) f ts.items) }
    ensures count { IfOk result (λ ts. length ts.items ≤ length terms.now + length terms.now) }
{
    expansion_law();
    let taken = taken_out(alloc, terms, j)?;
    sum(alloc, terms, &taken)
}

/// The terms that hold input `j`, without it. Where memory runs out, `Memory`.
pub fn taken_out(alloc: Global, terms: &[Term], j: u32) -> Result<Vec<Term>, Memory>
    requires { j < WIDTH }
    ensures { IfOk result (λ ts. ts.items ≡ map (λ t. without t j) (filter (λ t. has t j) terms.now)) }
{
    let taken = terms
        .iter()
        .filter(|t| (**t).has(j))
        .map(|t| t.without(j))
        .collect(alloc)?;
    Ok(taken)
}
