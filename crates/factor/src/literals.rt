//! Literals in lists of cubes.
ghost use Rattle.std.specs.Prelude.{◌≡◌, ◌<◌, ◌==◌, true, not, All, IfOk, IfSome, ◌≤◌};
ghost use Rattle.ae_base.specs.Cube.{is_free, whole, IsOver};
ghost use Rattle.ae_base.specs.declared.limits.TheConstants.{WIDTH};
ghost use Rattle.factor.specs.Literals as spec;
ghost use Rattle.factor.specs.Search.{better as spec_better, IsBest, IsPicked};

use ae_base::{Cube, Mask, Memory};
use std::alloc::Global;

/// An input with a sign.
#[derive(Clone, Copy, Debug)]
pub struct Literal {
    pub input: u32,
    /// Whether it is the input itself, and not its complement.
    pub plain: bool,
}

/// A literal, and the number of cubes that it stands in.
#[derive(Clone, Copy, Debug)]
pub struct Counted {
    pub literal: Literal,
    pub count: usize,
}

/// Whether the literal stands in the product.
fn stands(t: Literal, c: Cube) -> bool
    ensures { result ≡ spec.stands t c }
{
    if t.plain {
        c.pos.has(t.input)
    } else {
        c.neg.has(t.input)
    }
}

/// The product with one more literal, of an input of which it has none.
pub fn with_literal(t: Literal, c: Cube) -> Cube
    requires below { t.input < WIDTH }
    requires free { is_free c t.input ≡ true }
    ensures { result ≡ spec.with_literal t c }
{
    c.with(t.input, t.plain)
}

/// The product of the literal alone.
#[tactic(auto, using(ae_base::proofs::Sets::set_members), unfolding(ae_base::specs::Cube::whole))]
pub fn one_literal(t: Literal) -> Cube
    requires { t.input < WIDTH }
    ensures { result ≡ spec.with_literal t whole }
{
    with_literal(t, Cube::whole())
}

/// The product without the literal.
#[tactic(auto, using(ae_base::proofs::Sets::set_members))]
fn without_literal(t: Literal, c: Cube) -> Cube
    requires { t.input < WIDTH }
    ensures { result ≡ spec.without_literal t c }
{
    if t.plain {
        Cube {
            pos: c.pos.without(t.input),
            neg: c.neg,
        }
    } else {
        Cube {
            pos: c.pos,
            neg: c.neg.without(t.input),
        }
    }
}

/// Whether the product has no literal.
pub fn is_empty(c: Cube) -> bool
    ensures { result ≡ spec.is_empty c }
{
    c.pos == Mask::empty() && c.neg == Mask::empty()
}

/// The number of cubes that the literal stands in.
fn count(t: Literal, cubes: &[Cube]) -> usize
    ensures { result ≡ spec.count t cubes.now }
{
    cubes.iter().filter(|c| stands(t, **c)).count()
}

/// The cubes that hold the literal, each without it.
pub fn holding(alloc: Global, t: Literal, cubes: &[Cube]) -> Result<Vec<Cube>, Memory>
    requires { t.input < WIDTH }
    ensures { IfOk result (λ list. list.items ≡ spec.holding t cubes.now) }
{
    let list: Vec<Cube> = cubes
        .iter()
        .copied()
        .filter(|c| stands(t, *c))
        .map(|c| without_literal(t, c))
        .collect(alloc)?;
    Ok(list)
}

/// The cubes that do not hold the literal.
pub fn others(alloc: Global, t: Literal, cubes: &[Cube]) -> Result<Vec<Cube>, Memory>
    ensures { IfOk result (λ list. list.items ≡ spec.others t cubes.now) }
{
    let list: Vec<Cube> = cubes
        .iter()
        .copied()
        .filter(|c| !stands(t, *c))
        .collect(alloc)?;
    Ok(list)
}

/// The literal in place of the best so far, where it stands in more cubes.
fn better(cubes: &[Cube], best: Option<Counted>, t: Literal) -> Option<Counted>
    ensures { result ≡ spec_better cubes.now best t }
{
    let most = match best {
        None => 1,
        Some(best) => best.count,
    };
    let count = count(t, cubes);
    if most < count {
        Some(Counted { literal: t, count })
    } else {
        best
    }
}

/// The best of all literals of the inputs below `n`.
fn best(cubes: &[Cube], n: u32) -> Option<Counted>
    requires { n ≤ WIDTH }
    ensures best { IsBest cubes.now (λ u. u.input < n) result }
    ensures below { IfSome result (λ best. best.literal.input < n) }
{
    let mut best = None;
    for j in 0..n {
        let plain = better(
            cubes,
            best,
            Literal {
                input: j,
                plain: true,
            },
        );
        best = better(
            cubes,
            plain,
            Literal {
                input: j,
                plain: false,
            },
        );
    }
    best
}

/// The literal that stands in most cubes, the least input first and plain before complemented, where one stands in two or more.
pub fn most_common(cubes: &[Cube], n: u32) -> Option<Literal>
    requires few { n ≤ WIDTH }
    requires over { All (IsOver n) cubes.now }
    ensures picked { IsPicked cubes.now result }
    ensures below { IfSome result (λ t. t.input < n) }
{
    match best(cubes, n) {
        None => None,
        Some(best) => Some(best.literal),
    }
}
