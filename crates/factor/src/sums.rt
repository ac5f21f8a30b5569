//! Sums of products of literals and inner sums.
ghost use Rattle.std.specs.Prelude.{◌≡◌, true, ◌<◌, ◌≤◌, All, IfOk};
ghost use Rattle.std.specs.List.{list_any};
ghost use Rattle.ae_base.specs.declared.limits.TheConstants.{WIDTH};
ghost use Rattle.ae_base.specs.Cube.{IsOver, is_free};
ghost use Rattle.factor.specs.Literals as literal;
ghost use Rattle.factor.specs.Seen.{seen, first_factors as first_factors_of, with_cube};
ghost use Rattle.factor.specs.Sums as spec;
ghost use Rattle.factor.specs.Sums.{IsSum};

use crate::literals::{Literal, holding, is_empty, most_common, one_literal, others, with_literal};
use ae_base::{Cube, Memory, WIDTH};
use std::alloc::Global;
use std::boxed::Box;

/// A sum, its summands one after the other.
#[derive(Drop)]
pub enum Sum {
    /// No further summand; whether the sum has the constant.
    End(bool),
    /// A product of literals, and then the rest.
    Literals(Cube, Box<Sum>),
    /// A product of literals and an inner sum, and then the rest.
    Factored(Cube, Box<Sum>, Box<Sum>),
}

/// Whether the sum has no summand and no constant.
fn is_nothing(sum: &Sum) -> bool
    ensures { result ≡ spec.is_nothing (seen sum.now) }
{
    match sum {
        Sum::End(constant) => !*constant,
        Sum::Literals(_, _) => false,
        Sum::Factored(_, _, _) => false,
    }
}

/// Whether the sum has just one summand and no constant.
fn is_one(sum: &Sum) -> bool
    ensures { result ≡ spec.is_one (seen sum.now) }
{
    match sum {
        Sum::End(_) => false,
        Sum::Literals(_, rest) => is_nothing(rest),
        Sum::Factored(_, _, rest) => is_nothing(rest),
    }
}

/// Whether the sum has the constant.
pub fn has_constant(sum: &Sum) -> bool
    ensures { result ≡ spec.has_constant (seen sum.now) }
{
    match sum {
        Sum::End(constant) => *constant,
        Sum::Literals(_, rest) => has_constant(rest),
        Sum::Factored(_, _, rest) => has_constant(rest),
    }
}

/// The direct factors of the first summand, none where there is no summand.
fn first_factors(sum: &Sum) -> Cube
    ensures { result ≡ first_factors_of (seen sum.now) }
{
    match sum {
        Sum::End(_) => Cube::whole(),
        Sum::Literals(literals, _) => *literals,
        Sum::Factored(literals, _, _) => *literals,
    }
}

/// The literal joins the factors of the first summand, and `rest` follows it in place of what did.
fn flatten(t: Literal, sum: &mut Sum, rest: Sum)
    requires below { t.input < WIDTH }
    requires free { is_free (first_factors_of (seen sum.old)) t.input ≡ true }
    ensures { seen sum.new ≡ spec.flattened t (seen sum.old) (seen rest) }
{
    match sum {
        Sum::End(_) => *sum = rest,
        Sum::Literals(literals, tail) => {
            *literals = with_literal(t, *literals);
            **tail = rest;
        }
        Sum::Factored(literals, _, tail) => {
            *literals = with_literal(t, *literals);
            **tail = rest;
        }
    }
}

/// The sum whose first summand is the product of the literal and of `inner`, and then the rest.
fn joined(alloc: Global, t: Literal, mut inner: Sum, rest: Sum) -> Result<Sum, Memory>
    requires below { t.input < WIDTH }
    requires free { is_free (first_factors_of (seen inner)) t.input ≡ true }
    ensures { IfOk result (λ sum. seen sum ≡ spec.joined t (seen inner) (seen rest)) }
{
    if is_one(&inner) {
        flatten(t, &mut inner, rest);
        return Ok(inner);
    }
    let literals = one_literal(t);
    let inner = Box::new(alloc, inner)?;
    let rest = Box::new(alloc, rest)?;
    Ok(Sum::Factored(literals, inner, rest))
}

/// The sum with the cube before its summands, where it is not empty.
fn before(alloc: Global, c: Cube, sum: Sum) -> Result<Sum, Memory>
    ensures { IfOk result (λ more. seen more ≡ with_cube c (seen sum)) }
{
    if is_empty(c) {
        return Ok(sum);
    }
    Ok(Sum::Literals(c, Box::new(alloc, sum)?))
}

/// Whether some cube is empty.
fn some_empty(cubes: &[Cube]) -> bool
    ensures { result ≡ list_any literal.is_empty cubes.now }
{
    cubes.iter().any(|c| is_empty(*c))
}

/// The sum whose summands are the cubes that are not empty, and which has the constant where one is.
fn flat(alloc: Global, cubes: &[Cube]) -> Result<Sum, Memory>
    ensures { IfOk result (λ sum. seen sum ≡ spec.flat_sum cubes.now) }
{
    let mut sum = Sum::End(some_empty(cubes));
    for d in 0..cubes.len() {
        sum = before(alloc, cubes[cubes.len() - 1 - d], sum)?;
    }
    Ok(sum)
}

/// The sum of a list of cubes over `n` inputs.
pub fn sum_of(alloc: Global, n: u32, cubes: &[Cube]) -> Result<Sum, Memory>
    requires few { n ≤ WIDTH }
    requires over { All (IsOver n) cubes.now }
    ensures { IfOk result (λ sum. IsSum cubes.now (seen sum)) }
{
    match most_common(cubes, n) {
        None => flat(alloc, cubes),
        Some(t) => {
            let held = holding(alloc, t, cubes)?;
            let inner = sum_of(alloc, n, held.as_slice())?;
            let others = others(alloc, t, cubes)?;
            let rest = sum_of(alloc, n, others.as_slice())?;
            joined(alloc, t, inner, rest)
        }
    }
}
