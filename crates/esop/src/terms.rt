//! The ESOP of an expansion: one cube for each term.
ghost use Rattle.std.specs.Prelude.{◌≡◌, IfOk, length, map};
ghost use Rattle.std.specs.List.{AllZip};
ghost use Rattle.esop.specs.Esop as esop;
ghost use Rattle.esop.specs.Order.{in_order};

use crate::esop::Esop;
use crate::step::place;
use ae_base::{Cube, Memory, Polarity, Seq, Term};
use expansion::Expansion;
use std::alloc::Global;

/// The ESOP of an expansion: for each output one cube for each term, with the literals of its inputs as the polarity has them, in the
/// order of the cubes' texts. It means the same functions. Where memory runs out, `Memory`.
pub fn from_expansion(alloc: Global, e: &Expansion) -> Result<Esop, Memory>
    ensures lists { IfOk result (λ made. made ≡ esop.esop_of e.now) }
    ensures value { IfOk result (λ made. AllZip (esop.HasValueOf e.now.polarity) e.now.outs made.outs) }
    ensures count { IfOk result (λ made. AllZip (λ terms cubes. length cubes ≡ length terms) e.now.outs made.outs) }
{
    let polarity = e.polarity();
    let mut outs = Seq::new(alloc);
    for terms in e.lists() {
        let cubes = cubes_of(alloc, polarity, terms.as_slice())?;
        outs.push(Seq::from_vec(cubes))?;
    }
    Ok(Esop {
        n: e.inputs(),
        outs,
    })
}

/// The cubes of the terms, in order. Where memory runs out, `Memory`.
fn cubes_of(alloc: Global, polarity: Polarity, terms: &[Term]) -> Result<Vec<Cube>, Memory>
    ensures { IfOk result (λ cubes. cubes.items ≡ in_order (map (esop.cube_of polarity) terms.now)) }
{
    let mut cubes = Vec::new(alloc);
    let mut left = terms.len();
    while left > 0 {
        left -= 1;
        place(&mut cubes, cube_of(polarity, terms[left]))?;
    }
    Ok(cubes)
}

/// The cube of a term: the literals of its inputs, each as the polarity has it.
#[tactic(auto, using(ae_base::proofs::Sets::set_members))]
fn cube_of(polarity: Polarity, term: Term) -> Cube
    ensures { result ≡ esop.cube_of polarity term }
{
    let plain = term.both(polarity.plain);
    Cube {
        pos: plain,
        neg: term.xor(plain),
    }
}
