//! Rewriting: the steps are taken until the lists are settled.
ghost use Rattle.std.specs.Prelude.{◌≡◌, ◌≤◌, IfOk, length};
ghost use Rattle.std.specs.List.{AllZip};
ghost use Rattle.esop.specs.Kept.{HasSameValue};
ghost use Rattle.esop.specs.Rewriting.{rewritten, rewritten_lists};
ghost use Rattle.esop.specs.Search.{IsOrdered};
ghost use Rattle.esop.specs.Settled.{AreSettled};

use crate::esop::Esop;
use crate::step::take_step;
use ae_base::{Cube, Memory, Seq};
use std::alloc::Global;

/// Each output's list of cubes rewritten: pairs of near cubes are merged and linked (`rewrite_step`) until the list is settled. It means
/// the same function and has no more cubes. Where memory runs out, `Memory`.
pub fn exorlink(alloc: Global, e: Esop) -> Result<Esop, Memory>
    ensures lists { IfOk result (λ settled. settled ≡ rewritten_lists e) }
    ensures value { IfOk result (λ settled. AllZip HasSameValue e.outs settled.outs) }
    ensures count { IfOk result (λ settled. AllZip (λ before after. length after ≤ length before) e.outs settled.outs) }
    ensures settled { IfOk result (λ settled. AreSettled settled) }
{
    let mut outs = Seq::new(alloc);
    for cubes in e.lists() {
        let settled = rewrite(alloc, cubes.as_slice())?;
        outs.push(Seq::from_vec(settled))?;
    }
    Ok(Esop {
        n: e.inputs(),
        outs,
    })
}

/// The list of cubes rewritten, in a vector of its own. Where memory runs out, `Memory`.
fn rewrite(alloc: Global, cubes: &[Cube]) -> Result<Vec<Cube>, Memory>
    requires { IsOrdered cubes.now }
    ensures { IfOk result (λ settled. settled.items ≡ rewritten cubes.now) }
{
    let mut settled = cubes.to_vec(alloc)?;
    'steps: while take_step(&mut settled)? {}
    Ok(settled)
}
