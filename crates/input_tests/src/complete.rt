//! The universal vectors and those of the even inputs in one list.
ghost use Rattle.std.specs.Prelude.{◌≡◌, ◌<◌, ◌≤◌, ◌+◌, ◌++◌, IfOk, OnOk, All, length};
ghost use Rattle.ae_base.specs.declared.limits.TheConstants.{WIDTH};
ghost use Rattle.ae_base.specs.Terms.{IsPoint};
ghost use Rattle.ae_net.specs.Names.{Names};
ghost use Rattle.ae_net.specs.Valid.{IsDistinct};
ghost use Rattle.cascade.specs.Shows.{CanBuild, reddy_net};
ghost use Rattle.expansion.specs.Even.{even_inputs};
ghost use Rattle.input_tests.specs.Complete.{DetectsAll};
ghost use Rattle.input_tests.specs.Whole.{cascade_tests, new_ones, vector_bound};

use crate::laws::input_law;
use crate::vectors::input_vectors;
use ae_base::{Memory, Point, push_new};
use expansion::Expansion;
use std::alloc::Global;
use universal_tests::universal;

/// Adds the points that the list has not yet.
fn push_others(list: &mut Vec<Point>, points: &[Point]) -> Result<(), Memory>
    requires { IsDistinct points.now }
    ensures { OnOk result (list.new.items ≡ list.old.items ++ new_ones list.old.items points.now) }
{
    for point in points {
        push_new(list, *point)?;
    }
    Ok(())
}

/// The vectors of the cascade, over n + 1 inputs, the last of which is the control: the universal vectors, and then those of the even
/// inputs that are not among them. The control has the number n, n being the number of inputs, which a `Mask` has to be able to hold. They
/// detect every stuck-at fault of the Reddy network of the expansions, and are no more than n, 4, and two for
/// each even input.
pub fn cascade_vectors(alloc: Global, e: &Expansion) -> Result<Vec<Point>, Memory>
    requires control { e.now.polarity.n < WIDTH }
    ensures vectors { IfOk result (λ list. list.items ≡ cascade_tests e.now) }
    ensures distinct { IfOk result (λ list. IsDistinct list.items) }
    ensures points { IfOk result (λ list. All (IsPoint (e.now.polarity.n + 1)) list.items) }
    ensures complete { IfOk result (λ list. (names : Names) → CanBuild names e.now → DetectsAll (reddy_net names e.now) list.items) }
    ensures few { IfOk result (λ list. length list.items ≤ vector_bound e.now.polarity.n (even_inputs e.now)) }
{
    let mut list = universal(alloc, e)?;
    let others = input_vectors(alloc, e)?;
    push_others(&mut list, &others)?;
    input_law();
    Ok(list)
}
