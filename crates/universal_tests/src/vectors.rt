//! The universal vectors of the Reddy form.
ghost use Rattle.std.specs.Prelude.{◌≡◌, ◌<◌, ◌≤◌, ◌+◌, length, All, IfOk};
ghost use Rattle.ae_base.specs.declared.limits.TheConstants.{WIDTH};
ghost use Rattle.ae_base.specs.Source.{Source};
ghost use Rattle.ae_base.specs.Terms.{IsPoint};
ghost use Rattle.ae_net.specs.Valid.{IsDistinct};
ghost use Rattle.ae_net.specs.Names.{Names};
ghost use Rattle.cascade.specs.Shows.{CanBuild, reddy_net};
ghost use Rattle.expansion.specs.Functions.{AreExpansions};
ghost use Rattle.expansion.specs.Terms.{used_inputs};
ghost use Rattle.universal_tests.specs.Odd.{IsHeldOddly, IsUsedNotEven, DetectsLiterals};
ghost use Rattle.universal_tests.specs.Sites.{DetectsAllBut};
ghost use Rattle.universal_tests.specs.Universal as spec;

use crate::laws::universal_law;
use ae_base::{Mask, Memory, Point, push_new};
use cascade::{first_vectors, literals_high};
use expansion::{Expansion, used_inputs};
use std::alloc::Global;

/// The universal vectors, each once.
#[tactic(auto, using(crate::proofs::AtVectors::none_so_far))]
fn vectors_of(alloc: Global, e: &Expansion) -> Result<Vec<Point>, Memory>
    requires control { e.now.polarity.n < WIDTH }
    ensures { IfOk result (λ list. list.items ≡ spec.universal_vectors e.now.polarity (used_inputs e.now)) }
{
    let used = used_inputs(e);
    let high = literals_high(e);
    let mut list = first_vectors(alloc, e)?;
    for j in used.members() {
        push_new(&mut list, high.xor(Mask::empty().with(j)))?;
    }
    Ok(list)
}

/// The universal vectors of the Reddy form, each once: control 0 and all literals 0, control 0 and all literals 1, control 1 and all
/// literals 0, control 1 and all literals 1, and then for each used input in order control 0, its literal 0 and all others 1. The control
/// has the number n, n being the number of inputs, which a `Mask` has to be able to hold. The literals are those of the used inputs. An
/// input that is not used is 0 in each vector. They are n + 4 at most (after S. M. Reddy, "Easily Testable Realizations for Logic
/// Functions", 1972).
///
/// On the Reddy network of the expansions they detect every stuck-at fault but those of the literals of the source's inputs, and of these
/// each whose input some output's expansion holds an odd number of times, which is where a source of these expansions uses it and it is
/// not even; `universal_law` says the same of the definitions.
#[tactic(auto, using(crate::proofs::AtVectors::universal_few, crate::proofs::AtVectors::universal_distinct, crate::proofs::AtVectors::universal_points))]
pub fn universal(alloc: Global, e: &Expansion) -> Result<Vec<Point>, Memory>
    requires control { e.now.polarity.n < WIDTH }
    ensures vectors { IfOk result (λ list. list.items ≡ spec.universal_vectors e.now.polarity (used_inputs e.now)) }
    ensures few { IfOk result (λ list. length list.items ≤ e.now.polarity.n + 4) }
    ensures distinct { IfOk result (λ list. IsDistinct list.items) }
    ensures points { IfOk result (λ list. All (IsPoint (e.now.polarity.n + 1)) list.items) }
    ensures others { IfOk result (λ list. (names : Names) → CanBuild names e.now → DetectsAllBut (reddy_net names e.now) e.now.polarity.n list.items) }
    ensures literals { IfOk result (λ list. (names : Names) → CanBuild names e.now → DetectsLiterals (reddy_net names e.now) (IsHeldOddly e.now) list.items) }
    ensures used_not_even { IfOk result (λ list. (s : Source) (names : Names) → AreExpansions s e.now.polarity e.now → CanBuild names e.now
        → DetectsLiterals (reddy_net names e.now) (IsUsedNotEven s e.now.polarity) list.items) }
{
    let list = vectors_of(alloc, e)?;
    universal_law();
    Ok(list)
}
