//! What the universal vectors and those of the even inputs detect together, and how many they are.
ghost use Rattle.std.specs.Prelude.{◌≤◌, length};
ghost use Rattle.ae_net.specs.Names.{Names};
ghost use Rattle.cascade.specs.Shows.{CanBuild, reddy_net};
ghost use Rattle.expansion.specs.Even.{even_inputs};
ghost use Rattle.expansion.specs.Terms.{Terms};
ghost use Rattle.input_tests.specs.Complete.{DetectsAll};
ghost use Rattle.input_tests.specs.Whole.{cascade_tests, vector_bound};

use expansion::even_law;

/// On the Reddy network of expansions every stuck-at fault is detected by some of the universal vectors and the vectors of the even
/// inputs. Together they are no more than the number of inputs, 4, and two for each even input.
pub fn input_law()
    ensures complete { (names : Names) (e : Terms) → CanBuild names e → DetectsAll (reddy_net names e) (cascade_tests e) }
    ensures few { (e : Terms) → length (cascade_tests e) ≤ vector_bound e.polarity.n (even_inputs e) }
{
    even_law();
}
