//! What the universal vectors detect.
ghost use Rattle.ae_base.specs.Source.{Source};
ghost use Rattle.ae_net.specs.Names.{Names};
ghost use Rattle.cascade.specs.Shows.{CanBuild, reddy_net};
ghost use Rattle.expansion.specs.Functions.{AreExpansions};
ghost use Rattle.expansion.specs.Terms.{Terms, used_inputs};
ghost use Rattle.universal_tests.specs.Odd.{IsHeldOddly, IsUsedNotEven, DetectsLiterals};
ghost use Rattle.universal_tests.specs.Sites.{DetectsAllBut};
ghost use Rattle.universal_tests.specs.Universal.{universal_vectors};

use expansion::even_law;

/// On the Reddy network of expansions each stuck-at fault is detected by some universal vector, but the faults of the literals of the
/// source's inputs: those at the stem of such an input, at the stem of its inverter and at the inverter's pin. Of these it is detected
/// too where the expansion of some output has an odd number of terms that hold the input: for expansions of a source, where the source
/// uses the input and it is not even.
pub fn universal_law()
    ensures others { (names : Names) (e : Terms) → CanBuild names e → DetectsAllBut (reddy_net names e) e.polarity.n (universal_vectors e.polarity (used_inputs e)) }
    ensures literals { (names : Names) (e : Terms) → CanBuild names e → DetectsLiterals (reddy_net names e) (IsHeldOddly e) (universal_vectors e.polarity (used_inputs e)) }
    ensures used_not_even { (s : Source) (names : Names) (e : Terms) → AreExpansions s e.polarity e → CanBuild names e
        → DetectsLiterals (reddy_net names e) (IsUsedNotEven s e.polarity) (universal_vectors e.polarity (used_inputs e)) }
{
    even_law();
}
