//! What a polarity costs, and that a search has one result.
ghost use Rattle.std.specs.Prelude.{◌≡◌, List};
ghost use Rattle.ae_base.specs.Cube.{Signs};
ghost use Rattle.ae_base.specs.Source.{Source};
ghost use Rattle.expansion.specs.Functions.{AreExpansions};
ghost use Rattle.expansion.specs.Terms.{Terms, cost};
ghost use Rattle.polarity.specs.Cost.{cost_of};
ghost use Rattle.polarity.specs.Search.{Advised, IsChosen};

use fn_store::expansion_law;

/// A source's expansions at a polarity have as many terms as the polarity costs.
pub fn cost_law()
    ensures { (s : Source) (p : Signs) (e : Terms) → AreExpansions s p e → cost e ≡ cost_of s p }
{
    expansion_law();
}

/// What the advisors were before a search and are after it leaves one polarity to be chosen.
pub fn choice_law()
    ensures { (s : Source) (start p q : Signs) (before after : List Advised) → IsChosen s start before after p → IsChosen s start before after q → p ≡ q }
{}
