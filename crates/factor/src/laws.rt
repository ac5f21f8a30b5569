//! What the factored network shows, and what its sums mean.
//!
//! The functions do nothing: each one's contract is the laws, and a caller has them after the call.
ghost use Rattle.std.specs.Prelude.{◌≡◌, ◌≤◌, List, length};
ghost use Rattle.std.specs.List.{AllZip};
ghost use Rattle.ae_base.specs.Cube.{Product};
ghost use Rattle.ae_base.specs.Mask.{Set};
ghost use Rattle.ae_net.specs.Names.{Names};
ghost use Rattle.ae_net.specs.Network.{Network};
ghost use Rattle.ae_net.specs.Valid.{IsValid};
ghost use Rattle.esop.specs.Esop.{Cubes, esop_value};
ghost use Rattle.esop.specs.Settled.{IsSettled};
ghost use Rattle.expansion.specs.Terms.{Terms, cost};
ghost use Rattle.factor.specs.Factored.{HasFactoredForm};
ghost use Rattle.factor.specs.Shows.{CanBuild, ShowsEsop, HasNames, cube_count, exor_count};
ghost use Rattle.factor.specs.Sums.{Summands, IsSum, FactorsDiffer, sum_value};

use ae_net::names_law;

/// A network of factored form is valid, and there is one for an ESOP. Its outputs show the values of their cubes, it has no more EXOR
/// gates than the ESOP has cubes, and it has the names of the source.
pub fn factored_law()
    ensures valid { (names : Names) (e : Cubes) (net : Network) → CanBuild names e → HasFactoredForm names e net → IsValid net }
    ensures values { (names : Names) (e : Cubes) (net : Network) → CanBuild names e → HasFactoredForm names e net → ShowsEsop net e }
    ensures few_exors { (names : Names) (e : Cubes) (net : Network) → HasFactoredForm names e net → exor_count net ≤ cube_count e }
    ensures names { (names : Names) (e : Cubes) (net : Network) → CanBuild names e → HasFactoredForm names e net → HasNames names net }
    ensures only { (names : Names) (e : Cubes) (net other : Network) → HasFactoredForm names e net → HasFactoredForm names e other → net ≡ other }
{
    names_law();
}

/// There is one sum of a list of cubes. No literal is a direct factor of two of its summands. Where the list is settled, the sum has its
/// value.
pub fn sum_law()
    ensures only { (cs : List Product) (s other : Summands) → IsSum cs s → IsSum cs other → s ≡ other }
    ensures factors { (cs : List Product) (s : Summands) → IsSum cs s → FactorsDiffer s }
    ensures value { (cs : List Product) (s : Summands) (x : Set) → IsSettled cs → IsSum cs s → sum_value s x ≡ esop_value cs x }
{}

/// Where each output has as many cubes as terms, there are as many as the terms of all outputs. Where no output has more cubes than before,
/// there are no more in all.
pub fn count_law()
    ensures terms { (e : Terms) (c : Cubes) → AllZip (λ ts cs. length cs ≡ length ts) e.outs c.outs → cube_count c ≡ cost e }
    ensures fewer { (c d : Cubes) → AllZip (λ before after. length after ≤ length before) c.outs d.outs → cube_count d ≤ cube_count c }
{}
