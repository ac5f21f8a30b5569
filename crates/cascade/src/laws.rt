//! What the Reddy network shows.
ghost use Rattle.ae_net.specs.Names.{Names};
ghost use Rattle.ae_net.specs.Valid.{IsValid};
ghost use Rattle.expansion.specs.Terms.{Terms};
ghost use Rattle.cascade.specs.Shows.{CanBuild, ShowsFunctions, ShowsComplements, HasInputNames, HasPortNames, reddy_net};

/// The Reddy network is valid. With the control at 0 its outputs are the functions of the expansions, and with it at 1 their
/// complements. Its inputs have the names of the source's inputs, and one more is the control. Its ports have the names of the outputs.
pub fn reddy_law()
    ensures valid { (names : Names) (e : Terms) → CanBuild names e → IsValid (reddy_net names e) }
    ensures functions { (names : Names) (e : Terms) → CanBuild names e → ShowsFunctions (reddy_net names e) e }
    ensures complements { (names : Names) (e : Terms) → CanBuild names e → ShowsComplements (reddy_net names e) e }
    ensures inputs { (names : Names) (e : Terms) → CanBuild names e → HasInputNames (reddy_net names e) names.inputs }
    ensures ports { (names : Names) (e : Terms) → CanBuild names e → HasPortNames (reddy_net names e) names.outputs }
{}
