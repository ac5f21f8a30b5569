//! What evidence proves.
//!
//! The functions do nothing: each one's contract is the laws, and a caller has them after the call.
ghost use Rattle.std.specs.Prelude.{◌≡◌, ◌↔◌, ◌≤◌, ◌<◌, List, length, true};
ghost use Rattle.ae_net.specs.Detects.{Detects};
ghost use Rattle.ae_net.specs.declared.net.Fault.{Fault};
ghost use Rattle.ae_net.specs.Network.{Network};
ghost use Rattle.ae_net.specs.Valid.{IsValid};
ghost use Rattle.redundancy.specs.Evidence.{Tree, WordHolds, IsEvidenceTree, written, leaf_count};
ghost use Rattle.redundancy.specs.Leaf.{LeafHolds};
ghost use Rattle.redundancy.specs.Leaves.{LeafTells};
ghost use Rattle.redundancy.specs.Undetectable.{IsUndetectable};
ghost use Rattle.redundancy.specs.Visits.{IsFound, AreSame, Tells};
ghost use Rattle.redundancy.specs.Worked.{leaf_holds};
ghost use Rattle.redundancy.specs.declared.TheConstants.{LEAVES};
ghost use Rattle.redundancy.specs.declared.lines.Subcube.{Subcube};
ghost use Rattle.redundancy.specs.declared.trees.Found.{Found};
ghost use Rattle.redundancy.specs.declared.trees.Found.TheVariants.{TooWide};
ghost use Rattle.ae_base.specs.declared.step.Step.{Step};

use crate::lines::Lines;
use ae_net::{Relation, one_evaluation, one_run, relation_law};

/// What is known of a line holds of its values, without the fault and with it.
struct Soundness;

impl Relation for Soundness {
    ghost use Rattle.std.specs.Prelude.{Bool};
    ghost use Rattle.redundancy.specs.Leaves.{SoundFor};
    ghost use Rattle.redundancy.specs.declared.lines.Line.{Line};

    ghost One = { Line };

    ghost Other = { Bool × Bool };

    ghost holds = { SoundFor };
}

/// A line is known without the fault and with it.
struct Knowledge;

impl Relation for Knowledge {
    ghost use Rattle.redundancy.specs.Leaves.{AreKnown};
    ghost use Rattle.redundancy.specs.declared.lines.Line.{Line};

    ghost One = { Line };

    ghost Other = { Line };

    ghost holds = { λ line _. AreKnown line };
}

/// What a leaf tells of a valid network and a fault.
pub(crate) fn leaf_law()
    ensures { (n : Network) (fault : Fault) (d : Subcube) → IsValid n → LeafTells n fault d }
{
    one_run();
    one_evaluation::<Lines<'_>>();
    relation_law::<Soundness>();
    relation_law::<Knowledge>();
}

/// A word that holds for a fault proves it undetectable. Where all inputs are known, a leaf holds exactly where its point does not detect the
/// fault. The tree of a fault exists exactly where the fault is undetectable, and there is one. A word is the word of one tree at most.
pub fn evidence_law()
    ensures sound { (n : Network) (fault : Fault) (word : List Step) → IsValid n → WordHolds n fault word → IsUndetectable n fault }
    ensures full { (n : Network) (fault : Fault) (d : Subcube) → IsValid n → length n.inputs ≤ d.depth → LeafHolds n fault d ↔ (¬ Detects n fault d.point) }
    ensures worked { (n : Network) (fault : Fault) (d : Subcube) → IsValid n → (leaf_holds n fault d ≡ true) ↔ LeafHolds n fault d }
    ensures exists { (n : Network) (fault : Fault) → IsValid n → ((tree : Tree) × IsEvidenceTree n fault tree) ↔ IsUndetectable n fault }
    ensures only { (n : Network) (fault : Fault) (t u : Tree) → IsEvidenceTree n fault t → IsEvidenceTree n fault u → t ≡ u }
    ensures proves { (n : Network) (fault : Fault) (t : Tree) → IsEvidenceTree n fault t → WordHolds n fault (written t) }
    ensures reads { (t u : Tree) → written t ≡ written u → t ≡ u }
{
    leaf_law();
}

/// What is found for a fault is one thing. Where the fault has a tree, it is found too wide exactly where the tree has more than `LEAVES`
/// leaves. A tree that is found proves the fault undetectable, and a point that is found is one of the inputs and detects the fault.
pub fn found_law()
    ensures only { (n : Network) (fault : Fault) (f g : Found) → IsValid n → IsFound n fault f → IsFound n fault g → AreSame f g }
    ensures wide { (n : Network) (fault : Fault) (t : Tree) → IsValid n → IsEvidenceTree n fault t → IsFound n fault TooWide ↔ (LEAVES < leaf_count t) }
    ensures tells { (n : Network) (fault : Fault) (f : Found) → IsValid n → IsFound n fault f → Tells n fault f }
{
    leaf_law();
}
