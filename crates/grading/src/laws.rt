//! What a grading counts, and what a check proves, said of runs; and that a pair of texts has one report.
//!
//! The function does nothing: its contract is the laws, and a caller has them after the call.
ghost use Rattle.std.specs.Prelude.{◌≡◌, ◌+◌, ℕ, List, [], length};
ghost use Rattle.grading.specs.Grade.{IsGraded, IsSound};
ghost use Rattle.grading.specs.Pair.{AreGradable, HasOtherNames};
ghost use Rattle.grading.specs.declared.report.GradeReport.{GradeReport};
ghost use Rattle.grading.specs.declared.report.Mode.{Mode};
ghost use Rattle.grading.specs.declared.report.Mode.TheVariants.{Check, Grade};

use ae_net::{fault_laws, one_run};
use blif_read::said_law;
use fault_sim::detects_law;
use redundancy::evidence_law;

/// Where a check finds no response wrong and no fault left, each response is what the network shows, and each fault at a fault site is
/// detected by a vector or by no point at all: evidence that holds proves that, whoever made it. Each fault is detected, proved
/// undetectable or left, and a grading proves none. Two texts have one report, and none where their names differ.
pub fn grade_law()
    ensures sound { (net_bytes vec_bytes : List ℕ) (report : GradeReport) → IsGraded Check net_bytes vec_bytes report → report.wrong ≡ 0 → report.left ≡ [] → IsSound net_bytes vec_bytes }
    ensures all { (mode : Mode) (net_bytes vec_bytes : List ℕ) (report : GradeReport) → IsGraded mode net_bytes vec_bytes report → report.told + report.proved + length report.left ≡ report.faults }
    ensures none_proved { (net_bytes vec_bytes : List ℕ) (report : GradeReport) → IsGraded Grade net_bytes vec_bytes report → report.proved ≡ 0 }
    ensures one { (mode : Mode) (net_bytes vec_bytes : List ℕ) (a b : GradeReport) → IsGraded mode net_bytes vec_bytes a → IsGraded mode net_bytes vec_bytes b → a ≡ b }
    ensures names { (net_bytes vec_bytes : List ℕ) → AreGradable net_bytes vec_bytes → ¬ (HasOtherNames net_bytes vec_bytes) }
{
    one_run();
    detects_law();
    fault_laws();
    said_law();
    evidence_law();
}
