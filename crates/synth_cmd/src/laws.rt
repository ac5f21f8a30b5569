//! What follows from how a call ends: which statuses it has, and that one that writes its report has one end.
//!
//! The functions do nothing: their contracts are the laws, and a caller has them after the call.
ghost use Rattle.std.specs.Prelude.{◌≡◌, ◌≢◌, ℕ, List, [], ◌∷◌, Some, Contains};
ghost use Rattle.ae_outside.specs.Counts.{Rose};
ghost use Rattle.ae_outside.specs.Files.{Shelf};
ghost use Rattle.synth_cmd.specs.Asked.{Asked, Origin};
ghost use Rattle.synth_cmd.specs.Asked.Asked.{Grade, Synth};
ghost use Rattle.synth_cmd.specs.Asked.Origin.{Demo};
ghost use Rattle.synth_cmd.specs.Ends.{Ends, IsReported};
ghost use Rattle.synth_cmd.specs.Outside.{Outside};
ghost use Rattle.synth_cmd.specs.declared.TheConstants.{DONE, MEMORY, SHORTFALL, TOO_MANY_TERMS, WORDS, WRITE_FAULT};
ghost use Rattle.grading.specs.declared.report.Mode.{Mode};
ghost use Rattle.synth_core.specs.declared.settings.Settings.{Settings};

use grading::grade_law;
use synth_core::one_answer_law;

/// Where the files tell what they hold, two calls of the same words over the same outside that both write their report, and leave the same
/// of the advisors, as they do unless a search is asked for, end with the same status and leave the same files and the same report.
pub fn one_end_law()
    ensures { (words : Asked) (m : Shelf) (old a b : Outside) (s t : ℕ) → old.world.held ≡ Some m → a.world.advisors ≡ b.world.advisors → IsReported s → IsReported t → Ends words old a s → Ends words old b t
        → (s ≡ t) × (a.world.held ≡ b.world.held) × (a.taken ≡ b.taken) }
{
    one_answer_law();
    grade_law();
}

/// Statuses that a command never ends with: a synthesis with that of a shortfall; a demo, whose text is its own, with any but that it is
/// done, that of words for a polarity of another number of inputs, that of a write fault and that of memory; a command on a pair with that
/// of too many terms, and with that of a write fault only where a write of the report failed. Where the report is written, no count rose.
pub fn status_law()
    ensures synth { (settings : Settings) (source : Origin) (net vectors : List ℕ) (old new : Outside) (s : ℕ) → Ends (Synth settings source net vectors) old new s → s ≢ SHORTFALL }
    ensures demo { (settings : Settings) (number : ℕ) (net vectors : List ℕ) (old new : Outside) (s : ℕ) → Ends (Synth settings (Demo number) net vectors) old new s → Contains (DONE ∷ WORDS ∷ WRITE_FAULT ∷ MEMORY ∷ []) s }
    ensures grade { (mode : Mode) (net vectors : List ℕ) (old new : Outside) (s : ℕ) → Ends (Grade mode net vectors) old new s → (s ≢ TOO_MANY_TERMS) × (s ≡ WRITE_FAULT → Rose old.faults new.faults) }
    ensures quiet { (words : Asked) (old new : Outside) (s : ℕ) → IsReported s → Ends words old new s → (new.world.reads ≡ old.world.reads) × (new.world.writes ≡ old.world.writes) × (new.faults ≡ old.faults) }
{}
