//! What is made of a source is one.
ghost use Rattle.std.specs.Prelude.{◌≡◌, ℕ, List};
ghost use Rattle.polarity.specs.Search.{Advised};
ghost use Rattle.synth_core.specs.Asked.{HasTooMany, IsWithin};
ghost use Rattle.synth_core.specs.Made.{IsMade, Texts};
ghost use Rattle.synth_core.specs.declared.settings.Settings.{Settings};

use ae_net::{lead_law, one_run};
use factor::factored_law;
use fn_store::expansion_law;
use polarity::choice_law;
use redundancy::evidence_law;
use vec_text::said_law;

/// The bytes of a source, the settings, and for a search what the advisors were before and are after it, leave one network text, one
/// vector text and one set of numbers. No source is both within the limit on terms and past it.
pub fn one_answer_law()
    ensures one { (settings : Settings) (bytes : List ℕ) (before after : List Advised) (a b : Texts) → IsMade settings bytes before after a → IsMade settings bytes before after b → a ≡ b }
    ensures apart { (settings : Settings) (bytes : List ℕ) (output : ℕ) → IsWithin settings bytes → ¬ (HasTooMany settings bytes output) }
{
    one_run();
    lead_law();
    expansion_law();
    choice_law();
    factored_law();
    evidence_law();
    said_law();
}
