//! The demo as a source.
ghost use Rattle.std.specs.Prelude.{◌≡◌, ◌≢◌, ◌≤◌, ℕ, Err, IfOk, length};
ghost use Rattle.ae_base.specs.declared.limits.TheConstants.{TEXT_BYTES};
ghost use Rattle.demo_source.specs.Demo as spec;
ghost use Rattle.synth_core.specs.Asked.{HasTooMany};
ghost use Rattle.synth_core.specs.Says.{source_says};
ghost use Rattle.synth_core.specs.declared.fault.TextFault.{TextFault};
ghost use Rattle.synth_core.specs.declared.settings.Settings.{Settings};
ghost use Rattle.synth_core.specs.declared.settings.SourceKind.TheVariants.{Pla};

use ae_base::{Form, Memory};
use demo_source::demo_law;
use std::alloc::Global;

/// The text of the demo of a seed in a form. It is no longer than a text may be, has no fault as a PLA, and its expansions have no more
/// terms than the form may have, at every polarity.
pub fn demo_text(alloc: Global, seed: u32, form: Form) -> Result<Vec<u8>, Memory>
    ensures text { IfOk result (λ text. text.items ≡ spec.demo_text seed form) }
    ensures short { length (spec.demo_text seed form) ≤ TEXT_BYTES }
    ensures accepted { (line : ℕ) (what : TextFault) → source_says Pla (spec.demo_text seed form) ≢ Err (line, what) }
    ensures few { (settings : Settings) (output : ℕ) → settings.kind ≡ Pla → settings.form ≡ form → ¬ (HasTooMany settings (spec.demo_text seed form) output) }
{
    demo_law();
    demo_source::demo_text(alloc, seed, form)
}
