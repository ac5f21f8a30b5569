//! What a store that is kept shows.
//!
//! The function does nothing: its contract is the law, and a caller has it after the call.
ghost use Rattle.std.specs.Prelude.{ℕ, Bool, Option, List};
ghost use Rattle.ae_base.specs.Mask.{Set};
ghost use Rattle.ae_net.specs.declared.net.Fault.{Fault};
ghost use Rattle.ae_net.specs.Network.{Network};
ghost use Rattle.fn_store.specs.Functions.{Functions, Keeps};
ghost use Rattle.fn_store.specs.declared.store.FnRef.{FnRef};
ghost use Rattle.net_fn.specs.Refs.{ShowEach};
ghost use Rattle.net_fn.specs.Signals.{ShowSignals};

/// References go on to show what they show in a store that is kept: functions, or those of a network's signals.
pub fn kept_law()
    ensures functions { (s t : Functions) (refs : List FnRef) (fs : ℕ → Set → Bool) → Keeps s t → ShowEach s refs fs → ShowEach t refs fs }
    ensures signals { (s t : Functions) (n : Network) (fault : Option Fault) (k : ℕ) (refs : List FnRef) → Keeps s t → ShowSignals s n fault k refs → ShowSignals t n fault k refs }
{}
