//! What it is that a vector detects a fault, said of the outputs as they are worked out.
//!
//! The function does nothing: its contract is the law, and a caller has it after the call.
ghost use Rattle.std.specs.Prelude.{◌↔◌};
ghost use Rattle.ae_base.specs.Mask.{Set};
ghost use Rattle.ae_net.specs.declared.net.Fault.{Fault};
ghost use Rattle.ae_net.specs.Detects.{Detects};
ghost use Rattle.ae_net.specs.Network.{Network};
ghost use Rattle.ae_net.specs.Out.{Differs};
ghost use Rattle.ae_net.specs.Valid.{IsValid};

use ae_net::one_run;

/// A vector detects a fault of a valid network exactly where the outputs with the fault, as they are worked out (`out`), differ from those
/// without it.
pub fn detects_law()
    ensures { (n : Network) (fault : Fault) (x : Set) → IsValid n → Detects n fault x ↔ Differs n fault x }
{
    one_run();
}
