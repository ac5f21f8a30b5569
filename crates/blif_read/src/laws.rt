//! What holds of the network that a text says, and that a written text says its network again.
//!
//! The functions do nothing: each one's contract is the law, and a caller has it after the call.
ghost use Rattle.std.specs.Prelude.{◌≡◌, ◌≤◌, ℕ, List, Ok, length};
ghost use Rattle.ae_base.specs.declared.limits.TheConstants.{WRITTEN_LINES};
ghost use Rattle.ae_net.specs.Blif.{blif_text};
ghost use Rattle.ae_net.specs.Network.{Network};
ghost use Rattle.ae_net.specs.Valid.{IsValid};
ghost use Rattle.blif_read.specs.Limits.{KeepsLimits};
ghost use Rattle.blif_read.specs.Says.{blif_says};
ghost use Rattle.blif_read.specs.declared.fault.NetLimits.{NetLimits};
ghost use Rattle.blif_read.specs.declared.fault.NetLimits.TheVariants.{Written};

/// What a text says, where it says a network, is valid and within the limits asked for. A valid network of few enough inputs and outputs
/// is within those of a written netlist.
pub fn said_law()
    ensures valid { (limits : NetLimits) (text : List ℕ) (net : Network) → blif_says limits text ≡ Ok net → IsValid net }
    ensures keeps { (limits : NetLimits) (text : List ℕ) (net : Network) → blif_says limits text ≡ Ok net → KeepsLimits limits net }
    ensures written { (n : Network) → IsValid n → length n.inputs ≤ WRITTEN_LINES → length n.outputs ≤ WRITTEN_LINES → KeepsLimits Written n }
{}

/// The text of a valid network within the limits of a written netlist says that network, under those limits.
pub fn said_again()
    ensures { (n : Network) → IsValid n → KeepsLimits Written n → blif_says Written (blif_text n) ≡ Ok n }
{}
