//! A netlist and a vector file with the same names.
ghost use Rattle.std.specs.Prelude.{◌≡◌, ◌<◌, ◌≤◌, ◌^◌, ◌↔◌, ℕ, List, IfOk, IsErrOf, IsTrue, Err, length};
ghost use Rattle.ae_base.specs.declared.limits.TheConstants.{TEXT_BYTES};
ghost use Rattle.blif_read.specs.Says.{blif_says};
ghost use Rattle.blif_read.specs.declared.fault.BlifFault.{BlifFault as blif_fault};
ghost use Rattle.blif_read.specs.declared.fault.NetLimits.TheVariants.{Written};
ghost use Rattle.grading.specs.Pair.{HasOtherNames, HasVectorFault, HaveSameNames, IsPair};
ghost use Rattle.grading.specs.declared.pair_error.PairErr.TheVariants as pair_err;
ghost use Rattle.vec_text.specs.declared.fault.VecFault.{VecFault as vec_fault};

use crate::pair_error::PairErr;
use ae_base::{Memory, Name};
use ae_net::Net;
use blif_read::{NetLimits, read_blif};
use named_faults::port_names;
use std::alloc::Global;
use vec_text::{VecFile, read_vec};

/// A network, and a vector file with its names.
#[derive(Drop)]
pub struct Pair {
    pub net: Net,
    pub file: VecFile,
}

/// Whether the lists have the same names in the same order.
fn same_names(a: &[Name], b: &[Name]) -> bool
    ensures { IsTrue result ↔ (a.now ≡ b.now) }
{
    a == b
}

/// Whether the file's names are those of the network.
fn have_same_names(alloc: Global, net: &Net, file: &VecFile) -> Result<bool, Memory>
    ensures { IfOk result (λ same. IsTrue same ↔ HaveSameNames net.now file.now) }
{
    let outputs = port_names(alloc, net)?;
    Ok(
        same_names(file.inputs.as_slice(), net.inputs())
            && same_names(file.outputs.as_slice(), outputs.as_slice()),
    )
}

/// Reads a netlist, under the limits of a written one, and a vector text.
pub fn read_pair(alloc: Global, net_bytes: &[u8], vec_bytes: &[u8]) -> Result<Pair, PairErr>
    requires net_short { length net_bytes.now ≤ TEXT_BYTES }
    requires vec_short { length vec_bytes.now ≤ TEXT_BYTES }
    ensures pair { IfOk result (λ pair. IsPair net_bytes.now vec_bytes.now pair.net pair.file) }
    ensures few { IfOk result (λ pair. length pair.file.vectors < 2 ^ 32) }
    ensures blif { (line : ℕ) (what : blif_fault) → IsErrOf result (pair_err.Blif line what) → blif_says Written net_bytes.now ≡ Err (line, what) }
    ensures vector { (line : ℕ) (what : vec_fault) → IsErrOf result (pair_err.Vector line what) → HasVectorFault net_bytes.now vec_bytes.now line what }
    ensures names { IsErrOf result pair_err.NamesDiffer → HasOtherNames net_bytes.now vec_bytes.now }
{
    let net = read_blif(alloc, net_bytes, NetLimits::Written)?;
    let file = read_vec(alloc, vec_bytes)?;
    if !have_same_names(alloc, &net, &file)? {
        return Err(PairErr::NamesDiffer);
    }
    Ok(Pair { net, file })
}
