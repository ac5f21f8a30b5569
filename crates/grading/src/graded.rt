//! Grading and checking: how the vectors of a file fare with a network of the same names.
ghost use Rattle.std.specs.Prelude.{◌≡◌, ◌<◌, ◌≤◌, ◌⊎◌, ◌^◌, ℕ, IfOk, IsOk, IsErrOf, Err, length};
ghost use Rattle.ae_base.specs.declared.limits.TheConstants.{TEXT_BYTES};
ghost use Rattle.blif_read.specs.Says.{blif_says};
ghost use Rattle.blif_read.specs.declared.fault.BlifFault.{BlifFault};
ghost use Rattle.blif_read.specs.declared.fault.NetLimits.TheVariants.{Written};
ghost use Rattle.grading.specs.Grade as spec;
ghost use Rattle.grading.specs.Grade.{IsGraded, IsReport};
ghost use Rattle.grading.specs.Pair.{AreGradable, HasOtherNames, HasVectorFault};
ghost use Rattle.grading.specs.declared.pair_error.PairErr.TheVariants as pair_err;
ghost use Rattle.vec_text.specs.declared.fault.VecFault.{VecFault};

use crate::missed::parts_of;
use crate::pair::read_pair;
use crate::pair_error::PairErr;
use crate::report::{GradeReport, Mode};
use crate::responses::{points_of, wrong_count};
use ae_base::Memory;
use ae_net::{Net, faults, one_run, valid_law};
use fault_sim::detects_law;
use std::alloc::Global;
use vec_text::{Idle, VecFile};

/// The lines of undetectable faults that are looked at.
fn looked_at(mode: Mode, file: &VecFile) -> &[Idle]
    ensures { result.now ≡ spec.looked_at mode file.now }
{
    match mode {
        Mode::Grade => &[],
        Mode::Check => file.unchanged.as_slice(),
    }
}

/// What is found of the vectors of a file on a network.
fn report_of(alloc: Global, mode: Mode, net: &Net, file: &VecFile) -> Result<GradeReport, Memory>
    requires { length file.now.vectors < 2 ^ 32 }
    ensures { IfOk result (IsReport mode net.now file.now) }
{
    valid_law(net);
    one_run();
    detects_law();
    let vectors = file.vectors.as_slice();
    let points = points_of(alloc, vectors)?;
    let wrong = wrong_count(alloc, net, vectors, &points)?;
    let list = faults(alloc, net)?;
    let parts = parts_of(alloc, net, &points, looked_at(mode, file), &list)?;
    Ok(GradeReport {
        vectors: vectors.len() as u64,
        wrong,
        faults: list.len() as u64,
        told: list.len() as u64 - parts.proved - parts.unproved.len() as u64,
        proved: parts.proved,
        left: parts.unproved,
    })
}

/// How the vectors of a vector text fare with the network of a netlist that has the same names: the vectors whose responses are wrong, and
/// the single stuck-at faults that they detect and that they miss. A check also looks which of the faults that they miss the file proves
/// undetectable, by an evidence tree that holds, whoever made it. Both texts have at most `TEXT_BYTES` bytes.
///
/// `Blif` comes exactly where the netlist has a fault, under the limits of a written one, with the first one and its line; `Vector` exactly
/// where it has none and the vector text has one; `NamesDiffer` exactly where neither has one and the lists of input names or of output
/// names differ; `Memory` for want of memory alone. The faults are those of the single stuck-at model.
pub fn grade(
    alloc: Global,
    mode: Mode,
    net_bytes: &[u8],
    vec_bytes: &[u8],
) -> Result<GradeReport, PairErr>
    requires net_short { length net_bytes.now ≤ TEXT_BYTES }
    requires vec_short { length vec_bytes.now ≤ TEXT_BYTES }
    ensures graded { IfOk result (IsGraded mode net_bytes.now vec_bytes.now) }
    ensures blif { (line : ℕ) (what : BlifFault) → IsErrOf result (pair_err.Blif line what) → blif_says Written net_bytes.now ≡ Err (line, what) }
    ensures vector { (line : ℕ) (what : VecFault) → IsErrOf result (pair_err.Vector line what) → HasVectorFault net_bytes.now vec_bytes.now line what }
    ensures names { IsErrOf result pair_err.NamesDiffer → HasOtherNames net_bytes.now vec_bytes.now }
    // Each cause has its answer, unless memory is wanting.
    ensures always_blif { (line : ℕ) (what : BlifFault) → blif_says Written net_bytes.now ≡ Err (line, what) → IsErrOf result (pair_err.Blif line what) ⊎ IsErrOf result pair_err.Memory }
    ensures always_vector { (line : ℕ) (what : VecFault) → HasVectorFault net_bytes.now vec_bytes.now line what → IsErrOf result (pair_err.Vector line what) ⊎ IsErrOf result pair_err.Memory }
    ensures always_names { HasOtherNames net_bytes.now vec_bytes.now → IsErrOf result pair_err.NamesDiffer ⊎ IsErrOf result pair_err.Memory }
    ensures complete { AreGradable net_bytes.now vec_bytes.now → IsOk result ⊎ IsErrOf result pair_err.Memory }
{
    let pair = read_pair(alloc, net_bytes, vec_bytes)?;
    Ok(report_of(alloc, mode, &pair.net, &pair.file)?)
}
