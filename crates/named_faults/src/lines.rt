//! The undetectable faults of a network, as a vector file lists them.
ghost use Rattle.std.specs.Prelude.{All, IfOk};
ghost use Rattle.std.specs.List.{AllZip};
ghost use Rattle.ae_net.specs.Faults.{IsPlace, fault_list};
ghost use Rattle.named_faults.specs.Lines as spec;
ghost use Rattle.named_faults.specs.Lines.{AreUndetectable, IsLineOf, IsShown};
ghost use Rattle.test_gen.specs.Selection.{IsSelection};
ghost use Rattle.test_gen.specs.Undetectable.{IsUndetectable};
ghost use Rattle.vec_text.specs.VectorFile.{IsIdle};

use crate::names::{NamedFault, named};
use ae_base::{Memory, Seq};
use ae_net::{Fault, Net, fault_laws, valid_law};
use redundancy::{Found, evidence, evidence_law, found_law};
use std::alloc::Global;
use vec_text::{Idle, Shown};

/// The evidence tree of an undetectable fault, or that it is too wide.
fn shown_of(alloc: Global, net: &Net, fault: Fault) -> Result<Shown, Memory>
    requires place { IsPlace net.now fault.place }
    requires undetectable { IsUndetectable net.now fault }
    ensures { IfOk result (IsShown net.now fault) }
{
    valid_law(net);
    evidence_law();
    found_law();
    match evidence(alloc, net, fault)? {
        Found::Tree(word) => Ok(Shown::Tree(Seq::from_vec(word))),
        Found::TooWide => Ok(Shown::Wide),
        // No point detects the fault, so none is found.
        Found::Differs(_) => unreachable!(),
    }
}

/// The line of an undetectable fault.
#[tactic(auto, unfolding(crate::specs::Names::named))]
fn line_of(alloc: Global, net: &Net, fault: Fault) -> Result<Idle, Memory>
    requires place { IsPlace net.now fault.place }
    requires undetectable { IsUndetectable net.now fault }
    ensures line { IfOk result (IsLineOf net.now fault) }
    ensures valid { IfOk result IsIdle }
{
    valid_law(net);
    fault_laws();
    let shown = shown_of(alloc, net, fault)?;
    let NamedFault { place, value } = named(alloc, net, fault)?;
    Ok(Idle {
        place,
        value,
        shown,
    })
}

/// The lines of undetectable faults, in order.
fn lines_of(alloc: Global, net: &Net, faults: &[Fault]) -> Result<Seq<Idle>, Memory>
    requires places { All (λ fault. IsPlace net.now fault.place) faults.now }
    requires undetectable { All (IsUndetectable net.now) faults.now }
    ensures lines { IfOk result (AllZip (IsLineOf net.now) faults.now) }
    ensures valid { IfOk result (All IsIdle) }
{
    let mut lines = Seq::new(alloc);
    for fault in faults {
        lines.push(line_of(alloc, net, *fault)?)?;
    }
    Ok(lines)
}

/// The lines of the undetectable faults of a network, which these are, in fault order.
pub fn undetectable_lines(alloc: Global, net: &Net, faults: &[Fault]) -> Result<Seq<Idle>, Memory>
    requires { IsSelection (IsUndetectable net.now) (fault_list net.now) faults.now }
    ensures lines { IfOk result (AreUndetectable net.now) }
    ensures valid { IfOk result (All IsIdle) }
{
    valid_law(net);
    fault_laws();
    lines_of(alloc, net, faults)
}
