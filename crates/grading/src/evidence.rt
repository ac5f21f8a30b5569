//! The evidence of a vector file that no point detects a fault.
ghost use Rattle.std.specs.Prelude.{◌≡◌, ◌≤◌, ◌↔◌, IsTrue};
ghost use Rattle.ae_net.specs.Faults.{IsPlace};
ghost use Rattle.ae_net.specs.Network.{signals};
ghost use Rattle.grading.specs.Grade.{IsEvidence, IsProofOf, IsProved};
ghost use Rattle.named_faults.specs.Names as spec;

use crate::table::{LinesByName, name_in};
use ae_net::{Fault, Net, Scratch};
use named_faults::NamedFault;
use redundancy::check_tree;
use vec_text::{Idle, PlaceName, Shown};

/// Whether two sites have one name.
fn same_place(a: &PlaceName, b: &PlaceName) -> bool
    ensures { IsTrue result ↔ (a.now ≡ b.now) }
{
    match (a, b) {
        (PlaceName::Stem(a), PlaceName::Stem(b)) => a == b,
        (PlaceName::Pin(a, i), PlaceName::Pin(b, k)) => a == b && i == k,
        (PlaceName::Port(a), PlaceName::Port(b)) => a == b,
        _ => false,
    }
}

/// Whether what is shown of a fault proves it.
fn is_evidence(net: &Net, fault: Fault, shown: &Shown, scratch: &mut Scratch) -> bool
    requires place { IsPlace net.now fault.place }
    requires room { signals net.now ≤ scratch.old }
    ensures holds { IsTrue result ↔ IsEvidence net.now fault shown.now }
    ensures room { scratch.new ≡ scratch.old }
{
    match shown {
        Shown::Tree(steps) => check_tree(net, fault, steps.as_slice(), scratch),
        Shown::Wide => false,
    }
}

/// Whether a line proves a fault, which has this name.
fn is_proof_of(
    net: &Net,
    fault: Fault,
    name: &NamedFault,
    line: &Idle,
    scratch: &mut Scratch,
) -> bool
    requires place { IsPlace net.now fault.place }
    requires name { name.now ≡ spec.named net.now fault }
    requires room { signals net.now ≤ scratch.old }
    ensures holds { IsTrue result ↔ IsProofOf net.now fault line.now }
    ensures room { scratch.new ≡ scratch.old }
{
    if line.value == name.value && same_place(&line.place, &name.place) {
        is_evidence(net, fault, &line.shown, scratch)
    } else {
        false
    }
}

/// Whether some line proves a fault, which has this name. Only the lines whose places have the name of its own are looked at.
pub fn is_proved(
    net: &Net,
    fault: Fault,
    name: &NamedFault,
    lines: &LinesByName,
    scratch: &mut Scratch,
) -> bool
    requires place { IsPlace net.now fault.place }
    requires name { name.now ≡ spec.named net.now fault }
    requires room { signals net.now ≤ scratch.old }
    ensures holds { IsTrue result ↔ IsProved net.now lines.now fault }
    ensures room { scratch.new ≡ scratch.old }
{
    for number in lines.numbers_of(name_in(&name.place)) {
        if is_proof_of(net, fault, name, lines.line(*number), scratch) {
            return true;
        }
    }
    false
}
