//! The words of evidence trees, and the check of one.
ghost use Rattle.std.specs.Prelude.{◌≡◌, ◌↔◌, ◌≤◌, length, Some, IsTrue, MatchOption};
ghost use Rattle.std.specs.Bool.{OnTrue};
ghost use Rattle.ae_net.specs.Faults.{IsPlace};
ghost use Rattle.ae_net.specs.Network.{signals};
ghost use Rattle.ae_net.specs.Valid.{IsValid};
ghost use Rattle.redundancy.specs.Evidence.{WordHolds};
ghost use Rattle.redundancy.specs.Reading.{ReadsTo, HasNoTree};
ghost use Rattle.redundancy.specs.Undetectable.{IsUndetectable};

use crate::laws::evidence_law;
use crate::lines::{Subcube, leaf_holds};
use ae_base::Step;
use ae_net::{Fault, Net, Scratch};

/// Reads a tree from the letter in place `at` on. `None` where there is no tree, or a leaf of it does not hold; else the place after it.
fn read_tree(
    net: &Net,
    fault: Fault,
    cube: &Subcube,
    word: &[Step],
    at: usize,
    bytes: &mut [u8],
) -> Option<usize>
    requires place { IsPlace net.now fault.place }
    requires room { signals net.now ≤ length bytes.old }
    requires depth { cube.now.depth ≤ length net.now.inputs }
    ensures reads { MatchOption result (HasNoTree net.now fault cube.now word.now at) (λ end. ReadsTo net.now fault cube.now word.now at end) }
    ensures valid { IsValid net.now }
{
    let inputs = net.inputs().len();
    if at >= word.len() {
        return None;
    }
    match word[at] {
        Step::L => if leaf_holds(net, fault, cube, bytes) {
            Some(at + 1)
        } else {
            None
        },
        Step::S => {
            if cube.depth as usize == inputs {
                return None;
            }
            match read_tree(net, fault, &cube.low(), word, at + 1, bytes) {
                None => None,
                Some(middle) => read_tree(net, fault, &cube.high(), word, middle, bytes),
            }
        }
    }
}

/// Whether the tree that was read ends where the word does.
fn is_whole(end: Option<usize>, word: &[Step]) -> bool
    ensures { IsTrue result ↔ (end ≡ Some (length word.now)) }
{
    match end {
        None => false,
        Some(end) => end == word.len(),
    }
}

/// Whether the word is a whole tree each of whose leaves holds for the fault. Where it is, no point detects the fault, whoever made the
/// word. It takes no memory: the scratch is handed in.
pub fn check_tree(net: &Net, fault: Fault, word: &[Step], scratch: &mut Scratch) -> bool
    requires place { IsPlace net.now fault.place }
    requires room { signals net.now ≤ scratch.old }
    ensures holds { IsTrue result ↔ WordHolds net.now fault word.now }
    ensures undetectable { OnTrue result (IsUndetectable net.now fault) }
    ensures room { scratch.new ≡ scratch.old }
{
    evidence_law();
    let end = read_tree(net, fault, &Subcube::whole(), word, 0, scratch.bytes());
    is_whole(end, word)
}
