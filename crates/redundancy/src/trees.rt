//! The evidence tree of a fault.
ghost use Rattle.std.specs.Prelude.{◌≡◌, ◌≤◌, ◌-◌, length, IfOk, OnOk};
ghost use Rattle.ae_net.specs.Faults.{IsPlace};
ghost use Rattle.ae_net.specs.Network.{signals};
ghost use Rattle.ae_net.specs.Valid.{IsValid};
ghost use Rattle.redundancy.specs.Visits.{IsFound};
ghost use Rattle.redundancy.specs.Growing as growing;

use crate::LEAVES;
use crate::laws::leaf_law;
use crate::lines::{Subcube, leaf_holds};
use ae_base::{Memory, Point, Step};
use ae_net::{Fault, Net, scratch_for};
use std::alloc::Global;

/// What the search for the tree of a fault finds.
#[derive(Debug, Drop)]
pub enum Found {
    /// The word of the whole tree: no point detects the fault.
    Tree(Vec<Step>),
    /// More than `LEAVES` leaves come before any point that detects the fault.
    TooWide,
    /// The first point in the order of the tree that detects the fault. It comes after `LEAVES` leaves at most.
    Differs(Point),
}

/// The word so far, and the number of its leaves.
#[derive(Drop)]
struct Growth {
    word: Vec<Step>,
    leaves: u32,
}

/// Adds a leaf, where there may be one more.
fn add_leaf(tree: &mut Growth) -> Result<Option<Found>, Memory>
    requires { tree.old.leaves ≤ LEAVES }
    ensures adds { IfOk result (growing.AddsLeaf tree.old tree.new) }
    ensures few { tree.new.leaves ≤ LEAVES }
{
    if tree.leaves == LEAVES {
        return Ok(Some(Found::TooWide));
    }
    tree.leaves += 1;
    tree.word.push(Step::L)?;
    Ok(None)
}

/// Adds a split, whose two trees are to follow.
fn add_split(tree: &mut Growth) -> Result<(), Memory>
    ensures adds { OnOk result (growing.AddsSplit tree.old tree.new) }
    ensures leaves { tree.new.leaves ≡ tree.old.leaves }
{
    tree.word.push(Step::S)?;
    Ok(())
}

/// Adds the tree of a subcube, up to what ends the search.
fn grow(
    net: &Net,
    fault: Fault,
    cube: &Subcube,
    tree: &mut Growth,
    bytes: &mut [u8],
) -> Result<Option<Found>, Memory>
    requires place { IsPlace net.now fault.place }
    requires room { signals net.now ≤ length bytes.old }
    requires depth { cube.now.depth ≤ length net.now.inputs }
    requires few { tree.old.leaves ≤ LEAVES }
    ensures grows { IfOk result (growing.Grows net.now fault (length net.now.inputs - cube.now.depth) cube.now tree.old tree.new) }
    ensures few { tree.new.leaves ≤ LEAVES }
    ensures valid { IsValid net.now }
{
    let inputs = net.inputs().len();
    if leaf_holds(net, fault, cube, bytes) {
        return add_leaf(tree);
    }
    if cube.depth as usize == inputs {
        return Ok(Some(Found::Differs(cube.point)));
    }
    add_split(tree)?;
    match grow(net, fault, &cube.low(), tree, bytes)? {
        None => grow(net, fault, &cube.high(), tree, bytes),
        Some(found) => Ok(Some(found)),
    }
}

/// The evidence tree of a fault at a place of the network. The tree is gone through in its order: `Tree` has the whole tree, `TooWide` comes
/// where one leaf more than `LEAVES` is met before any point that detects the fault, and `Differs` has the first such point where it is met
/// before. The only error is want of memory.
pub fn evidence(alloc: Global, net: &Net, fault: Fault) -> Result<Found, Memory>
    requires { IsPlace net.now fault.place }
    ensures { IfOk result (IsFound net.now fault) }
{
    leaf_law();
    let mut scratch = scratch_for(alloc, net)?;
    let mut tree = Growth {
        word: Vec::new(alloc),
        leaves: 0,
    };
    let stop = grow(net, fault, &Subcube::whole(), &mut tree, scratch.bytes())?;
    let Growth { word, leaves: _ } = tree;
    Ok(stop.unwrap_or(Found::Tree(word)))
}
