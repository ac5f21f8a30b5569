//! The faults of a network that no vector detects, parted by what a vector file proves of them.
ghost use Rattle.std.specs.Prelude.{◌≡◌, ◌<◌, ◌≤◌, ◌^◌, ◌+◌, IfOk, OnOk, length};
ghost use Rattle.ae_net.specs.Faults.{IsPlace, fault_list};
ghost use Rattle.ae_net.specs.Network.{signals};
ghost use Rattle.grading.specs.Parts.{ArePartedSoFar, IsSorted};

use crate::evidence::is_proved;
use crate::table::LinesByName;
use ae_base::{Memory, Point, Seq};
use ae_net::{Fault, Net, Scratch, fault_laws, scratch_for, valid_law};
use fault_sim::{detects_law, first_telling};
use named_faults::{NamedFault, named};
use std::alloc::Global;
use vec_text::Idle;

/// The missed faults so far: how many are proved undetectable, and the others by their names.
#[derive(Drop)]
pub struct Parts {
    pub proved: u64,
    pub unproved: Seq<NamedFault>,
}

/// Puts one more missed fault where it belongs.
fn sort(
    alloc: Global,
    net: &Net,
    fault: Fault,
    lines: &LinesByName,
    scratch: &mut Scratch,
    parts: &mut Parts,
) -> Result<(), Memory>
    requires place { IsPlace net.now fault.place }
    requires room { signals net.now ≤ scratch.old }
    requires few { parts.old.proved + 1 < 2 ^ 64 }
    ensures sorted { OnOk result (IsSorted net.now lines.now fault parts.old parts.new) }
    ensures room { scratch.new ≡ scratch.old }
{
    let name = named(alloc, net, fault)?;
    if is_proved(net, fault, &name, lines, scratch) {
        parts.proved += 1;
    } else {
        parts.unproved.push(name)?;
    }
    Ok(())
}

/// The faults of the network that none of the points detects, parted.
pub fn parts_of(
    alloc: Global,
    net: &Net,
    points: &[Point],
    lines: &[Idle],
    list: &[Fault],
) -> Result<Parts, Memory>
    requires few { length points.now < 2 ^ 32 }
    requires faults { list.now ≡ fault_list net.now }
    ensures { IfOk result (λ parts. ArePartedSoFar net.now lines.now points.now list.now parts) }
{
    detects_law();
    fault_laws();
    valid_law(net);
    let table = LinesByName::new(alloc, lines)?;
    let found = first_telling(alloc, net, points, list)?;
    let mut scratch = scratch_for(alloc, net)?;
    let mut parts = Parts {
        proved: 0,
        unproved: Seq::new(alloc),
    };
    for i in 0..list.len() {
        if found[i].is_none() {
            sort(alloc, net, list[i], &table, &mut scratch, &mut parts)?;
        }
    }
    Ok(parts)
}
