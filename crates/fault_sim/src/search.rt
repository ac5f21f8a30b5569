//! The search for the first point that detects each fault, a pass of them at a time.
ghost use Rattle.std.specs.Prelude.{◌≡◌, ◌<◌, ◌≤◌, ◌+◌, ◌^◌, ℕ, List, true, false, IfOk, IfSome, OnOk, length, slice_index};
ghost use Rattle.std.specs.List.{AllZip};
ghost use Rattle.std.specs.Option.{option_map};
ghost use Rattle.ae_base.specs.Mask.{Set};
ghost use Rattle.fault_sim.specs.Answers.{IsFirstTelling};
ghost use Rattle.fault_sim.specs.Bench.{IsBench};
ghost use Rattle.fault_sim.specs.Lanes.{AreFirstBelow, AreNone, IsFirstBelow, IsPass};

use crate::alone::try_alone;
use crate::bench::{Bench, begin_pass, told_by, use_all_lanes};
use crate::laws::detects_law;
use crate::words::{LANES, first_lane};
use ae_base::{Memory, Point};
use ae_net::{Fault, Net, valid_law};
use std::alloc::Global;

/// The place of the point in the lane, the lanes having the points from `base` on.
fn place_of(base: u32, lane: Option<u32>) -> Option<u32>
    requires { IfSome lane (λ lane. base + lane < 2 ^ 32) }
    ensures { result ≡ option_map (λ lane. base + lane) lane }
{
    match lane {
        Some(lane) => Some(base + lane),
        None => None,
    }
}

/// Nothing is found of so many faults.
pub fn nothing_found(alloc: Global, count: usize) -> Result<Vec<Option<u32>>, Memory>
    ensures none { IfOk result (λ found. AreNone found.items) }
    ensures len { IfOk result (λ found. length found.items ≡ count) }
{
    let mut found = Vec::new(alloc);
    for _ in 0..count {
        found.push(None)?;
    }
    Ok(found)
}

/// What is known of the fault after a pass over `count` points from `base` on, and was known before.
fn try_fault(
    net: &Net,
    fault: Fault,
    base: u32,
    count: u32,
    bench: &mut Bench,
    found: Option<u32>,
) -> Result<Option<u32>, Memory>
    requires bench { IsBench net.now bench.old }
    requires all { bench.old.held.all ≡ true }
    requires count { count ≤ LANES }
    requires few { base + count < 2 ^ 32 }
    ensures bench { OnOk result (IsBench net.now bench.new) }
    ensures good { OnOk result (bench.new.good ≡ bench.old.good) }
    ensures all { OnOk result (bench.new.held.all ≡ true) }
    ensures first { IfOk result (λ first. (points : List Set) → IsPass net.now points base count bench.old.good.items → IsFirstBelow net.now points base fault found → IsFirstBelow net.now points (base + count) fault first) }
{
    match found {
        Some(i) => Ok(Some(i)),
        None => {
            let told = told_by(net, fault, bench)?;
            Ok(place_of(base, first_lane(told, count)))
        }
    }
}

/// Tries each fault of the list for which nothing is found.
fn try_faults(
    net: &Net,
    list: &[Fault],
    base: u32,
    count: u32,
    bench: &mut Bench,
    found: &mut [Option<u32>],
) -> Result<(), Memory>
    requires bench { IsBench net.now bench.old }
    requires all { bench.old.held.all ≡ true }
    requires count { count ≤ LANES }
    requires few { base + count < 2 ^ 32 }
    requires len { length found.old ≡ length list.now }
    ensures bench { OnOk result (IsBench net.now bench.new) }
    ensures all { OnOk result (bench.new.held.all ≡ true) }
    ensures len { OnOk result (length found.new ≡ length found.old) }
    ensures first { OnOk result ((points : List Set) → IsPass net.now points base count bench.old.good.items → AreFirstBelow net.now points base list.now found.old 0 (length list.now) → AreFirstBelow net.now points (base + count) list.now found.new 0 (length list.now)) }
{
    for k in 0..list.len() {
        found[k] = try_fault(net, list[k], base, count, bench, found[k])?;
    }
    Ok(())
}

/// The points of one pass, those from `base` on.
pub fn next_points(points: &[Point], base: usize) -> &[Point]
    requires { base < length points.now }
    ensures few { length result.now ≤ LANES }
    ensures some { 0 < length result.now }
    ensures within { base + length result.now ≤ length points.now }
    ensures points { (l : ℕ) → l < length result.now → slice_index result.now l ≡ slice_index points.now (base + l) }
{
    let left = points.len() - base;
    let count = if left < LANES { left } else { LANES };
    &points[base..base + count]
}

/// Tries all faults of the list on the points from place `from` on, a pass of them after another.
fn try_passes(
    net: &Net,
    points: &[Point],
    from: usize,
    list: &[Fault],
    bench: &mut Bench,
    found: &mut [Option<u32>],
) -> Result<(), Memory>
    requires bench { IsBench net.now bench.old }
    requires all { bench.old.held.all ≡ true }
    requires few { length points.now < 2 ^ 32 }
    requires from { from ≤ length points.now }
    requires len { length found.old ≡ length list.now }
    requires first { AreFirstBelow net.now points.now from list.now found.old 0 (length list.now) }
    ensures first { OnOk result (AreFirstBelow net.now points.now (length points.now) list.now found.new 0 (length list.now)) }
    ensures len { OnOk result (length found.new ≡ length found.old) }
{
    let mut base = from;
    while base < points.len() {
        let now = next_points(points, base);
        begin_pass(net, now, bench);
        try_faults(net, list, base as u32, now.len() as u32, bench, found)?;
        base += now.len();
    }
    Ok(())
}

/// The most points that are tried one at a time.
const MOST_ALONE: usize = 32;

/// How many of the first points are tried one at a time, with a fault in each lane: the first few detect most faults. It is a matter of time alone.
fn points_alone(points: usize, faults: usize) -> usize
    ensures { result ≤ points }
{
    points.min(faults).min(MOST_ALONE)
}

/// Tries all faults of the list on all points: on the first ones a point at a time, on the others a pass of them at a time.
pub fn try_points(
    net: &Net,
    points: &[Point],
    list: &[Fault],
    bench: &mut Bench,
    found: &mut [Option<u32>],
) -> Result<(), Memory>
    requires bench { IsBench net.now bench.old }
    requires all { bench.old.held.all ≡ false }
    requires few { length points.now < 2 ^ 32 }
    requires len { length found.old ≡ length list.now }
    requires first { AreNone found.old }
    ensures first { OnOk result (AllZip (IsFirstTelling net.now points.now) list.now found.new) }
    ensures len { OnOk result (length found.new ≡ length found.old) }
{
    detects_law();
    valid_law(net);
    let alone = points_alone(points.len(), list.len());
    try_alone(net, points, alone, list, bench, found)?;
    use_all_lanes(net, bench);
    try_passes(net, points, alone, list, bench, found)?;
    Ok(())
}
