//! The search for the first point that detects each fault, a point at a time, with a fault in each lane.
ghost use Rattle.std.specs.Prelude.{◌≡◌, ◌<◌, ◌≤◌, ◌+◌, ◌^◌, ℕ, [], List, All, false, IfOk, OnOk, length, slice_index};
ghost use Rattle.ae_base.specs.Mask.{Set};
ghost use Rattle.fault_sim.specs.Bench.{IsBench};
ghost use Rattle.fault_sim.specs.Lanes.{AreFirstBelow, IsAlone};
ghost use Rattle.fault_sim.specs.Sites.{IsHeld};
ghost use Rattle.fault_sim.specs.Taken.{AreWritten, IsTaken};

use crate::bench::{Bench, begin_point};
use crate::cone::telling;
use crate::held::{Held, hold, release};
use crate::words::{LANES, Word, has_lane};
use ae_base::{Memory, Point};
use ae_net::{Fault, Net};

/// Takes the next faults for which nothing is found, from place `from` on, as many as there are lanes, and answers the place behind them.
fn take_next(
    net: &Net,
    list: &[Fault],
    from: usize,
    found: &[Option<u32>],
    ids: &mut Vec<usize>,
    held: &mut Held,
) -> Result<usize, Memory>
    requires from { from < length list.now }
    requires len { length found.now ≡ length list.now }
    requires ids { ids.old.items ≡ [] }
    requires held { IsHeld net.now held.old }
    requires none { held.old.faults.items ≡ [] }
    requires all { held.old.all ≡ false }
    ensures more { IfOk result (λ to. from < to) }
    ensures within { IfOk result (λ to. to ≤ length list.now) }
    ensures taken { IfOk result (λ to. IsTaken list.now found.now ids.new.items held.new.faults.items from to) }
    ensures held { OnOk result (IsHeld net.now held.new) }
    ensures all { OnOk result (held.new.all ≡ false) }
{
    for k in from..list.len() {
        if ids.len() >= LANES {
            return Ok(k);
        }
        if found[k].is_none() {
            hold(net, list[k], held)?;
            ids.push(k)?;
        }
    }
    Ok(list.len())
}

/// Writes the place of the point at the faults in whose lanes it is told.
fn write_found(told: Word, point: u32, ids: &[usize], found: &mut [Option<u32>])
    requires few { length ids.now ≤ LANES }
    requires within { All (λ k. k < length found.old) ids.now }
    ensures written { AreWritten told point ids.now found.old found.new (length ids.now) }
    ensures len { length found.new ≡ length found.old }
{
    for e in 0..ids.len() {
        if has_lane(told, e as u32) {
            found[ids[e]] = Some(point);
        }
    }
}

/// Tries the next faults of the list for which nothing is found on the point of the bench, and answers the place behind them.
fn try_next(
    net: &Net,
    point: u32,
    list: &[Fault],
    from: usize,
    bench: &mut Bench,
    found: &mut [Option<u32>],
) -> Result<usize, Memory>
    requires from { from < length list.now }
    requires len { length found.old ≡ length list.now }
    requires bench { IsBench net.now bench.old }
    requires all { bench.old.held.all ≡ false }
    ensures more { IfOk result (λ to. from < to) }
    ensures within { IfOk result (λ to. to ≤ length list.now) }
    ensures bench { OnOk result (IsBench net.now bench.new) }
    ensures all { OnOk result (bench.new.held.all ≡ false) }
    ensures good { OnOk result (bench.new.good ≡ bench.old.good) }
    ensures len { OnOk result (length found.new ≡ length found.old) }
    ensures first { IfOk result (λ to. (points : List Set) → IsAlone net.now (slice_index points point) bench.old.good.items → AreFirstBelow net.now points (point + 1) list.now found.old 0 from → AreFirstBelow net.now points point list.now found.old from (length list.now) → AreFirstBelow net.now points (point + 1) list.now found.new 0 to) }
    ensures left { IfOk result (λ to. (points : List Set) → AreFirstBelow net.now points point list.now found.old from (length list.now) → AreFirstBelow net.now points point list.now found.new to (length list.now)) }
{
    let to = take_next(net, list, from, found, &mut bench.ids, &mut bench.held)?;
    let told = telling(
        net,
        &bench.held,
        bench.good.as_slice(),
        bench.readers.as_slice(),
        &mut bench.cone,
    );
    write_found(told, point, bench.ids.as_slice(), found);
    release(net, &mut bench.held);
    bench.ids.clear();
    Ok(to)
}

/// Tries each fault of the list for which nothing is found on one point.
fn try_point(
    net: &Net,
    point: u32,
    list: &[Fault],
    bench: &mut Bench,
    found: &mut [Option<u32>],
) -> Result<(), Memory>
    requires len { length found.old ≡ length list.now }
    requires bench { IsBench net.now bench.old }
    requires all { bench.old.held.all ≡ false }
    ensures bench { OnOk result (IsBench net.now bench.new) }
    ensures all { OnOk result (bench.new.held.all ≡ false) }
    ensures len { OnOk result (length found.new ≡ length found.old) }
    ensures first { OnOk result ((points : List Set) → IsAlone net.now (slice_index points point) bench.old.good.items → AreFirstBelow net.now points point list.now found.old 0 (length list.now) → AreFirstBelow net.now points (point + 1) list.now found.new 0 (length list.now)) }
{
    let mut from = 0;
    while from < list.len() {
        from = try_next(net, point, list, from, bench, found)?;
    }
    Ok(())
}

/// Tries all faults of the list on the first `count` points, one after another.
pub fn try_alone(
    net: &Net,
    points: &[Point],
    count: usize,
    list: &[Fault],
    bench: &mut Bench,
    found: &mut [Option<u32>],
) -> Result<(), Memory>
    requires few { length points.now < 2 ^ 32 }
    requires count { count ≤ length points.now }
    requires len { length found.old ≡ length list.now }
    requires bench { IsBench net.now bench.old }
    requires all { bench.old.held.all ≡ false }
    ensures bench { OnOk result (IsBench net.now bench.new) }
    ensures len { OnOk result (length found.new ≡ length found.old) }
    ensures first { OnOk result (AreFirstBelow net.now points.now 0 list.now found.old 0 (length list.now) → AreFirstBelow net.now points.now count list.now found.new 0 (length list.now)) }
{
    for p in 0..count {
        begin_point(net, &points[p], bench);
        try_point(net, p as u32, list, bench, found)?;
    }
    Ok(())
}
