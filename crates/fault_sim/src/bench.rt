//! What a search for the first points works with.
ghost use Rattle.std.specs.Prelude.{◌≡◌, ◌<◌, ◌≤◌, ◌+◌, ℕ, [], OnOk, IfOk, Some, false, true, length, slice_index};
ghost use Rattle.fault_sim.specs.Bench.{IsBench};
ghost use Rattle.fault_sim.specs.Lanes.{IsAlone, IsGood, Tells};
ghost use Rattle.fault_sim.specs.Sites.{fault_in};
ghost use Rattle.fault_sim.specs.declared.words.TheConstants.{LANES};

use crate::cone::{Cone, cone_for, telling};
use crate::held::{Held, held_for, hold, release};
use crate::pass::{write_good, write_good_at};
use crate::readers::all_readers;
use crate::words::{Word, full};
use ae_base::{Memory, Point};
use ae_net::{Fault, Net, Pins};
use std::alloc::Global;

/// For each signal the gates that read it, its word without a fault in the lanes of this pass, what a pass of faults works with, and its faults
/// with their places in the list.
#[derive(Drop)]
pub struct Bench {
    pub readers: Vec<Pins>,
    pub good: Vec<Word>,
    pub cone: Cone,
    pub held: Held,
    pub ids: Vec<usize>,
}

/// A bench for the network, for passes of a fault in each lane.
pub fn bench_for(alloc: Global, net: &Net) -> Result<Bench, Memory>
    ensures bench { IfOk result (λ bench. IsBench net.now bench) }
    ensures all { IfOk result (λ bench. bench.held.all ≡ false) }
{
    let readers = all_readers(alloc, net)?;
    let good = vec![in alloc; full(false); readers.len()]?;
    let cone = cone_for(alloc, net, good.as_slice())?;
    Ok(Bench {
        readers,
        good,
        cone,
        held: held_for(alloc, net)?,
        ids: Vec::new(alloc),
    })
}

/// Writes the words without a fault at these points, each in a lane.
pub fn begin_pass(net: &Net, points: &[Point], bench: &mut Bench)
    requires few { length points.now ≤ LANES }
    requires bench { IsBench net.now bench.old }
    ensures bench { IsBench net.now bench.new }
    ensures pass { (l : ℕ) → l < length points.now → IsGood net.now (slice_index points.now l) l bench.new.good.items }
    ensures all { bench.new.held.all ≡ bench.old.held.all }
{
    write_good(
        net,
        points,
        bench.cone.polynomials.as_slice(),
        bench.good.as_mut_slice(),
        bench.cone.seen.as_mut_slice(),
    );
    bench
        .cone
        .words
        .as_mut_slice()
        .copy_from_slice(bench.good.as_slice());
}

/// Writes the words without a fault at a point in all lanes.
pub fn begin_point(net: &Net, point: &Point, bench: &mut Bench)
    requires bench { IsBench net.now bench.old }
    ensures bench { IsBench net.now bench.new }
    ensures alone { IsAlone net.now point.now bench.new.good.items }
    ensures all { bench.new.held.all ≡ bench.old.held.all }
{
    write_good_at(
        net,
        point,
        bench.cone.polynomials.as_slice(),
        bench.good.as_mut_slice(),
        bench.cone.seen.as_mut_slice(),
    );
    bench
        .cone
        .words
        .as_mut_slice()
        .copy_from_slice(bench.good.as_slice());
}

/// The lanes whose points detect the fault.
pub fn told_by(net: &Net, fault: Fault, bench: &mut Bench) -> Result<Word, Memory>
    requires bench { IsBench net.now bench.old }
    requires all { bench.old.held.all ≡ true }
    ensures bench { OnOk result (IsBench net.now bench.new) }
    ensures good { OnOk result (bench.new.good ≡ bench.old.good) }
    ensures all { OnOk result (bench.new.held.all ≡ true) }
    ensures tells { IfOk result (λ word. Tells net.now (λ l. Some fault) bench.old.good.items word) }
{
    hold(net, fault, &mut bench.held)?;
    let told = telling(
        net,
        &bench.held,
        bench.good.as_slice(),
        bench.readers.as_slice(),
        &mut bench.cone,
    );
    release(net, &mut bench.held);
    Ok(told)
}

/// From now on the passes are those of one fault in all lanes.
pub fn use_all_lanes(net: &Net, bench: &mut Bench)
    requires bench { IsBench net.now bench.old }
    ensures bench { IsBench net.now bench.new }
    ensures all { bench.new.held.all ≡ true }
{
    let _names = net.inputs();
    bench.held.all = true;
}
