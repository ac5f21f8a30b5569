//! The test for a fault, and the faults that a point does not detect.
ghost use Rattle.std.specs.Prelude.{◌≡◌, ℕ, Bool, None, not, IfOk, filter, is_none, length};
ghost use Rattle.std.specs.List.{AllZip};
ghost use Rattle.ae_base.specs.Mask.{Set, differ};
ghost use Rattle.ae_net.specs.declared.net.Fault.{Fault};
ghost use Rattle.ae_net.specs.Network.{signals};
ghost use Rattle.fn_store.specs.Functions.{Keeps};
ghost use Rattle.net_fn.specs.Refs.{AreLive, ShowEach};
ghost use Rattle.net_fn.specs.Signals.{ShowSignals};
ghost use Rattle.test_gen.specs.Points.{first_one};
ghost use Rattle.test_gen.specs.Tests as spec;

use crate::laws::truth_law;
use ae_base::{Memory, Point};
use ae_net::{Fault, Net, valid_law};
use fault_sim::first_telling;
use fn_store::{FnRef, FnStore};
use net_fn::{faulty_values, kept_law, port_values};
use std::alloc::Global;

/// The least point at which the functions of the first pair that differs anywhere differ. `None` comes exactly where each pair is equal.
fn first_difference<S: FnStore>(
    store: &mut S,
    good: &[FnRef],
    bad: &[FnRef],
) -> Result<Option<Point>, Memory>
    requires good { AreLive (S.functions store.old) good.now }
    requires bad { AreLive (S.functions store.old) bad.now }
    requires pairs { length bad.now ≡ length good.now }
    ensures first { IfOk result (λ found. (fs gs : ℕ → Set → Bool) → ShowEach (S.functions store.old) good.now fs → ShowEach (S.functions store.old) bad.now gs
        → found ≡ first_one (S.functions store.old).polarity (length good.now) (λ o x. differ (fs o x) (gs o x))) }
    ensures keeps { Keeps (S.functions store.old) (S.functions store.new) }
{
    for o in 0..good.len() {
        if !store.same(good[o], bad[o]) {
            let apart = store.xor(good[o], bad[o])?;
            return Ok(store.point(apart));
        }
    }
    Ok(None)
}

/// The test for a fault: the least point at which the first output that the fault changes anywhere is changed. `None` comes exactly where
/// it changes none. `good` are the functions of the signals without a fault.
pub(crate) fn test_for<S: FnStore>(
    alloc: Global,
    store: &mut S,
    net: &Net,
    good: &[FnRef],
    fault: Fault,
) -> Result<Option<Point>, Memory>
    requires { ShowSignals (S.functions store.old) net.now None (signals net.now) good.now }
    ensures test { IfOk result (λ found. found ≡ spec.test_for net.now (S.functions store.old).polarity fault) }
    ensures keeps { Keeps (S.functions store.old) (S.functions store.new) }
{
    kept_law();
    let without = port_values(alloc, store, net, None, good)?;
    let with = faulty_values(alloc, store, net, fault, good)?;
    first_difference(store, &without, &with)
}

/// The faults of the list for which nothing was found, in order.
fn not_found(alloc: Global, list: &[Fault], found: &[Option<u32>]) -> Result<Vec<Fault>, Memory>
    requires { length found.now ≡ length list.now }
    ensures { IfOk result (λ left. (keep : Fault → Bool) → AllZip (λ fault first. keep fault ≡ is_none first) list.now found.now → left.items ≡ filter keep list.now) }
{
    let mut left = Vec::new(alloc);
    for (k, first) in found.iter().enumerate() {
        if first.is_none() {
            left.push(list[k])?;
        }
    }
    Ok(left)
}

/// The faults of the list that the point does not detect, in order.
pub(crate) fn missed(
    alloc: Global,
    net: &Net,
    point: Point,
    list: &[Fault],
) -> Result<Vec<Fault>, Memory>
    ensures { IfOk result (λ left. left.items ≡ filter (λ fault. not (spec.detects net.now fault point)) list.now) }
{
    valid_law(net);
    truth_law();
    let found = first_telling(alloc, net, &[point], list)?;
    not_found(alloc, list, &found)
}
