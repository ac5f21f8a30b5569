//! The tests of a network.
ghost use Rattle.std.specs.Prelude.{◌≡◌, [], ◌∷◌, ◌++◌, None, All, IfOk, filter, fold, if◌then◌else◌, is_none, length};
ghost use Rattle.std.specs.Option.{option_to_list};
ghost use Rattle.ae_base.specs.Terms.{IsPoint};
ghost use Rattle.ae_net.specs.Faults.{fault_list};
ghost use Rattle.ae_net.specs.Network.{signals};
ghost use Rattle.fn_store.specs.Functions.{Keeps};
ghost use Rattle.net_fn.specs.Signals.{ShowSignals};
ghost use Rattle.test_gen.specs.Selection.{IsSelection};
ghost use Rattle.test_gen.specs.Tests as spec;
ghost use Rattle.test_gen.specs.Undetectable.{IsComplete, IsUndetectable};
ghost use Rattle.test_gen.specs.Generated.{IsEachNew, has_no_test};

use crate::difference::{missed, test_for};
use crate::laws::tests_law;
use ae_base::{Memory, Point, Seq};
use ae_net::{Fault, Net, faults, valid_law};
use fn_store::{FnRef, FnStore};
use net_fn::{kept_law, signal_values};
use std::alloc::Global;

/// The tests of a network.
#[derive(Drop)]
pub struct Tests {
    /// The points, each of which detects a fault that no earlier one does.
    pub points: Seq<Point>,
    /// The undetectable faults, in fault order.
    pub unchanged: Seq<Fault>,
}

/// The tests of a network at the store's polarity, and its undetectable faults. For each fault in fault order that no earlier point
/// detects, the first output that the fault changes anywhere gives the least point at which it is changed: points are compared by their
/// literals, input 0 first, literal 0 before literal 1. Where the fault changes no output it is undetectable. So each fault is detected by
/// one of the points or is listed, and each point detects a fault that no earlier one does. The store has as many inputs as the network.
/// Where memory runs out, `Memory`; the store has kept its functions then too.
pub fn generate<S: FnStore>(alloc: Global, store: &mut S, net: &Net) -> Result<Tests, Memory>
    requires { (S.functions store.old).polarity.n ≡ length net.now.inputs }
    ensures tests { IfOk result (λ tests. tests.points ≡ spec.tests_of net.now (S.functions store.old).polarity) }
    ensures without_test { IfOk result (λ tests. tests.unchanged ≡ filter (has_no_test net.now (S.functions store.old).polarity) (fault_list net.now)) }
    ensures points { IfOk result (λ tests. All (IsPoint (length net.now.inputs)) tests.points) }
    ensures complete { IfOk result (λ tests. IsComplete net.now tests.points) }
    ensures each_new { IfOk result (λ tests. IsEachNew net.now tests.points) }
    ensures undetectable { IfOk result (λ tests. IsSelection (IsUndetectable net.now) (fault_list net.now) tests.unchanged) }
    ensures keeps { Keeps (S.functions store.old) (S.functions store.new) }
{
    valid_law(net);
    let good = signal_values(alloc, store, net, None)?;
    let all = faults(alloc, net)?;
    tests_law();
    tests_for(alloc, store, net, &good, all)
}

/// The tests for the faults of a list, and those of the faults that have none. `good` are the functions of the signals without a fault.
fn tests_for<S: FnStore>(
    alloc: Global,
    store: &mut S,
    net: &Net,
    good: &[FnRef],
    all: Vec<Fault>,
) -> Result<Tests, Memory>
    requires { ShowSignals (S.functions store.old) net.now None (signals net.now) good.now }
    ensures points { IfOk result (λ tests. tests.points ≡ fold (spec.with_test net.now (S.functions store.old).polarity) [] all.items) }
    ensures unchanged { IfOk result (λ tests. tests.unchanged ≡ filter (has_no_test net.now (S.functions store.old).polarity) all.items) }
    ensures keeps { Keeps (S.functions store.old) (S.functions store.new) }
{
    kept_law();
    let mut tests = Tests {
        points: Seq::new(alloc),
        unchanged: Seq::new(alloc),
    };
    let mut left = all;
    let mut next = 0;
    while next < left.len() {
        match add_test(alloc, store, net, good, left[next], &mut tests)? {
            Some(point) => {
                left = missed(alloc, net, point, &left.as_slice()[next + 1..])?;
                next = 0;
            }
            None => next += 1,
        }
    }
    Ok(tests)
}

/// Adds the test for the fault, which it answers too; or the fault itself, where it has no test.
fn add_test<S: FnStore>(
    alloc: Global,
    store: &mut S,
    net: &Net,
    good: &[FnRef],
    fault: Fault,
    tests: &mut Tests,
) -> Result<Option<Point>, Memory>
    requires { ShowSignals (S.functions store.old) net.now None (signals net.now) good.now }
    ensures test { IfOk result (λ found. found ≡ spec.test_for net.now (S.functions store.old).polarity fault) }
    ensures points { IfOk result (λ found. tests.new.points ≡ tests.old.points ++ option_to_list found) }
    ensures unchanged { IfOk result (λ found. tests.new.unchanged ≡ (if is_none found then tests.old.unchanged ++ fault ∷ [] else tests.old.unchanged)) }
    ensures keeps { Keeps (S.functions store.old) (S.functions store.new) }
{
    let found = test_for(alloc, store, net, good, fault)?;
    match found {
        Some(point) => tests.points.push(point)?,
        None => tests.unchanged.push(fault)?,
    }
    Ok(found)
}
