//! What the tests of a network detect.
//!
//! The functions do nothing: each one's contract is the laws, and a caller has them after the call.
ghost use Rattle.std.specs.Prelude.{◌≡◌, ◌↔◌, Bool, true, All, Some, filter, length, slice_get};
ghost use Rattle.ae_base.specs.Mask.{Set};
ghost use Rattle.ae_base.specs.Cube.{Signs};
ghost use Rattle.ae_base.specs.Terms.{IsPoint};
ghost use Rattle.ae_net.specs.declared.net.Fault.{Fault};
ghost use Rattle.ae_net.specs.Detects.{Detects};
ghost use Rattle.ae_net.specs.Faults.{fault_list};
ghost use Rattle.ae_net.specs.Network.{Network};
ghost use Rattle.ae_net.specs.Valid.{IsValid};
ghost use Rattle.fn_store.specs.Functions.{IsLeastPoint};
ghost use Rattle.test_gen.specs.Points.{points_in_order};
ghost use Rattle.test_gen.specs.Selection.{IsSelection};
ghost use Rattle.test_gen.specs.Tests.{detects, tests_of};
ghost use Rattle.test_gen.specs.Generated.{has_no_test, IsEachNew};
ghost use Rattle.test_gen.specs.Undetectable.{IsComplete, IsUndetectable};

use ae_net::fault_laws;
use fault_sim::detects_law;

/// The points in order are in the order of a store's least points: the first of them at which a function is 1 is its least point.
pub fn order_law()
    ensures { (p : Signs) (f : Set → Bool) (x : Set) → IsLeastPoint p f x → slice_get (filter f (points_in_order p)) 0 ≡ Some x }
{}

/// A point detects a fault of a valid network exactly where the test on the outputs is true.
pub(crate) fn truth_law()
    ensures { (n : Network) (fault : Fault) (x : Set) → IsValid n → Detects n fault x ↔ (detects n fault x ≡ true) }
{
    detects_law();
}

/// The tests of a valid network at a polarity of its inputs are points of the inputs. Each fault at a place is detected by one of them or
/// is undetectable, and each of them detects a fault that no earlier one does. The faults without a test are exactly the undetectable
/// ones.
pub fn tests_law()
    ensures points { (n : Network) (p : Signs) → IsValid n → p.n ≡ length n.inputs → All (IsPoint (length n.inputs)) (tests_of n p) }
    ensures complete { (n : Network) (p : Signs) → IsValid n → p.n ≡ length n.inputs → IsComplete n (tests_of n p) }
    ensures each_new { (n : Network) (p : Signs) → IsValid n → p.n ≡ length n.inputs → IsEachNew n (tests_of n p) }
    ensures undetectable { (n : Network) (p : Signs) → IsValid n → p.n ≡ length n.inputs → IsSelection (IsUndetectable n) (fault_list n) (filter (has_no_test n p) (fault_list n)) }
{
    truth_law();
    fault_laws();
}
