//! The call of `blif_order`: gates after those that they need.

use ae_base::{Memory, Seq};
use blif_order::order_of;
use std::alloc::Global;
use std::test::Fail;

/// The first gate needs the second, which needs none.
fn is_turned(alloc: Global) -> Result<bool, Memory> {
    let mut need = Seq::new(alloc);
    need.push(1)?;
    let needs = [need, Seq::new(alloc)];
    let order = order_of(alloc, &needs)?;
    Ok(order.as_slice() == [1, 0].as_slice())
}

#[test]
fn a_gate_that_needs_a_later_one(rt: HostRuntime) -> Result<(), Fail> {
    let turned = is_turned(rt.alloc())?;
    assert!(rt; turned);
    Ok(())
}
