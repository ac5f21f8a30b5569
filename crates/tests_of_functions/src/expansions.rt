//! The calls of `expansion`: the parts of an expansion, its cost and its used inputs.

use crate::expanded::{AND_OF_OUTER, expansion_of, is_expansion};
use ae_base::Memory;
use expansion::{pairs, used_inputs};
use std::alloc::Global;
use std::test::Fail;
use test_support::set;

fn is_and_of_outer(alloc: Global) -> Result<bool, Memory> {
    let e = expansion_of(alloc, &AND_OF_OUTER)?;
    Ok(
        is_expansion(&e, &[0, 1, 2], &[&[0, 2]])
            && pairs(&e) == 1
            && e.inputs() == 3
            && used_inputs(&e) == set(&[0, 2]),
    )
}

#[test]
fn parts(rt: HostRuntime) -> Result<(), Fail> {
    let same = is_and_of_outer(rt.alloc())?;
    assert!(rt; same);
    Ok(())
}
