//! The call of `blif_write`: the text of a network.

use blif_read::BlifErr;
use blif_write::blif_text;
use std::alloc::Global;
use std::test::Fail;
use test_support::{AND_NET, net_of};

/// The cascade of the two-input AND, with its gates in another order, in lines as a user may have them.
static READ: &[u8] =
    b"# AND\n.model andexor\n.inputs x1 x2 \\\n_c\n.outputs f1\n.names _c _t1 f1\n10 1\n01 1\n\n.names x1 x2 _t1\n1 1 1\n";

fn is_written(alloc: Global) -> Result<bool, BlifErr> {
    let net = net_of(alloc, READ)?;
    let text = blif_text(alloc, &net)?;
    Ok(text.as_slice() == AND_NET)
}

#[test]
fn two_input_and(rt: HostRuntime) -> Result<(), Fail> {
    let written = is_written(rt.alloc())?;
    assert!(rt; written);
    Ok(())
}
