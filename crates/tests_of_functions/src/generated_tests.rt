//! The call of `test_gen`: the tests of networks in both stores, and their undetectable faults.

use crate::expanded::FEW;
use ae_base::{Memory, Polarity};
use ae_net::{Fault, Net, Place};
use blif_read::BlifErr;
use davio_dd::Davio;
use fn_store::{FnStore, TermLists};
use std::alloc::Global;
use std::test::Fail;
use test_gen::generate;
use test_support::{are_sets, net_of, polarity, set};

/// A network, the inputs whose literals are plain, its tests, each as the inputs that are 1, and its undetectable faults.
struct Row {
    text: &'static [u8],
    plain: &'static [u32],
    points: &'static [&'static [u32]],
    unchanged: &'static [Fault],
}

/// The OR of the second input and of the third one where the first two are 0.
const FACTORED: &[u8] =
    b".model m\n.inputs x1 x2 x3\n.outputs f1\n.names x1 _i1\n0 1\n.names x2 _i2\n0 1\n.names _i1 _i2 x3 _g1\n111 1\n.names x2 _g1 f1\n1- 1\n-1 1\n";

/// The constants 0 and 1, beside an input that nothing reads.
const CONSTANTS: &[u8] = b".model m\n.inputs x1\n.outputs f1 f2\n.names f1\n.names f2\n1\n";

/// The inverter of the second input hides behind that input: held at 1, nothing changes.
const HIDDEN: &[Fault] = &[
    Fault {
        place: Place::Stem(4),
        value: true,
    },
    Fault {
        place: Place::Pin(1, 0),
        value: false,
    },
    Fault {
        place: Place::Pin(2, 1),
        value: true,
    },
];

/// A constant held at its own value, at its stem and at its port.
const OWN_VALUES: &[Fault] = &[
    Fault {
        place: Place::Stem(1),
        value: false,
    },
    Fault {
        place: Place::Stem(2),
        value: true,
    },
    Fault {
        place: Place::Port(0),
        value: false,
    },
    Fault {
        place: Place::Port(1),
        value: true,
    },
];

static ROWS: [Row; 3] = [
    Row {
        text: FACTORED,
        plain: &[0, 1, 2],
        points: &[&[0, 2], &[2], &[1], &[]],
        unchanged: HIDDEN,
    },
    Row {
        text: CONSTANTS,
        plain: &[0],
        points: &[&[]],
        unchanged: OWN_VALUES,
    },
    // the least point by literals is the one at which the complemented input is 1
    Row {
        text: CONSTANTS,
        plain: &[],
        points: &[&[0]],
        unchanged: OWN_VALUES,
    },
];

/// Whether the store gives these tests and these undetectable faults.
fn gives<S: FnStore>(alloc: Global, store: &mut S, net: &Net, row: &Row) -> Result<bool, Memory> {
    if store.polarity().n as usize != net.inputs().len() {
        return Ok(false);
    }
    let tests = generate(alloc, store, net)?;
    Ok(are_sets(tests.points.as_slice(), row.points) && tests.unchanged.as_slice() == row.unchanged)
}

fn in_term_lists(alloc: Global, net: &Net, p: Polarity, row: &Row) -> Result<bool, Memory> {
    let mut store = TermLists::new(alloc, p)?;
    gives(alloc, &mut store, net, row)
}

fn in_diagram(alloc: Global, net: &Net, p: Polarity, row: &Row) -> Result<bool, Memory> {
    let mut store = Davio::new(alloc, p)?;
    gives(alloc, &mut store, net, row)
}

/// Whether both stores give what the row says.
fn in_both(alloc: Global, row: &Row) -> Result<bool, BlifErr> {
    let net = net_of(alloc, row.text)?;
    let n = net.inputs().len() as u32;
    if n > FEW {
        return Ok(false);
    }
    let p = polarity(n, set(row.plain));
    let lists = in_term_lists(alloc, &net, p, row)?;
    Ok(lists && in_diagram(alloc, &net, p, row)?)
}

/// The place of the first row with other tests, where there is one.
fn first_other(alloc: Global) -> Result<Option<usize>, BlifErr> {
    for (i, row) in ROWS.iter().enumerate() {
        if !in_both(alloc, row)? {
            return Ok(Some(i));
        }
    }
    Ok(None)
}

#[test]
fn tests_in_both_stores(rt: HostRuntime) -> Result<(), Fail> {
    let other = first_other(rt.alloc())?;
    assert_eq!(rt; other, None);
    Ok(())
}
