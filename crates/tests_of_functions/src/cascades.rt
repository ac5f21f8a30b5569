//! The calls of `cascade`: the network of an expansion, and its first vectors.

use crate::expanded::{Function, expansion_of};
use ae_base::{Memory, WIDTH, push_new};
use ae_net::Net;
use cascade::{first_vectors, literals_high, reddy};
use pla_read::PlaErr;
use std::alloc::Global;
use std::test::Fail;
use test_support::{Table, are_gates, are_names, are_sets, cover_of, names_of, set};

/// One input, whose literal is complemented: 1 EXOR that literal.
static VALUE: Function = Function {
    n: 1,
    products: &[(&[0], &[])],
    plain: &[],
};

/// The input and the control have the signals 0 and 1, and the gates those from 2 on.
static GATES: [Table; 3] = [
    Table {
        name: b"_i1",
        pins: &[0],
        rows: &[(&[], &[0])],
        on: true,
    },
    Table {
        name: b"_m",
        pins: &[1],
        rows: &[(&[], &[0])],
        on: true,
    },
    Table {
        name: b"f",
        pins: &[3, 2],
        rows: &[(&[0], &[1]), (&[1], &[0])],
        on: true,
    },
];

/// The cascade of `VALUE`, whose input is `a` and whose output is `f`.
fn net_of_value(alloc: Global) -> Result<Option<Net>, PlaErr> {
    let cover = cover_of(alloc, b".i 1\n.o 1\n.ilb a\n.ob f\n")?;
    let names = names_of(alloc, cover)?;
    let e = expansion_of(alloc, &VALUE)?;
    if names.inputs().len() == e.inputs() as usize && names.outputs().len() == 1 {
        Ok(Some(reddy(alloc, &names, &e)?))
    } else {
        Ok(None)
    }
}

fn is_cascade(net: &Net) -> bool {
    net.model().bytes() == b"andexor".as_slice()
        && are_names(net.inputs(), &[b"a", b"_c"])
        && net.outputs() == [4].as_slice()
        && are_gates(net.gates(), &GATES)
}

#[test]
fn network_of_a_complemented_input(rt: HostRuntime) -> Result<(), Fail> {
    let net = net_of_value(rt.alloc())?;
    assert!(rt; net.is_some_and(|net| is_cascade(&net)));
    Ok(())
}

/// The literal is high where the input is 0, so a vector of all literals high is there before, and three are not.
fn lists_vectors(alloc: Global) -> Result<bool, Memory> {
    let e = expansion_of(alloc, &VALUE)?;
    if e.inputs() >= WIDTH {
        return Ok(false);
    }
    let mut found = first_vectors(alloc, &e)?;
    let listed = are_sets(&found, &[&[0], &[], &[0, 1], &[1]]);
    push_new(&mut found, literals_high(&e))?;
    push_new(&mut found, set(&[2]))?;
    Ok(listed && are_sets(&found, &[&[0], &[], &[0, 1], &[1], &[2]]))
}

#[test]
fn first_vectors_of_a_complemented_input(rt: HostRuntime) -> Result<(), Fail> {
    let same = lists_vectors(rt.alloc())?;
    assert!(rt; same);
    Ok(())
}
