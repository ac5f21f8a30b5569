//! The calls of `fault_sim`: responses, and the first points that detect faults.

use ae_base::{Mask, Memory};
use ae_net::{Fault, Net, Place};
use blif_read::BlifErr;
use fault_sim::{first_telling, responses};
use std::alloc::Global;
use std::test::Fail;
use test_support::{net_of, set};

/// The cascade of the AND of two inputs, whose control is the third.
static AND: &[u8] =
    b".model m\n.inputs a b c\n.outputs f\n.names a b t\n11 1\n.names c t f\n10 1\n01 1\n";

/// The port held at 0 and at 1, and then a stem that is no place: nothing reads the fourth input, as there is none.
static FAULTS: [Fault; 3] = [
    Fault {
        place: Place::Port(0),
        value: false,
    },
    Fault {
        place: Place::Port(0),
        value: true,
    },
    Fault {
        place: Place::Stem(9),
        value: true,
    },
];

/// So many points at which no input is 1, and then the point at which the first two are.
fn points(alloc: Global, zeros: u32) -> Result<Vec<Mask>, Memory> {
    let mut list = Vec::new(alloc);
    for _ in 0..zeros {
        list.push(Mask::empty())?;
    }
    list.push(set(&[0, 1]))?;
    Ok(list)
}

/// Whether these are the first points that detect the faults, one for each.
fn finds(
    alloc: Global,
    net: &Net,
    points: &[Mask],
    wanted: &[Option<u32>],
) -> Result<bool, Memory> {
    if points.len() > 1000 {
        return Ok(false);
    }
    let found = first_telling(alloc, net, points, &FAULTS)?;
    Ok(found.as_slice() == wanted)
}

/// Two points: the port is 0 at the first and 1 at the second.
fn finds_at_two_points(alloc: Global) -> Result<bool, BlifErr> {
    let net = net_of(alloc, AND)?;
    let two = points(alloc, 1)?;
    Ok(finds(alloc, &net, &two, &[Some(1), Some(0), None])?)
}

#[test]
fn two_points(rt: HostRuntime) -> Result<(), Fail> {
    let found = finds_at_two_points(rt.alloc())?;
    assert!(rt; found);
    Ok(())
}

/// No points at all, and 513, of which the last alone shows 1.
fn finds_at_none_and_many(alloc: Global) -> Result<bool, BlifErr> {
    let net = net_of(alloc, AND)?;
    let many = points(alloc, 512)?;
    let none = finds(alloc, &net, &[], &[None, None, None])?;
    Ok(none && finds(alloc, &net, &many, &[Some(512), Some(0), None])?)
}

#[test]
fn no_points_and_many(rt: HostRuntime) -> Result<(), Fail> {
    let found = finds_at_none_and_many(rt.alloc())?;
    assert!(rt; found);
    Ok(())
}

fn are_empty(outs: &[Mask]) -> bool {
    for out in outs {
        if !out.is_empty() {
            return false;
        }
    }
    true
}

/// Whether the list has so many empty sets, and then the set of the first output.
fn shows_at_the_last_alone(outs: &[Mask], zeros: usize) -> bool {
    match outs {
        [before @ .., last] => { before.len() == zeros && are_empty(before) && *last == set(&[0]) }
        [] => false,
    }
}

fn responds(alloc: Global) -> Result<bool, BlifErr> {
    let net = net_of(alloc, AND)?;
    let none = responses(alloc, &net, &[])?;
    let many = responses(alloc, &net, &points(alloc, 512)?)?;
    Ok(none.is_empty() && shows_at_the_last_alone(&many, 512))
}

#[test]
fn responses_at_many_points(rt: HostRuntime) -> Result<(), Fail> {
    let same = responds(rt.alloc())?;
    assert!(rt; same);
    Ok(())
}
