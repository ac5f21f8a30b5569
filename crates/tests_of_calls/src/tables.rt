//! The call of `pla_read`: a text that says a cover, two that are refused, and the name of a fault.

use ae_cover::{Kind, Mark, Row};
use pla_read::{PlaErr, PlaFault};
use std::alloc::Global;
use std::test::Fail;
use test_support::{are_names, cover_of, set};

static TEXT: &[u8] =
    b"# two rows\n.i 03\n.o 2\n.ilb a b c\n.type fr\n01- 1~\n1|1|2 04 # a row\n.e\nrest";

/// A row: its plain and its complemented literals, and its marks.
struct Wanted {
    plain: &'static [u32],
    complemented: &'static [u32],
    outs: &'static [Mark],
}

static ROWS: [Wanted; 2] = [
    Wanted {
        plain: &[1],
        complemented: &[0],
        outs: &[Mark::One, Mark::Void],
    },
    Wanted {
        plain: &[0, 1],
        complemented: &[],
        outs: &[Mark::Zero, Mark::One],
    },
];

fn are_rows(found: &[Row]) -> bool {
    for (row, wanted) in found.iter().zip(ROWS.iter()) {
        if row.cube.pos != set(wanted.plain)
            || row.cube.neg != set(wanted.complemented)
            || row.outs.as_slice() != wanted.outs
        {
            return false;
        }
    }
    found.len() == ROWS.len()
}

fn is_cover(alloc: Global) -> Result<bool, PlaErr> {
    let cover = cover_of(alloc, TEXT)?;
    Ok(
        cover.kind == Kind::Fr
            && are_names(cover.inputs(), &[b"a", b"b", b"c"])
            && are_names(cover.outputs(), &[b"f1", b"f2"])
            && are_rows(cover.rows()),
    )
}

#[test]
fn a_cover(rt: HostRuntime) -> Result<(), Fail> {
    let same = is_cover(rt.alloc())?;
    assert!(rt; same);
    Ok(())
}

fn refuses(alloc: Global, text: &[u8], line: u32, what: PlaFault) -> bool {
    match cover_of(alloc, text) {
        Ok(_) => false,
        Err(refusal) => refusal == PlaErr::At { line, what },
    }
}

#[test]
fn two_refusals(rt: HostRuntime) {
    let alloc = rt.alloc();
    let late = b".i 2\n.o 1\n11 1\n.type fd\n.end\n".as_slice();
    assert!(rt; refuses(alloc, b"", 0, PlaFault::NoI));
    assert!(rt; refuses(alloc, late, 4, PlaFault::Late));
}

#[test]
fn the_name_of_a_fault(rt: HostRuntime) -> Result<(), Fail> {
    let what = PlaFault::TooManyRows;
    let name = format!(in rt.alloc(); "{what}")?;
    assert_eq!(rt; name.as_str(), "TooManyRows");
    Ok(())
}
