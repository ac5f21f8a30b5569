//! The calls of `ae_cover`: the parts of a cover, and its first clash.

use ae_cover::{Clash, Cover, Kind, Mark};
use pla_read::PlaErr;
use std::alloc::Global;
use std::test::Fail;
use test_support::{are_names, cover_of};

/// A text, a kind, and the first clash of the text's rows at that kind.
struct Clashes {
    text: &'static [u8],
    kind: Kind,
    first: Option<Clash>,
}

const COMMON: &[u8] = b".i 2\n.o 1\n.type f\n1- 1\n-1 0\n";

const APART: &[u8] = b".i 2\n.o 1\n.type f\n1- 1\n0- 0\n";

/// The clash of the first row's output with the second row.
const FIRST: Option<Clash> = Some(Clash {
    output: 0,
    on_row: 0,
    off_row: 1,
});

static CLASHES: [Clashes; 5] = [
    Clashes {
        text: COMMON,
        kind: Kind::F,
        first: None,
    },
    Clashes {
        text: COMMON,
        kind: Kind::Fd,
        first: None,
    },
    Clashes {
        text: COMMON,
        kind: Kind::Fr,
        first: FIRST,
    },
    Clashes {
        text: COMMON,
        kind: Kind::Fdr,
        first: FIRST,
    },
    Clashes {
        text: APART,
        kind: Kind::Fr,
        first: None,
    },
];

#[tactic(auto, using(crate::proofs::Keeps::with_kind))]
fn with_kind(cover: Cover, kind: Kind) -> Cover {
    Cover {
        inputs: cover.inputs,
        outputs: cover.outputs,
        kind,
        rows: cover.rows,
    }
}

/// The place of the first row whose clash is another, where there is one.
fn first_other(alloc: Global) -> Result<Option<usize>, PlaErr> {
    for (i, row) in CLASHES.iter().enumerate() {
        let cover = with_kind(cover_of(alloc, row.text)?, row.kind);
        if cover.first_clash() != row.first {
            return Ok(Some(i));
        }
    }
    Ok(None)
}

#[test]
fn first_clashes(rt: HostRuntime) -> Result<(), Fail> {
    let other = first_other(rt.alloc())?;
    assert_eq!(rt; other, None);
    Ok(())
}

/// Whether the cover has two inputs, one output and two rows, of which the second has a `0`.
fn has_its_parts(alloc: Global) -> Result<bool, PlaErr> {
    let cover = cover_of(alloc, COMMON)?;
    let second = cover.rows().get(1);
    Ok(
        are_names(cover.inputs(), &[b"x1", b"x2"])
            && are_names(cover.outputs(), &[b"f1"])
            && cover.rows().len() == 2
            && second.is_some_and(|row| row.outs.as_slice() == [Mark::Zero].as_slice()),
    )
}

#[test]
fn parts(rt: HostRuntime) -> Result<(), Fail> {
    let has = has_its_parts(rt.alloc())?;
    assert!(rt; has);
    Ok(())
}
