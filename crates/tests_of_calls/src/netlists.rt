//! The calls of `blif_read`: the half adder, a source with don't cares, a text for each fault, and the limits of both kinds of text.

use ae_base::{Memory, PINS, SOURCE_LINES, TEXT_BYTES, WRITTEN_LINES};
use ae_net::Net;
use blif_read::{BlifErr, BlifFault, NetLimits, read_blif};
use std::alloc::{AllocError, Global};
use std::test::Fail;
use test_support::{DONT_CARES, HALF_ADDER, Table, are_gates, are_names, net_of, source_of};

static HALF_ADDER_GATES: [Table; 4] = [
    Table {
        name: b"n1",
        pins: &[0, 1],
        rows: &[(&[], &[0, 1])],
        on: false,
    },
    Table {
        name: b"n2",
        pins: &[0, 1],
        rows: &[(&[0, 1], &[])],
        on: false,
    },
    Table {
        name: b"s",
        pins: &[2, 3],
        rows: &[(&[0, 1], &[])],
        on: true,
    },
    Table {
        name: b"c",
        pins: &[3],
        rows: &[(&[], &[0])],
        on: true,
    },
];

fn is_half_adder(alloc: Global) -> Result<bool, BlifErr> {
    let net = net_of(alloc, HALF_ADDER)?;
    Ok(
        net.model().bytes() == b"adder".as_slice()
            && are_names(net.inputs(), &[b"a", b"b"])
            && net.outputs() == [4, 5].as_slice()
            && are_gates(net.gates(), &HALF_ADDER_GATES),
    )
}

#[test]
fn half_adder(rt: HostRuntime) -> Result<(), Fail> {
    let same = is_half_adder(rt.alloc())?;
    assert!(rt; same);
    Ok(())
}

/// The OR of two inputs, and the first of them.
static OR_GATES: [Table; 2] = [
    Table {
        name: b"f",
        pins: &[0, 1],
        rows: &[(&[0], &[]), (&[1], &[])],
        on: true,
    },
    Table {
        name: b"g",
        pins: &[0],
        rows: &[(&[0], &[])],
        on: true,
    },
];

/// Where they may have any value: the AND of the inputs, and nowhere.
static FREE_GATES: [Table; 2] = [
    Table {
        name: b"f",
        pins: &[0, 1],
        rows: &[(&[0, 1], &[])],
        on: true,
    },
    Table {
        name: b"g",
        pins: &[],
        rows: &[],
        on: true,
    },
];

/// Whether the network has two inputs, and its outputs show these two gates.
fn shows_gates(net: &Net, gates: &[Table]) -> bool {
    are_names(net.inputs(), &[b"a", b"b"])
        && net.outputs() == [2, 3].as_slice()
        && are_gates(net.gates(), gates)
}

fn has_dont_cares(alloc: Global) -> Result<bool, BlifErr> {
    let source = source_of(alloc, DONT_CARES)?;
    match &source.free {
        Some(free) => Ok(shows_gates(source.net(), &OR_GATES) && shows_gates(free, &FREE_GATES)),
        None => Ok(false),
    }
}

#[test]
fn a_source_with_dont_cares(rt: HostRuntime) -> Result<(), Fail> {
    let same = has_dont_cares(rt.alloc())?;
    assert!(rt; same);
    Ok(())
}

/// A line, the first fault, which is there, and the text.
static REFUSALS: [(u32, BlifFault, &str); 29] = [
    (
        7,
        BlifFault::AfterEnd,
        ".model m\n.inputs a\n.outputs f\n.names a f\n1 1\n.end x\n.names a q\n",
    ),
    (
        6,
        BlifFault::MixedRows,
        ".model m\n.inputs a\n.outputs f\n.names a f\n1 1\n0 0\n",
    ),
    (
        4,
        BlifFault::Cycle,
        ".model m\n.inputs a\n.outputs f\n.names a g f\n11 1\n.names f g\n1 1\n.end\n",
    ),
    (
        4,
        BlifFault::Undefined,
        ".model m\n.inputs a\n.outputs f\n.names a h f\n11 1\n.end\n",
    ),
    (
        6,
        BlifFault::DefinedTwice,
        ".model m\n.inputs a\n.outputs f\n.names a f\n1 1\n.names a f\n0 1\n.end\n",
    ),
    (3, BlifFault::TwoModels, ".model a\n\n.model b\n"),
    (2, BlifFault::TwoModels, ".end\n.model\n"),
    (3, BlifFault::AfterEnd, ".end\n.end\nx\n"),
    (1, BlifFault::Unsupported, ".latch\n"),
    (1, BlifFault::Unsupported, ".exdc\n"),
    (1, BlifFault::Unknown, ".phase\n"),
    (1, BlifFault::BadName, ".model a b\n"),
    (1, BlifFault::BadName, ".names\n"),
    (1, BlifFault::BadName, ".inputs a \x07\n"),
    (2, BlifFault::BadRow, ".names a f\n1- 1\n"),
    (2, BlifFault::BadRow, ".names a f\n2 1\n"),
    (1, BlifFault::StrayRow, "1 1\n"),
    (3, BlifFault::StrayRow, ".names f\n.inputs a\n1\n"),
    (2, BlifFault::DefinedTwice, ".names a f\n.inputs f\n"),
    (2, BlifFault::DefinedTwice, ".inputs a\n.names a\n"),
    (
        3,
        BlifFault::Undefined,
        ".outputs x\n.outputs f\n.names h f\n.inputs a\n.names x\n",
    ),
    (
        4,
        BlifFault::Undefined,
        ".inputs a\n.outputs f\n.names f\n.outputs g f2\n",
    ),
    (1, BlifFault::NameTwice, ".inputs a b a\n"),
    (2, BlifFault::NameTwice, ".outputs a\n.outputs a\n"),
    (2, BlifFault::OutputIsInput, ".outputs a\n.inputs b a\n"),
    (2, BlifFault::OutputIsInput, ".inputs a\n.outputs a\n"),
    (2, BlifFault::NoInputs, ".model m\n# nothing\n"),
    (0, BlifFault::NoInputs, ""),
    (3, BlifFault::NoOutputs, ".inputs a\n.end\n\n"),
];

/// Whether a text is refused at these limits with this fault in this line.
fn refuses(alloc: Global, text: &str, limits: NetLimits, line: u32, what: BlifFault) -> bool {
    if text.len() > TEXT_BYTES {
        return false;
    }
    match read_blif(alloc, text.as_bytes(), limits) {
        Ok(_) => false,
        Err(refusal) => refusal == BlifErr::At { line, what },
    }
}

/// The place of the first text that is not refused as its row says, where there is one.
fn first_other(alloc: Global) -> Option<usize> {
    for (i, (line, what, text)) in REFUSALS.iter().enumerate() {
        if !refuses(alloc, text, NetLimits::Source, *line, *what)
            || !refuses(alloc, text, NetLimits::Written, *line, *what)
        {
            return Some(i);
        }
    }
    None
}

#[test]
fn each_fault(rt: HostRuntime) -> Result<(), Fail> {
    assert_eq!(rt; first_other(rt.alloc()), None);
    Ok(())
}

/// A statement of so many names, and the first fault in each kind of text.
struct Declared {
    statement: &'static str,
    count: u32,
    source: BlifFault,
    written: BlifFault,
}

static LIMITS: [Declared; 8] = [
    Declared {
        statement: ".inputs",
        count: SOURCE_LINES,
        source: BlifFault::NoOutputs,
        written: BlifFault::NoOutputs,
    },
    Declared {
        statement: ".inputs",
        count: WRITTEN_LINES,
        source: BlifFault::TooManyInputs,
        written: BlifFault::NoOutputs,
    },
    Declared {
        statement: ".inputs",
        count: WRITTEN_LINES + 1,
        source: BlifFault::TooManyInputs,
        written: BlifFault::TooManyInputs,
    },
    Declared {
        statement: ".outputs",
        count: SOURCE_LINES,
        source: BlifFault::NoInputs,
        written: BlifFault::NoInputs,
    },
    Declared {
        statement: ".outputs",
        count: WRITTEN_LINES,
        source: BlifFault::TooManyOutputs,
        written: BlifFault::NoInputs,
    },
    Declared {
        statement: ".outputs",
        count: WRITTEN_LINES + 1,
        source: BlifFault::TooManyOutputs,
        written: BlifFault::TooManyOutputs,
    },
    Declared {
        statement: ".names",
        count: PINS + 1,
        source: BlifFault::NoInputs,
        written: BlifFault::NoInputs,
    },
    Declared {
        statement: ".names",
        count: PINS + 2,
        source: BlifFault::TooManyPins,
        written: BlifFault::TooManyPins,
    },
];

/// Writes a statement of so many names, each a letter and a number.
fn push_statement(
    alloc: Global,
    text: &mut String,
    statement: &str,
    letter: char,
    count: u32,
) -> Result<(), AllocError> {
    text.push_str(statement)?;
    for k in 0..count {
        let name = format!(in alloc; " {letter}{k}")?;
        text.push_str(&name)?;
    }
    Ok(())
}

fn are_limits(alloc: Global, row: &Declared) -> Result<bool, AllocError> {
    let mut text = String::new(alloc);
    push_statement(alloc, &mut text, row.statement, 'x', row.count)?;
    Ok(
        refuses(alloc, &text, NetLimits::Source, 1, row.source)
            && refuses(alloc, &text, NetLimits::Written, 1, row.written),
    )
}

/// The place of the first statement that is refused otherwise, where there is one.
fn first_other_limit(alloc: Global) -> Result<Option<usize>, AllocError> {
    for (i, row) in LIMITS.iter().enumerate() {
        if !are_limits(alloc, row)? {
            return Ok(Some(i));
        }
    }
    Ok(None)
}

#[test]
fn limits_of_both_kinds(rt: HostRuntime) -> Result<(), Fail> {
    let other = first_other_limit(rt.alloc())?;
    assert_eq!(rt; other, None);
    Ok(())
}

/// A text of as many inputs and outputs as there may be, each of which is the input of its place.
fn widest(alloc: Global) -> Result<String, AllocError> {
    let mut text = String::new(alloc);
    push_statement(alloc, &mut text, ".inputs", 'x', WRITTEN_LINES)?;
    push_statement(alloc, &mut text, "\n.outputs", 'f', WRITTEN_LINES)?;
    for k in 0..WRITTEN_LINES {
        let gate = format!(in alloc; "\n.names x{k} f{k}\n1 1")?;
        text.push_str(&gate)?;
    }
    Ok(text)
}

/// The numbers of inputs, outputs and gates of a written netlist.
fn counts(alloc: Global, text: &str) -> Option<(usize, usize, usize)> {
    if text.len() > TEXT_BYTES {
        return None;
    }
    match read_blif(alloc, text.as_bytes(), NetLimits::Written) {
        Ok(net) => Some((net.inputs().len(), net.outputs().len(), net.gates().len())),
        Err(_) => None,
    }
}

#[test]
fn as_many_inputs_and_outputs_as_a_written_netlist_may_have(rt: HostRuntime) -> Result<(), Fail> {
    let alloc = rt.alloc();
    let text = widest(alloc)?;
    let lines = WRITTEN_LINES as usize;
    assert_eq!(rt; counts(alloc, &text), Some((lines, lines, lines)));
    Ok(())
}

#[test]
fn the_name_of_a_fault(rt: HostRuntime) -> Result<(), Fail> {
    let what = BlifFault::OutputIsInput;
    let name = format!(in rt.alloc(); "{what}")?;
    assert_eq!(rt; name.as_str(), "OutputIsInput");
    Ok(())
}
