//! The calls of `ae_net`: gates, names, places, faults and answers.
ghost use Rattle.std.specs.Prelude.{◌≡◌, ◌∷◌, [], length, IfOk, OnOk};

use ae_base::{Memory, Name, Seq};
use ae_net::{
    Cell, Fault, Net, NetBuilder, Pins, Place, answer, fault_count, faults, is_place, lead,
    letter_name, numbered_name, scratch_for,
};
use blif_read::BlifErr;
use pla_read::PlaErr;
use std::alloc::Global;
use std::test::Fail;
use test_support::{Table, are_gates, are_names, cover_of, names_of, net_of, set};

/// The cascade of the AND of `a` and `b`, whose control is `c`. Nothing reads `d`.
static CASCADE: &[u8] =
    b".model m\n.inputs a b c d\n.outputs f\n.names a b e\n11 1\n.names c e f\n10 1\n01 1\n";

static INVERTER: &[u8] = b".model m\n.inputs a\n.outputs f\n.names a f\n0 1\n";

static FAULTS: [Fault; 20] = [
    Fault {
        place: Place::Stem(0),
        value: false,
    },
    Fault {
        place: Place::Stem(0),
        value: true,
    },
    Fault {
        place: Place::Stem(1),
        value: false,
    },
    Fault {
        place: Place::Stem(1),
        value: true,
    },
    Fault {
        place: Place::Stem(2),
        value: false,
    },
    Fault {
        place: Place::Stem(2),
        value: true,
    },
    Fault {
        place: Place::Stem(4),
        value: false,
    },
    Fault {
        place: Place::Stem(4),
        value: true,
    },
    Fault {
        place: Place::Stem(5),
        value: false,
    },
    Fault {
        place: Place::Stem(5),
        value: true,
    },
    Fault {
        place: Place::Pin(0, 0),
        value: false,
    },
    Fault {
        place: Place::Pin(0, 0),
        value: true,
    },
    Fault {
        place: Place::Pin(0, 1),
        value: false,
    },
    Fault {
        place: Place::Pin(0, 1),
        value: true,
    },
    Fault {
        place: Place::Pin(1, 0),
        value: false,
    },
    Fault {
        place: Place::Pin(1, 0),
        value: true,
    },
    Fault {
        place: Place::Pin(1, 1),
        value: false,
    },
    Fault {
        place: Place::Pin(1, 1),
        value: true,
    },
    Fault {
        place: Place::Port(0),
        value: false,
    },
    Fault {
        place: Place::Port(0),
        value: true,
    },
];

static NO_PLACES: [Place; 5] = [
    Place::Stem(3),
    Place::Stem(6),
    Place::Pin(0, 2),
    Place::Pin(2, 0),
    Place::Port(1),
];

/// Whether each fault is at a place of the network.
fn are_at_places(net: &Net, faults: &[Fault]) -> bool {
    for fault in faults {
        if !is_place(net, fault.place) {
            return false;
        }
    }
    true
}

/// Whether one of these is a place of the network.
fn has_place(net: &Net, places: &[Place]) -> bool {
    for place in places {
        if is_place(net, *place) {
            return true;
        }
    }
    false
}

fn lists_faults(alloc: Global) -> Result<bool, BlifErr> {
    let net = net_of(alloc, CASCADE)?;
    let found = faults(alloc, &net)?;
    let count = fault_count(alloc, &net)?;
    Ok(
        found.as_slice() == FAULTS.as_slice()
            && count == 20
            && are_at_places(&net, &found)
            && !has_place(&net, &NO_PLACES),
    )
}

#[test]
fn places_and_faults(rt: HostRuntime) -> Result<(), Fail> {
    let same = lists_faults(rt.alloc())?;
    assert!(rt; same);
    Ok(())
}

/// Whether a scratch lends a byte for each signal.
fn lends_bytes(alloc: Global) -> Result<bool, BlifErr> {
    let net = net_of(alloc, CASCADE)?;
    let mut scratch = scratch_for(alloc, &net)?;
    Ok(scratch.room() == 6 && scratch.bytes().len() == 6)
}

#[test]
fn scratch(rt: HostRuntime) -> Result<(), Fail> {
    let lends = lends_bytes(rt.alloc())?;
    assert!(rt; lends);
    Ok(())
}

/// A fault, the inputs that are 1, and the outputs that show 1 then.
struct Answer {
    fault: Option<Fault>,
    ones: &'static [u32],
    outs: &'static [u32],
}

static ANSWERS: [Answer; 3] = [
    Answer {
        fault: None,
        ones: &[],
        outs: &[0],
    },
    Answer {
        fault: None,
        ones: &[0],
        outs: &[],
    },
    Answer {
        fault: Some(Fault {
            place: Place::Pin(0, 0),
            value: true,
        }),
        ones: &[],
        outs: &[],
    },
];

fn answers(alloc: Global, net: &Net, row: &Answer) -> Result<bool, Memory> {
    let mut scratch = scratch_for(alloc, net)?;
    Ok(answer(net, row.fault, set(row.ones), &mut scratch) == set(row.outs))
}

/// The place of the first row with another answer, where there is one.
fn first_other(alloc: Global) -> Result<Option<usize>, BlifErr> {
    let net = net_of(alloc, INVERTER)?;
    for (i, row) in ANSWERS.iter().enumerate() {
        if !answers(alloc, &net, row)? {
            return Ok(Some(i));
        }
    }
    Ok(None)
}

#[test]
fn answers_of_an_inverter(rt: HostRuntime) -> Result<(), Fail> {
    let other = first_other(rt.alloc())?;
    assert_eq!(rt; other, None);
    Ok(())
}

static BUILT: [Table; 4] = [
    Table {
        name: b"_i",
        pins: &[1],
        rows: &[(&[], &[0])],
        on: true,
    },
    Table {
        name: b"_b",
        pins: &[2],
        rows: &[(&[0], &[])],
        on: true,
    },
    Table {
        name: b"_x",
        pins: &[0, 3],
        rows: &[(&[0], &[1]), (&[1], &[0])],
        on: true,
    },
    Table {
        name: b"_t",
        pins: &[4, 1],
        rows: &[(&[0, 1], &[])],
        on: true,
    },
];

/// A network in the making, with the inputs `_a` and `_c`.
fn two_inputs(alloc: Global) -> Result<NetBuilder, Memory>
    ensures { IfOk result (λ net. (length net.inputs ≡ 2) × (net.gates ≡ [])) }
{
    let mut inputs = Seq::new(alloc);
    inputs.push(letter_name(alloc, 1, b'a')?)?;
    inputs.push(letter_name(alloc, 1, b'c')?)?;
    Ok(NetBuilder::new(alloc, inputs))
}

/// Whether gates of one pin have the signals after those of the inputs.
fn adds_gates_of_one_pin(alloc: Global, net: &mut NetBuilder) -> Result<bool, Memory>
    requires { net.old.gates ≡ [] }
    ensures { OnOk result (length net.new.gates ≡ 2) }
{
    let inverter = net.push(letter_name(alloc, 1, b'i')?, &Cell::Inverter(1))?;
    let buffer = net.push(letter_name(alloc, 1, b'b')?, &Cell::Buffer(inverter))?;
    Ok(inverter == 2 && buffer == 3)
}

fn two_pins(alloc: Global, a: u32, b: u32) -> Result<Pins, Memory>
    ensures { IfOk result (λ pins. pins ≡ a ∷ b ∷ []) }
{
    let mut pins = Pins::new(alloc);
    pins.push(a)?;
    pins.push(b)?;
    Ok(pins)
}

/// Whether gates of two pins have the signals after those of two inputs and two gates.
fn adds_gates_of_two_pins(alloc: Global, net: &mut NetBuilder) -> Result<bool, Memory>
    requires { length net.old.gates ≡ 2 }
{
    let exor = net.push(letter_name(alloc, 1, b'x')?, &Cell::Exor(0, 3))?;
    let pins = two_pins(alloc, exor, 1)?;
    let and = net.push(letter_name(alloc, 1, b't')?, &Cell::And(pins))?;
    Ok(exor == 4 && and == 5)
}

fn is_built(alloc: Global) -> Result<bool, Memory> {
    let mut net = two_inputs(alloc)?;
    let one = adds_gates_of_one_pin(alloc, &mut net)?;
    let two = adds_gates_of_two_pins(alloc, &mut net)?;
    Ok(one && two && are_gates(net.gates(), &BUILT))
}

#[test]
fn gates(rt: HostRuntime) -> Result<(), Fail> {
    let built = is_built(rt.alloc())?;
    assert!(rt; built);
    Ok(())
}

fn has_its_names(alloc: Global) -> Result<bool, PlaErr> {
    let cover = cover_of(alloc, b".i 2\n.o 1\n.ilb _c x\n.ob f\n")?;
    let names = names_of(alloc, cover)?;
    Ok(
        names.model().bytes() == b"andexor".as_slice()
            && are_names(names.inputs(), &[b"_c", b"x"])
            && are_names(names.outputs(), &[b"f"])
            && lead(&names) == 2,
    )
}

fn has_a_number(alloc: Global) -> Result<bool, Memory> {
    Ok(numbered_name(alloc, 2, b't', 12)?.bytes() == b"__t12".as_slice())
}

#[test]
fn names(rt: HostRuntime) -> Result<(), Fail> {
    let alloc = rt.alloc();
    let same = has_its_names(alloc)?;
    let numbered = has_a_number(alloc)?;
    assert!(rt; same && numbered);
    Ok(())
}

/// Whether the parts of the cascade's network are those of its text.
fn has_its_parts(alloc: Global) -> Result<bool, BlifErr> {
    let net = net_of(alloc, CASCADE)?;
    Ok(
        net.model().bytes() == b"m".as_slice()
            && are_names(net.inputs(), &[b"a", b"b", b"c", b"d"])
            && net.outputs() == [5].as_slice()
            && net.gates().len() == 2
            && net.gate(1).out.bytes() == b"f".as_slice(),
    )
}

#[test]
fn parts_of_a_network(rt: HostRuntime) -> Result<(), Fail> {
    let has = has_its_parts(rt.alloc())?;
    assert!(rt; has);
    Ok(())
}
