//! Gates by what they compute.
ghost use Rattle.std.specs.Prelude.{◌≡◌, ◌≤◌, ◌-◌, [], ◌∷◌, length, IfOk};
ghost use Rattle.ae_base.specs.Mask.{empty, with, first};
ghost use Rattle.ae_net.specs.Gates as spec;

use crate::net::{Gate, Sig};
use crate::pins::Pins;
use ae_base::{Cube, Mask, Memory, Name, PINS, Seq};
use std::alloc::Global;

/// A gate by what it computes, before it has a name. An AND gate is 1 exactly where all its pins are 1, and so without pins it is 1.
#[derive(Drop)]
pub enum Cell {
    Zero,
    One,
    Inverter(Sig),
    Buffer(Sig),
    And(Pins),
    Exor(Sig, Sig),
    Or(Sig, Sig),
}

/// The set of `j` alone.
fn one(j: u32) -> Mask
    requires { j ≤ 1 }
    ensures { result ≡ with empty j }
{
    Mask::empty().with(j)
}

/// The row that holds where pin `j` is 0.
#[tactic(auto, using(ae_base::proofs::Sets::set_members))]
fn low(j: u32) -> Cube
    requires { j ≤ 1 }
    ensures { result ≡ record { pos = empty; neg = with empty j } }
{
    Cube {
        pos: Mask::empty(),
        neg: one(j),
    }
}

/// The row that holds where pin `j` is 1.
#[tactic(auto, using(ae_base::proofs::Sets::set_members))]
fn high(j: u32) -> Cube
    requires { j ≤ 1 }
    ensures { result ≡ record { pos = with empty j; neg = empty } }
{
    Cube {
        pos: one(j),
        neg: Mask::empty(),
    }
}

/// The row that holds where the one of two pins that is `i` is 1 and the other, `1 - i`, is 0.
#[tactic(auto, using(ae_base::proofs::Sets::set_members))]
fn apart(i: u32) -> Cube
    requires { i ≤ 1 }
    ensures { result ≡ record { pos = with empty i; neg = with empty (1 - i) } }
{
    Cube {
        pos: one(i),
        neg: one(1 - i),
    }
}

/// The row that holds where the first `n` pins are 1.
#[tactic(auto, using(ae_base::proofs::Sets::set_members))]
fn all_of(n: u32) -> Cube
    requires { n ≤ PINS }
    ensures { result ≡ record { pos = first n; neg = empty } }
{
    Cube {
        pos: Mask::first(n),
        neg: Mask::empty(),
    }
}

/// A list of one pin.
fn one_pin(alloc: Global, a: Sig) -> Result<Pins, Memory>
    ensures { IfOk result (λ pins. pins ≡ a ∷ []) }
{
    let mut pins = Pins::new(alloc);
    pins.push(a)?;
    Ok(pins)
}

/// A list of two pins.
fn two_pins(alloc: Global, a: Sig, b: Sig) -> Result<Pins, Memory>
    ensures { IfOk result (λ pins. pins ≡ a ∷ b ∷ []) }
{
    let mut pins = one_pin(alloc, a)?;
    pins.push(b)?;
    Ok(pins)
}

/// The same pins.
fn copy_pins(alloc: Global, from: &Pins) -> Result<Pins, Memory>
    ensures { IfOk result (λ pins. pins ≡ from.now) }
{
    let mut pins = Pins::new(alloc);
    for a in from.as_slice() {
        pins.push(*a)?;
    }
    Ok(pins)
}

/// A list of one row.
fn one_row(alloc: Global, row: Cube) -> Result<Seq<Cube>, Memory>
    ensures { IfOk result (λ rows. rows ≡ row ∷ []) }
{
    let mut rows = Seq::new(alloc);
    rows.push(row)?;
    Ok(rows)
}

/// A list of two rows.
fn two_rows(alloc: Global, row: Cube, other: Cube) -> Result<Seq<Cube>, Memory>
    ensures { IfOk result (λ rows. rows ≡ row ∷ other ∷ []) }
{
    let mut rows = one_row(alloc, row)?;
    rows.push(other)?;
    Ok(rows)
}

/// The pins of a gate.
fn pins_of(alloc: Global, cell: &Cell) -> Result<Pins, Memory>
    ensures { IfOk result (λ pins. pins ≡ spec.pins_of cell.now) }
{
    match cell {
        Cell::Zero => Ok(Pins::new(alloc)),
        Cell::One => Ok(Pins::new(alloc)),
        Cell::Inverter(a) => one_pin(alloc, *a),
        Cell::Buffer(a) => one_pin(alloc, *a),
        Cell::And(pins) => copy_pins(alloc, pins),
        Cell::Exor(a, b) => two_pins(alloc, *a, *b),
        Cell::Or(a, b) => two_pins(alloc, *a, *b),
    }
}

/// The rows of a gate.
fn rows_of(alloc: Global, cell: &Cell) -> Result<Seq<Cube>, Memory>
    requires { length (spec.pins_of cell.now) ≤ PINS }
    ensures { IfOk result (λ rows. rows ≡ spec.rows_of cell.now) }
{
    match cell {
        Cell::Zero => Ok(Seq::new(alloc)),
        Cell::One => one_row(alloc, Cube::whole()),
        Cell::Inverter(_) => one_row(alloc, low(0)),
        Cell::Buffer(_) => one_row(alloc, high(0)),
        Cell::And(pins) => one_row(alloc, all_of(pins.len() as u32)),
        Cell::Exor(_, _) => two_rows(alloc, apart(0), apart(1)),
        Cell::Or(_, _) => two_rows(alloc, high(0), high(1)),
    }
}

/// The gate of this name.
pub fn gate_of(alloc: Global, out: Name, cell: &Cell) -> Result<Gate, Memory>
    requires { length (spec.pins_of cell.now) ≤ PINS }
    ensures { IfOk result (λ gate. gate ≡ spec.gate_of out cell.now) }
{
    Ok(Gate {
        out,
        pins: pins_of(alloc, cell)?,
        rows: rows_of(alloc, cell)?,
        on: true,
    })
}
