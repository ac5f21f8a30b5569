//! The gates of a sum.
ghost use Rattle.std.specs.Prelude.{◌≡◌, true, ◌<◌, ◌≤◌, ◌+◌, ◌*◌, ◌^◌, ◌++◌, ◌∷◌, [], length, IfOk, OnOk};
ghost use Rattle.std.specs.Prelude.{◌==◌};
ghost use Rattle.std.specs.List.{position_or_len};
ghost use Rattle.ae_base.specs.declared.limits.TheConstants.{SOURCE_LINES};
ghost use Rattle.factor.specs.Cells as spec;
ghost use Rattle.ae_net.specs.declared.gates.Cell.TheVariants.{And as spec_and};
ghost use Rattle.factor.specs.Seen.{seen, AreWires, IsWithin};
ghost use Rattle.factor.specs.Sums as sum_spec;

use crate::sums::{Sum, has_constant};
use ae_base::{Cube, Memory, Seq};
use ae_net::{Cell, Pins, Sig};
use std::alloc::Global;

/// The inputs, and those of them that have an inverter, in order.
#[derive(Drop)]
pub struct Wires {
    pub inputs: u32,
    pub turned: Seq<u32>,
}

/// A summand: the literals that are its direct factors, and its signal.
#[derive(Drop)]
struct Factor {
    literals: Cube,
    signal: Sig,
}

/// Adds a gate, and answers its signal. The first of the gates has the signal `first`.
fn push(first: Sig, cell: Cell, cells: &mut Vec<Cell>) -> Result<Sig, Memory>
    requires { first + length cells.old.items < 2 ^ 32 }
    ensures cells { OnOk result (cells.new.items ≡ cells.old.items ++ cell ∷ []) }
    ensures signal { IfOk result (λ signal. signal ≡ first + length cells.old.items) }
{
    let signal = first + cells.len() as Sig;
    cells.push(cell)?;
    Ok(signal)
}

/// The place of a number in a list, or the list's length.
fn place_of(list: &[u32], x: u32) -> usize
    ensures place { result ≡ position_or_len (λ y. y == x) list.now }
    ensures within { result ≤ length list.now }
{
    for i in 0..list.len() {
        if list[i] == x {
            return i;
        }
    }
    list.len()
}

/// The signal of a literal of input `j`.
#[tactic(auto, unfolding(crate::specs::Cells::literal_signal))]
fn literal_signal(wires: &Wires, plain: bool, j: u32) -> Sig
    requires { AreWires wires.now }
    ensures { result ≡ spec.literal_signal wires.now plain j }
{
    if plain {
        j
    } else {
        wires.inputs + place_of(wires.turned.as_slice(), j) as u32
    }
}

/// The signals of a product's literals, in input order.
#[tactic(auto, unfolding(crate::specs::Cells::literal_signals))]
fn literal_signals(alloc: Global, wires: &Wires, literals: Cube) -> Result<Pins, Memory>
    requires { AreWires wires.now }
    ensures { IfOk result (λ pins. pins ≡ spec.literal_signals wires.now literals) }
{
    let mut pins = Pins::new(alloc);
    for j in literals.pos.or(literals.neg).members() {
        pins.push(literal_signal(wires, literals.pos.has(j), j))?;
    }
    Ok(pins)
}

/// Adds the AND gate of a product of literals, where it is not one literal alone, and answers the product's signal.
fn push_product(
    alloc: Global,
    wires: &Wires,
    first: Sig,
    literals: Cube,
    cells: &mut Vec<Cell>,
) -> Result<Sig, Memory>
    requires wires { AreWires wires.now }
    requires room { first + length cells.old.items < 2 ^ 32 }
    ensures cells { OnOk result (cells.new.items ≡ cells.old.items ++ (spec.product_of (first + length cells.old.items) (spec.literal_signals wires.now literals)).cells) }
    ensures signal { IfOk result (λ signal. signal ≡ (spec.product_of (first + length cells.old.items) (spec.literal_signals wires.now literals)).signal) }
{
    let signals = literal_signals(alloc, wires, literals)?;
    if signals.len() == 1 {
        return Ok(signals.as_slice()[0]);
    }
    push(first, Cell::And(signals), cells)
}

/// Adds the AND gate of literals and of an inner sum, and answers its signal.
fn push_and(
    alloc: Global,
    wires: &Wires,
    first: Sig,
    literals: Cube,
    inner: Sig,
    cells: &mut Vec<Cell>,
) -> Result<Sig, Memory>
    requires wires { AreWires wires.now }
    requires room { first + length cells.old.items < 2 ^ 32 }
    ensures cells { OnOk result (cells.new.items ≡ cells.old.items ++ spec_and (spec.literal_signals wires.now literals ++ inner ∷ []) ∷ []) }
    ensures signal { IfOk result (λ signal. signal ≡ first + length cells.old.items) }
{
    let mut signals = literal_signals(alloc, wires, literals)?;
    signals.push(inner)?;
    push(first, Cell::And(signals), cells)
}

/// Whether each earlier summand excludes the product of these literals.
fn are_excluded(earlier: &[Factor], literals: Cube) -> bool
    ensures { result ≡ spec.are_excluded earlier.now literals }
{
    earlier.iter().all(|e| !e.literals.meets(literals))
}

/// The gate that joins a summand to the line, which joins the earlier ones.
fn join(earlier: &[Factor], line: Sig, f: &Factor) -> Cell
    ensures { result ≡ spec.join earlier.now line f.now }
{
    if are_excluded(earlier, f.literals) {
        Cell::Or(line, f.signal)
    } else {
        Cell::Exor(line, f.signal)
    }
}

/// Adds the gates that join the summands, and answers the signal that they come to.
fn push_chain(first: Sig, factors: &[Factor], cells: &mut Vec<Cell>) -> Result<Sig, Memory>
    requires some { 0 < length factors.now }
    requires room { first + length cells.old.items + length factors.now < 2 ^ 32 }
    ensures cells { OnOk result (cells.new.items ≡ cells.old.items ++ (spec.chain_of (first + length cells.old.items) factors.now).cells) }
    ensures signal { IfOk result (λ signal. signal ≡ (spec.chain_of (first + length cells.old.items) factors.now).signal) }
{
    let mut line = factors[0].signal;
    for i in 1..factors.len() {
        line = push(first, join(&factors[..i], line, &factors[i]), cells)?;
    }
    Ok(line)
}

/// Adds the gates that join the summands, and the inverter where the sum has the constant, or a gate of the constant where there is no
/// summand. Answers the signal that they come to.
fn push_closing(
    first: Sig,
    constant: bool,
    factors: &[Factor],
    cells: &mut Vec<Cell>,
) -> Result<Sig, Memory>
    requires room { first + length cells.old.items + length factors.now < 2 ^ 32 }
    ensures cells { OnOk result (cells.new.items ≡ cells.old.items ++ (spec.closing (first + length cells.old.items) constant factors.now).cells) }
    ensures signal { IfOk result (λ signal. signal ≡ (spec.closing (first + length cells.old.items) constant factors.now).signal) }
{
    if factors.is_empty() {
        return push(first, if constant { Cell::One } else { Cell::Zero }, cells);
    }
    let line = push_chain(first, factors, cells)?;
    if constant {
        return push(first, Cell::Inverter(line), cells);
    }
    Ok(line)
}

/// Adds the gates of the summands of a sum, and to `factors` the summands.
#[cycle(parts)]
fn push_parts(
    alloc: Global,
    wires: &Wires,
    first: Sig,
    sum: &Sum,
    cells: &mut Vec<Cell>,
    factors: &mut Vec<Factor>,
) -> Result<(), Memory>
    requires wires { AreWires wires.now }
    requires room { first + length cells.old.items + 3 * sum_spec.nodes (seen sum.now) < 2 ^ 32 }
    ensures cells { OnOk result (cells.new.items ≡ cells.old.items ++ (spec.parts wires.now (first + length cells.old.items) (seen sum.now)).cells) }
    ensures factors { OnOk result (factors.new.items ≡ factors.old.items ++ (spec.parts wires.now (first + length cells.old.items) (seen sum.now)).factors) }
{
    match sum {
        Sum::End(_) => Ok(()),
        Sum::Literals(literals, rest) => {
            let signal = push_product(alloc, wires, first, *literals, cells)?;
            push_factor(*literals, signal, factors)?;
            push_parts(alloc, wires, first, rest, cells, factors)
        }
        Sum::Factored(literals, inner, rest) => {
            let line = push_sum(alloc, wires, first, inner, cells)?;
            let signal = push_and(alloc, wires, first, *literals, line, cells)?;
            push_factor(*literals, signal, factors)?;
            push_parts(alloc, wires, first, rest, cells, factors)
        }
    }
}

/// Adds a summand.
fn push_factor(literals: Cube, signal: Sig, factors: &mut Vec<Factor>) -> Result<(), Memory>
    ensures { OnOk result (factors.new.items ≡ factors.old.items ++ record { literals = literals; signal = signal } ∷ []) }
{
    factors.push(Factor { literals, signal })?;
    Ok(())
}

/// Adds the gates of a sum, and answers the signal that they come to.
#[cycle(parts)]
fn push_sum(
    alloc: Global,
    wires: &Wires,
    first: Sig,
    sum: &Sum,
    cells: &mut Vec<Cell>,
) -> Result<Sig, Memory>
    requires wires { AreWires wires.now }
    requires room { first + length cells.old.items + 3 * sum_spec.nodes (seen sum.now) + 1 < 2 ^ 32 }
    ensures cells { OnOk result (cells.new.items ≡ cells.old.items ++ (spec.sum_part wires.now (first + length cells.old.items) (seen sum.now)).cells) }
    ensures few { OnOk result (length cells.new.items ≤ length cells.old.items + 3 * sum_spec.nodes (seen sum.now) + 1) }
    ensures signal { IfOk result (λ signal. signal ≡ (spec.sum_part wires.now (first + length cells.old.items) (seen sum.now)).signal) }
{
    let mut factors = Vec::new(alloc);
    push_parts(alloc, wires, first, sum, cells, &mut factors)?;
    push_closing(first, has_constant(sum), factors.as_slice(), cells)
}

/// The gates of an output's sum, the first of them with the signal `first`.
#[tactic(auto, unfolding(crate::specs::Cells::output_cells))]
pub fn output_cells(
    alloc: Global,
    wires: &Wires,
    first: Sig,
    sum: &Sum,
) -> Result<Vec<Cell>, Memory>
    requires wires { AreWires wires.now }
    requires room { first + 3 * sum_spec.nodes (seen sum.now) + 1 < 2 ^ 32 }
    ensures { IfOk result (λ cells. cells.items ≡ spec.output_cells wires.now first (seen sum.now)) }
{
    let mut cells = Vec::new(alloc);
    let signal = push_sum(alloc, wires, first, sum, &mut cells)?;
    if cells.is_empty() {
        cells.push(Cell::Buffer(signal))?;
    }
    Ok(cells)
}
