//! Gates from their lines.
ghost use Rattle.std.specs.Prelude.{◌≡◌, ℕ, ◌+◌, ◌<◌, ◌≤◌, ◌^◌, length, map, drop, All, None, Some, option_map, slice_index_or, IfOk, OnOk};
ghost use Rattle.blif_read.specs.Build as spec;

use crate::draft::Draft;
use crate::statement::{joined, row_end};
use ae_base::{Cube, Memory, Name, PINS, Seq, cube_of};
use ae_lex::WordLine;
use ae_net::{Gate, Pins};
use std::alloc::Global;

/// The cube of a row over so many pins.
#[tactic(auto, using(std::proofs::lemmas::List::take_all))]
fn row_cube(pins: u32, chars: &[u8]) -> Cube
    requires { pins ≤ PINS }
    ensures { result ≡ spec.row_cube pins chars.now }
{
    let pins = pins as usize;
    if chars.len() <= pins {
        return cube_of(chars);
    }
    cube_of(&chars[..pins])
}

/// The characters of a line, if it is a row.
fn row_chars(alloc: Global, line: &WordLine<'_>) -> Result<Option<Seq<u8>>, Memory>
    ensures { IfOk result (λ found. found ≡ spec.row_chars line.now.words) }
{
    match line.words() {
        [[b'.', ..], ..] => Ok(None),
        words => Ok(Some(Seq::from_vec(joined(alloc, words)?))),
    }
}

/// The rows at the front of lines, over so many pins.
fn rows_at(alloc: Global, lines: &[WordLine<'_>], pins: u32) -> Result<Seq<Cube>, Memory>
    requires { pins ≤ PINS }
    ensures { IfOk result (λ rows. rows ≡ map (spec.row_cube pins) (spec.rows_of lines.now)) }
{
    let mut rows = Seq::new(alloc);
    for line in lines {
        match row_chars(alloc, line)? {
            Some(chars) => rows.push(row_cube(pins, chars.as_slice()))?,
            None => return Ok(rows),
        }
    }
    Ok(rows)
}

/// Whether the rows at the front of lines end with 1, or there is none.
fn is_on(alloc: Global, lines: &[WordLine<'_>]) -> Result<bool, Memory>
    ensures { IfOk result (λ on. on ≡ spec.is_on (spec.rows_of lines.now)) }
{
    let [first, ..] = lines else {
        return Ok(true);
    };
    match row_chars(alloc, first)? {
        Some(chars) => Ok(row_end(chars.as_slice()) == b'1'),
        None => Ok(true),
    }
}

/// The number of a signal in the network: inputs keep theirs, and gates have the place of their rank.
pub fn renumbered(inputs: u32, ranks: &[Option<u32>], signal: u32) -> u32
    requires known { signal < inputs + length ranks.now }
    requires short { inputs + length ranks.now < 2 ^ 32 }
    requires ranked { All (spec.IsRankBelow (length ranks.now)) ranks.now }
    ensures { result ≡ spec.renumbered inputs ranks.now signal }
{
    if signal < inputs {
        return signal;
    }
    match ranks[(signal - inputs) as usize] {
        Some(rank) => inputs + rank,
        None => inputs,
    }
}

fn renumbered_pins(
    alloc: Global,
    inputs: u32,
    ranks: &[Option<u32>],
    signals: &[u32],
) -> Result<Pins, Memory>
    requires known { All (λ s. s < inputs + length ranks.now) signals.now }
    requires short { inputs + length ranks.now < 2 ^ 32 }
    requires ranked { All (spec.IsRankBelow (length ranks.now)) ranks.now }
    ensures { IfOk result (λ pins. pins ≡ map (spec.renumbered inputs ranks.now) signals.now) }
{
    let mut pins = Pins::new(alloc);
    for signal in signals {
        pins.push(renumbered(inputs, ranks, *signal))?;
    }
    Ok(pins)
}

/// The gate of a draft, with the lines after its `.names`.
pub fn gate_of(
    alloc: Global,
    after: &[WordLine<'_>],
    name: &Name,
    signals: &[u32],
    inputs: u32,
    ranks: &[Option<u32>],
) -> Result<Gate, Memory>
    requires few { length signals.now ≤ PINS }
    requires known { All (λ s. s < inputs + length ranks.now) signals.now }
    requires short { inputs + length ranks.now < 2 ^ 32 }
    requires ranked { All (spec.IsRankBelow (length ranks.now)) ranks.now }
    ensures { IfOk result (λ gate. gate ≡ spec.built (spec.rows_of after.now) name.now signals.now inputs ranks.now) }
{
    Ok(Gate {
        out: name.copy(alloc)?,
        pins: renumbered_pins(alloc, inputs, ranks, signals)?,
        rows: rows_at(alloc, after, signals.len() as u32)?,
        on: is_on(alloc, after)?,
    })
}
