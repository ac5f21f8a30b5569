//! Networks and covers of texts, and their parts beside those of a table.

use crate::sets::set;
use ae_base::{Cube, Memory, Name, TEXT_BYTES};
use ae_cover::Cover;
use ae_net::{Gate, Net, NetNames, Source};
use blif_read::{BlifErr, NetLimits, read_blif, read_source};
use pla_read::{PlaErr, read_pla};
use std::alloc::Global;

/// A product: the inputs, or the pins of a gate, with a plain literal, and those with a complemented one.
pub type Literals = (&'static [u32], &'static [u32]);

/// A gate's name, pins, rows, and whether the rows say where it is 1.
pub struct Table {
    pub name: &'static [u8],
    pub pins: &'static [u32],
    pub rows: &'static [Literals],
    pub on: bool,
}

/// Whether the names have these bytes, in order.
pub fn are_names(found: &[Name], wanted: &[&'static [u8]]) -> bool {
    for (name, bytes) in found.iter().zip(wanted.iter()) {
        if name.bytes() != *bytes {
            return false;
        }
    }
    found.len() == wanted.len()
}

/// Whether the products are those of these literals, in order.
pub fn are_rows(found: &[Cube], wanted: &[Literals]) -> bool {
    for (cube, row) in found.iter().zip(wanted.iter()) {
        if cube.pos != set(row.0) || cube.neg != set(row.1) {
            return false;
        }
    }
    found.len() == wanted.len()
}

fn is_gate(gate: &Gate, table: &Table) -> bool {
    gate.out.bytes() == table.name
        && gate.pins.as_slice() == table.pins
        && gate.on == table.on
        && are_rows(gate.rows.as_slice(), table.rows)
}

/// Whether the gates are those of these tables, in order.
pub fn are_gates(found: &[Gate], wanted: &[Table]) -> bool {
    for (gate, table) in found.iter().zip(wanted.iter()) {
        if !is_gate(gate, table) {
            return false;
        }
    }
    found.len() == wanted.len()
}

/// The network of a text, within the limits of a source. A text of more than `TEXT_BYTES` is answered with want of memory.
pub fn net_of(alloc: Global, text: &[u8]) -> Result<Net, BlifErr> {
    if text.len() > TEXT_BYTES {
        return Err(BlifErr::Memory);
    }
    read_blif(alloc, text, NetLimits::Source)
}

/// The source of a text, with its don't cares. A text of more than `TEXT_BYTES` is answered with want of memory.
pub fn source_of(alloc: Global, text: &[u8]) -> Result<Source, BlifErr> {
    if text.len() > TEXT_BYTES {
        return Err(BlifErr::Memory);
    }
    read_source(alloc, text)
}

/// The cover of a text. A text of more than `TEXT_BYTES` is answered with want of memory.
pub fn cover_of(alloc: Global, text: &[u8]) -> Result<Cover, PlaErr> {
    if text.len() > TEXT_BYTES {
        return Err(PlaErr::Memory);
    }
    read_pla(alloc, text)
}

/// The names of a cover, and the model `andexor`.
pub fn names_of(alloc: Global, cover: Cover) -> Result<NetNames, Memory> {
    let model = Name::known(alloc, b"andexor")?;
    Ok(NetNames {
        model,
        inputs: cover.inputs,
        outputs: cover.outputs,
    })
}
