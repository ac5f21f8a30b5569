//! The parts of a cover.

use ae_base::{Cube, Seq};

/// What a cover specifies at a point that no row with `One` holds.
#[derive(Clone, Copy, Debug, PartialEq, Eq)]
pub enum Kind {
    /// Off.
    F,
    /// Free where some row with `Dash` holds it, else Off.
    Fd,
    /// Off where some row with `Zero` holds it, else Free.
    Fr,
    /// Off where some row with `Zero` holds it, else Free.
    Fdr,
}

/// What a row says of an output at the points that it holds.
#[derive(Clone, Copy, Debug, PartialEq, Eq)]
pub enum Mark {
    /// On.
    One,
    /// Off, in the kinds `Fr` and `Fdr`; nothing in the others.
    Zero,
    /// Free, in the kinds `Fd` and `Fdr`; nothing in the others.
    Dash,
    /// Nothing.
    Void,
}

/// The points that a row holds, and a mark for each output.
#[derive(Drop, Debug)]
pub struct Row {
    pub cube: Cube,
    pub outs: Seq<Mark>,
}

/// A row with `One` for an output and one with `Zero` for it that hold a common point. Rows are counted from 0.
#[derive(Clone, Copy, Debug, PartialEq, Eq)]
pub struct Clash {
    pub output: u32,
    pub on_row: u32,
    pub off_row: u32,
}
