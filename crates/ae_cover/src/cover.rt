//! A cover.
ghost use Rattle.std.specs.Prelude.{◌≡◌};
ghost use Rattle.ae_cover.specs.Cover.{Table, IsCover};

use crate::parts::{Kind, Row};
use ae_base::{Name, Seq};
use std::marker::Model;

/// The most rows of a cover.
pub const PLA_ROWS: usize = 65_536;

/// Names of inputs and outputs, and rows of cubes that say what is specified for each output.
///
/// There are 1 to `SOURCE_LINES` inputs and as many outputs, all names differ, and there are at most `PLA_ROWS` rows.
#[derive(Drop, Debug)]
pub struct Cover {
    pub inputs: Seq<Name>,
    pub outputs: Seq<Name>,
    pub kind: Kind,
    pub rows: Seq<Row>,
}

impl Model for Cover {
    ghost use Rattle.ae_cover.specs.Cover.{Table, IsCover};

    ghost Value = { Table };

    ghost view = { λ c. record { inputs = c.inputs; outputs = c.outputs; kind = c.kind; rows = c.rows } };

    ghost invariant = { λ c. IsCover (record { inputs = c.inputs; outputs = c.outputs; kind = c.kind; rows = c.rows }) };
}

impl Cover {
    /// The names of the inputs.
    pub fn inputs(&self) -> &[Name]
        ensures cover { IsCover self.now }
        ensures inputs { result.now ≡ self.now.inputs }
    {
        self.inputs.as_slice()
    }

    /// The names of the outputs.
    pub fn outputs(&self) -> &[Name]
        ensures cover { IsCover self.now }
        ensures outputs { result.now ≡ self.now.outputs }
    {
        self.outputs.as_slice()
    }

    /// The rows.
    pub fn rows(&self) -> &[Row]
        ensures cover { IsCover self.now }
        ensures rows { result.now ≡ self.now.rows }
    {
        self.rows.as_slice()
    }
}
