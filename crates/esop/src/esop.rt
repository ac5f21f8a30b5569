//! Exclusive sums of products (ESOPs).
ghost use Rattle.std.specs.Prelude.{◌≡◌};

use ae_base::{Cube, Seq};
use std::marker::Model;

/// For each output in order a list of cubes, which means their EXOR. What is asked of it is its invariant, `IsCubes`: `n` is at most
/// `NET_LINES`, cubes have literals of inputs below `n` alone, and each list is in the order of the cubes' texts (`Cube::cmp_text`), in
/// which equal cubes may follow each other.
#[derive(Drop)]
pub struct Esop {
    /// The number of inputs.
    pub n: u32,
    /// The cubes of each output.
    pub outs: Seq<Seq<Cube>>,
}

impl Model for Esop {
    ghost use Rattle.esop.specs.Esop.{Cubes};
    ghost use Rattle.esop.specs.Kept.{IsCubes};

    ghost Value = { Cubes };

    ghost view = { λ e. record { n = e.n; outs = e.outs } };

    ghost invariant = { λ e. IsCubes (record { n = e.n; outs = e.outs }) };
}

impl Esop {
    ghost use Rattle.esop.specs.Kept.{IsCubes};

    /// The lists of cubes, one for each output.
    pub fn lists(&self) -> &[Seq<Cube>]
        ensures lists { result.now ≡ self.now.outs }
        ensures valid { IsCubes self.now }
    {
        self.outs.as_slice()
    }

    /// The number of inputs.
    pub fn inputs(&self) -> u32
        ensures inputs { result ≡ self.now.n }
        ensures valid { IsCubes self.now }
    {
        self.n
    }
}
