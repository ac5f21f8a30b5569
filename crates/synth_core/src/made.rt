//! What a synthesis makes.

use ae_base::{Form, Polarity};

/// The numbers that the report of a synthesis prints.
#[derive(Clone, Copy, Debug, PartialEq, Eq)]
pub struct Summary {
    /// The form of the network and of its vectors.
    pub form: Form,
    /// The number of the source's inputs.
    pub inputs: u32,
    /// The number of the source's outputs.
    pub outputs: u32,
    /// For each of the source's inputs, whether its literal is plain.
    pub polarity: Polarity,
    /// The number of terms of all outputs' expansions.
    pub terms: u64,
    /// The number of cubes of the rewritten expansions: 0 in Reddy form, which has none.
    pub cubes: u64,
    /// The number of the network's gates.
    pub gates: u64,
    /// The number of the network's single stuck-at faults.
    pub faults: u64,
    /// The number of the vectors.
    pub vectors: u64,
    /// The number of faults that no vector detects: 0 in Reddy form.
    pub unchanged: u64,
}

/// The texts of a network and of its vectors, and their numbers.
#[derive(Drop)]
pub struct Made {
    pub net_text: Vec<u8>,
    pub vec_text: Vec<u8>,
    pub summary: Summary,
}
