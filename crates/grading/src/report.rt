//! What is asked of a netlist and a vector file, and what is found.

use ae_base::Seq;
use named_faults::NamedFault;

/// What is asked of a pair of texts.
#[derive(Clone, Copy, Debug, PartialEq, Eq)]
pub enum Mode {
    /// How the vectors fare. No line of an undetectable fault is looked at.
    Grade,
    /// Also which faults that they miss the file proves undetectable.
    Check,
}

/// What is found of a pair of texts.
#[derive(Drop, Debug)]
pub struct GradeReport {
    /// The number of vectors.
    pub vectors: u64,
    /// The number of vectors whose response is not the one of the network without a fault.
    pub wrong: u64,
    /// The number of the network's single stuck-at faults.
    pub faults: u64,
    /// The number of those that some vector detects.
    pub told: u64,
    /// The number of the others for which a line that is looked at has an evidence tree that holds.
    pub proved: u64,
    /// The rest, in fault order.
    pub left: Seq<NamedFault>,
}
