//! Letters of evidence trees.

/// A letter of an evidence tree.
#[derive(Clone, Copy, Debug, PartialEq, Eq)]
pub enum Step {
    /// A split on the next input, before the trees for its values 0 and 1.
    S,
    /// A leaf.
    L,
}
