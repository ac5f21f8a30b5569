//! Evidence trees: why a stuck-at fault of a network is undetectable, as a short word that anyone can check.
#![tactic(auto)]

mod laws;
mod lines;
mod trees;
mod words;

pub use laws::{evidence_law, found_law};
pub use trees::{Found, evidence};
pub use words::check_tree;

/// The most leaves of an evidence tree that is written.
pub const LEAVES: u32 = 4_096;
