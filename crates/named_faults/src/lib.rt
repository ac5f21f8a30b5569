//! The stuck-at faults of a network by names, and the undetectable ones as lines of a vector file.
#![tactic(auto)]

mod lines;
mod names;

pub use lines::undetectable_lines;
pub use names::{NamedFault, named, port_names};
