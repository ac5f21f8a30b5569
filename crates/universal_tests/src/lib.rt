//! The universal vectors of the Reddy form, and the faults that they detect.
#![tactic(auto)]

mod laws;
mod vectors;

pub use laws::universal_law;
pub use vectors::universal;
