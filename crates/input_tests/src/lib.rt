//! The vectors of even inputs. With the universal vectors they detect every fault of a Reddy network.
#![tactic(auto)]

mod complete;
mod laws;
mod vectors;

pub use complete::cascade_vectors;
pub use laws::input_law;
pub use vectors::input_vectors;
