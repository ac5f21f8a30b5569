//! The Reddy network: an AND-EXOR cascade with a control input, of expansions at any polarity.
#![tactic(auto)]

mod build;
mod laws;
mod parts;
mod signals;
mod terms;
mod vectors;

pub use build::reddy;
pub use laws::reddy_law;
pub use vectors::{first_vectors, literals_high};
