//! Tests of a network for its stuck-at faults, and exactly the faults that no test detects.
#![tactic(auto)]

mod difference;
mod generator;
mod laws;

pub use generator::{Tests, generate};
pub use laws::{order_law, tests_law};
