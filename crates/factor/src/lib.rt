//! Factored networks of ESOPs: sums of products of literals and inner sums.
#![tactic(auto)]

mod build;
mod laws;
mod literals;
mod outputs;
mod parts;
mod sums;

pub use build::factored;
pub use laws::{count_law, factored_law, sum_law};
