//! Fault simulation: the responses of a network, and the first vector that detects each stuck-at fault.
#![tactic(auto)]

mod alone;
mod bench;
mod cone;
mod held;
mod laws;
mod marks;
mod pass;
mod polynomial;
mod readers;
mod search;
mod simulation;
mod table;
mod words;

pub use laws::detects_law;
pub use simulation::{first_telling, responses};
