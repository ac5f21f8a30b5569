//! Reads PLA texts.
#![tactic(auto)]

mod draft;
mod fault;
mod names;
mod read;
mod words;

pub use fault::{PlaErr, PlaFault};
pub use read::read_pla;
