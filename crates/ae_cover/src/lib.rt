//! Covers: rows of cubes that say what is specified for each output, and their clashes.
#![tactic(auto)]

mod clash;
mod cover;
mod laws;
mod parts;

pub use cover::{Cover, PLA_ROWS};
pub use laws::{clash_laws, on_law};
pub use parts::{Clash, Kind, Mark, Row};
