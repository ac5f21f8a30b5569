//! The demo: a PLA text that a generator of numbers draws.
#![tactic(auto)]

mod laws;
mod rows;
mod sizes;
mod text;

pub use laws::demo_law;
pub use text::demo_text;
