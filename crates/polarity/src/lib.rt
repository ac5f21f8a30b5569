//! A polarity of few terms: settling, and the choice among proposals.
#![tactic(auto)]

mod advisor;
mod asking;
mod entry;
mod generator;
mod laws;
mod listed;
mod log;
mod maker;
mod negative;
mod settled;
mod walker;

pub use advisor::Advisor;
pub use asking::choose;
pub use entry::{Entry, Told};
pub use generator::Generator;
pub use laws::{choice_law, cost_law};
pub use listed::Listed;
pub use maker::Maker;
pub use negative::Negative;
pub use settled::settle;
pub use walker::Walker;
