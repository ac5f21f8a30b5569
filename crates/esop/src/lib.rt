//! Exclusive sums of products (ESOPs): from expansions, and rewritten until they are settled.
#![tactic(auto)]

mod esop;
mod laws;
mod links;
mod near;
mod pairs;
mod rewriting;
mod step;
mod terms;

pub use esop::Esop;
pub use laws::{esop_law, link_law, pairs_law, rewriting_law};
pub use rewriting::exorlink;
pub use terms::from_expansion;
