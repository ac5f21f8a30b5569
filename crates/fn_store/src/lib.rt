//! Truth functions, their fixed-polarity Reed-Muller expansions, and the plain store of term lists.
#![tactic(auto)]

mod combine;
mod laws;
mod operations;
mod point;
mod store;
mod term_lists;
mod terms;

pub use combine::sum;
pub use laws::{expansion_law, store_laws};
pub use operations::{Op, replay, replay_law};
pub use store::{FnRef, FnStore, TermsErr};
pub use term_lists::TermLists;
pub use terms::LIST_TERMS;
