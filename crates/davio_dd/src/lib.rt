//! Hash-consed Davio diagrams: a store of truth functions in which equal functions are one place, and a function grows by a node where
//! its list of terms may double.
#![tactic(auto)]

mod diagram;
mod node;
mod operations;
mod paths;
mod store;

pub use diagram::Davio;
