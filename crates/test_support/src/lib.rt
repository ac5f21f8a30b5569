//! What the tests of several crates are made of: sets by their members, networks and covers by their texts, and comparisons with the rows
//! of a table. No crate but those of tests uses it.
#![tactic(auto)]

mod nets;
mod sets;
mod texts;

pub use nets::{
    Literals, Table, are_gates, are_names, are_rows, cover_of, names_of, net_of, source_of,
};
pub use sets::{are_sets, polarity, set};
pub use texts::{AND_NET, AND_VECTORS, DONT_CARES, HALF_ADDER};
