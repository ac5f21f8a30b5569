//! Networks of gates, stuck-at faults, and what a network answers at a point.
#![tactic(auto)]

mod builder;
mod evaluation;
mod gates;
mod laws;
mod names;
mod net;
mod pins;
mod places;
mod run;
mod source;

pub use builder::NetBuilder;
pub use evaluation::{Values, evaluate};
pub use gates::Cell;
pub use laws::{
    Relation, fault_laws, lead_law, names_law, one_evaluation, one_run, relation_law, run_law,
    valid_law,
};
pub use names::{NetNames, lead, letter_name, numbered_name};
pub use net::{Fault, Gate, Net, Place, Sig};
pub use pins::Pins;
pub use places::{fault_count, faults, is_place};
pub use run::{Scratch, answer, scratch_for};
pub use source::Source;
