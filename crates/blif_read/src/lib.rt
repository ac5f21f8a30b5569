//! What a BLIF text says (Berkeley Logic Interchange Format), and why one is refused.
#![tactic(auto)]

mod build;
mod declare;
mod draft;
mod fault;
mod laws;
mod net;
mod order;
mod ports;
mod read;
mod seen;
mod source;
mod statement;
mod table;

pub use fault::{BlifErr, BlifFault, NetLimits, PART_GATES};
pub use laws::{said_again, said_law};
pub use read::read_blif;
pub use source::{read_source, source_law};
