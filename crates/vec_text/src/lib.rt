//! Vector files: the production tests of a network with every expected response, their text, and its reader.
#![tactic(auto)]

mod draft;
mod fault;
mod file;
mod idle;
mod laws;
mod read;
mod text;
mod words;

pub use fault::{VecErr, VecFault};
pub use file::{EsopLine, Idle, PlaceName, Shown, VecFile, Vector};
pub use laws::{line_law, said_again, said_law};
pub use read::read_vec;
pub use text::{push_form, push_polarity, vec_text};
