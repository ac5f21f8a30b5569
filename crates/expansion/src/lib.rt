//! Fixed-polarity expansions: lists of terms, one for each output, at one polarity.
#![tactic(auto)]

mod expansion;
mod flipped;
mod functions;
mod laws;
mod limits;
mod used;

pub use expansion::{Expansion, pairs};
pub use flipped::{flip, taken_out};
pub use functions::{ExpandErr, expand};
pub use laws::{even_law, expanded_law};
pub use limits::{LISTS, TERMS};
pub use used::used_inputs;
