//! The grading of a netlist and a vector file: how the vectors fare with the network, and which faults that they miss the file proves
//! undetectable.
#![tactic(auto)]

mod evidence;
mod graded;
mod laws;
mod missed;
mod pair;
mod pair_error;
mod report;
mod responses;
mod table;

pub use graded::grade;
pub use laws::grade_law;
pub use pair_error::PairErr;
pub use report::{GradeReport, Mode};
