//! The functions of covers, of networks and of expansions, in any store of functions.
#![tactic(auto)]

mod covers;
mod cubes;
mod expansions;
mod faulty;
mod joins;
mod laws;
mod nets;
mod products;
mod sources;

pub use covers::cover_values;
pub use cubes::{some_cube, some_product};
pub use expansions::expansion_values;
pub use faulty::faulty_values;
pub use laws::kept_law;
pub use nets::{net_values, port_values, signal_values};
pub use products::input;
pub use sources::source_values;
