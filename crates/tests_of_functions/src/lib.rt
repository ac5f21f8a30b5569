//! Tests of the public calls of the function half of the crates below the command: truth functions, stores, expansions, polarities,
//! cascades, their vectors, lists of cubes, generated tests and whole syntheses. Each is run once with ample memory, and its answer is compared with values that were
//! worked out by hand.
#![tactic(auto)]

#[cfg(test)]
mod cascades;
#[cfg(test)]
mod choices;
#[cfg(test)]
mod esops;
#[cfg(test)]
mod expanded;
#[cfg(test)]
mod expansions;
#[cfg(test)]
mod functions;
#[cfg(test)]
mod generated_tests;
#[cfg(test)]
mod laws;
#[cfg(test)]
mod listed;
#[cfg(test)]
mod polarities;
#[cfg(test)]
mod replays;
#[cfg(test)]
mod stores;
#[cfg(test)]
mod synthesis;
