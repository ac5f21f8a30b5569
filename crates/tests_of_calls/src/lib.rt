//! Tests of the public calls of the lower crates: sets, lines, covers, networks, texts and files. Each is run once with ample memory, and
//! its answer is compared with values that were worked out by hand.
#![tactic(auto)]

#[cfg(test)]
mod covers;
#[cfg(test)]
mod evidence_trees;
#[cfg(test)]
mod held_files;
#[cfg(test)]
mod laws;
#[cfg(test)]
mod netlists;
#[cfg(test)]
mod networks;
#[cfg(test)]
mod placing;
#[cfg(test)]
mod sets;
#[cfg(test)]
mod simulations;
#[cfg(test)]
mod tables;
#[cfg(test)]
mod text_lines;
#[cfg(test)]
mod vector_files;
#[cfg(test)]
mod written_netlists;
