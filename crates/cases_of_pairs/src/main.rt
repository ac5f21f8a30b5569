//! Carries out the cases on netlists with their vector files: gradings, checks, and evidence trees.
#![tactic(auto)]

use anyhow::Result;
use case_files::carry_out_files;

fn main(rt: HostRuntime) -> Result<()> {
    carry_out_files(rt)
}
