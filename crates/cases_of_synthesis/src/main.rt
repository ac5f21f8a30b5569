//! Carries out the cases on syntheses: networks, vectors, polarities, and states after refused calls.
#![tactic(auto)]

use anyhow::Result;
use case_files::carry_out_files;

fn main(rt: HostRuntime) -> Result<()> {
    carry_out_files(rt)
}
