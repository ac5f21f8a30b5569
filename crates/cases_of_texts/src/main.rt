//! Carries out the cases on words and on texts: what is taken, and what is refused for which cause.
#![tactic(auto)]

use anyhow::Result;
use case_files::carry_out_files;

fn main(rt: HostRuntime) -> Result<()> {
    carry_out_files(rt)
}
