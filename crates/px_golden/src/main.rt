//! Runs the command of each case that data/INDEX names, over files in memory. It prints each case that differs from what its file expects.
#![tactic(auto)]

mod outcome;
mod setup;

use anyhow::Context;
use outcome::outcome_of;
use px_cases::{Case, Tally};
use std::fs;

// Runs the case of the file at this path.
fn judge(rt: &HostRuntime, tally: &mut Tally, path: &str) -> anyhow::Result<()> {
    let case = Case::read(rt, path).context(path)?;
    let outcome = outcome_of(rt, &case).context(path)?;
    tally.judge(rt, &case, outcome.as_str())?;
    Ok(())
}

fn main(rt: HostRuntime) -> anyhow::Result<()> {
    let mut tally = Tally::new();
    let index = fs::read_to_string(&rt, "INDEX")?;
    for path in index.lines() {
        judge(&rt, &mut tally, path)?;
    }
    tally.close(&rt)?;
    Ok(())
}
