//! Runs the cases that data/INDEX names: formulas and what solving them comes to, logs of conflicts, trails, and gates. It prints each that differs from what its file expects.
#![tactic(auto)]

mod formulas;
mod gates;
mod literals;
mod logs;
mod script;
mod sums;
mod trails;
mod transcript;

use px_cases::{Case, Tally};
use script::run;
use std::alloc::{AllocError, Global};
use std::fs;
use transcript::Transcript;

// Calls the laws, which do nothing.
fn call_laws() {
    px_chain::resolution_is_sound();
    px_chain::refuted_is_unmet();
    px_chain::learnt_clauses_differ();
    px_chain::genuine_logs_are_short();
    px_gates::gate_has_its_value();
    px_gates::circuit_has_one_model();
    px_gates::sum_is_sum();
    px_gates::sum_is_circuit();
    px_gates::spelled_of_append();
    px_gates::spelled_of_complements();
}

// What a case comes to.
fn answer(alloc: Global, given: &str) -> Result<String, AllocError> {
    let mut told = Transcript::new(alloc);
    run(&mut told, given);
    told.finish()
}

// Runs the case of a path, and prints how it differs, if it does.
fn judge(rt: &HostRuntime, path: &str, tally: &mut Tally) -> anyhow::Result<()> {
    let case = Case::read(rt, path)?;
    let got = answer(rt.alloc(), case.given())?;
    Ok(tally.judge(rt, &case, got.as_str())?)
}

// Runs the cases of an index.
fn judge_all(rt: &HostRuntime, index: &str) -> anyhow::Result<()> {
    let mut tally = Tally::new();
    for path in index.lines() {
        judge(rt, path, &mut tally)?;
    }
    Ok(tally.close(rt)?)
}

fn main(rt: HostRuntime) -> anyhow::Result<()> {
    call_laws();
    let index = fs::read_to_string(&rt, "INDEX")?;
    judge_all(&rt, index.as_str())
}
