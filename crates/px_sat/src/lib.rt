//! Finds an assignment that meets a formula, refutes the formula, or gives a log of genuine conflicts.
#![tactic(auto)]

mod answer;
mod descent;
mod learning;
mod order;
mod solver;
mod turn;

pub use answer::{Answer, Assignment};
pub use solver::solve;
