//! What each instruction makes of a stack of kinds, and its faults.
#![tactic(auto)]

mod checks;
mod effect;
mod fault;
mod leaving;
mod rows;

pub use checks::flow;
pub use fault::{Stop, VerifyKind};
pub use leaving::successors;
