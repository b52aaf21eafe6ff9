//! The check that a verified program is of the form that is run so far, so that no run of it misses an operand.
#![tactic(auto)]

mod accepted;
mod offsets;
mod rows;
mod simple_methods;

pub use accepted::Simple;
pub use offsets::instr_at;
pub use simple_methods::{SimpleFault, simple};
