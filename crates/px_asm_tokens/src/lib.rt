//! The tokens of instructions, and the bodies of methods in the terms of an assembly.
#![tactic(auto)]

mod bodies;
mod tokens;

pub use bodies::push_body;
