//! Instructions of programs as assemblies have them: Partition III.
#![tactic(auto)]

mod arrays;
mod flow;
mod instr;
mod moves;
mod numbers;
mod opcode;
mod token;

pub use instr::raw_of;
