//! What instructions do that need no token, by their opcodes: Partition III.
#![tactic(auto)]

mod arrays;
mod flow;
mod naming;
mod numbers;
mod opcode;

pub use naming::{opcode_name, outside};
pub use opcode::{code_of, plain_code};
