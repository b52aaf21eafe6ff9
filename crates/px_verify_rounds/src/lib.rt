//! The typing of a method: the stack that each of its instructions finds.
#![tactic(auto)]

mod offsets;
mod rounds;
mod typing;
mod worklist;

pub use offsets::{end_of, instr_at};
pub use rounds::typing_of;
pub use typing::{Given, Typing};
