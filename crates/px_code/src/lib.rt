//! Reads the body of a method from bytes: Partition II, 25.4.
#![tactic(auto)]

mod body;
mod bytes;
mod clause;
mod header;
mod instr;
mod offsets;
mod opcode;
mod read;
mod section;

pub use body::{Body, BodyFault, BodyKind, Operand, RawClause, RawInstr};
pub use read::read_body;
