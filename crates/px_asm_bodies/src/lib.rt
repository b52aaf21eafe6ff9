//! Writes the bodies of methods, so that they are read as they were: Partition II, 25.4.
#![tactic(auto)]

mod body;
mod bytes;
mod clause;
mod code;
mod instr;
mod law;

pub use body::write_body;
pub use law::read_code_is_encodable;
