//! The laws by which a program that is written as an assembly is linked from it again.
#![tactic(auto)]

mod law;

pub use law::{described_is_linked, linked_is_writable};
