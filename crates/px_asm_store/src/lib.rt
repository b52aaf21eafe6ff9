//! The rows that a program has in its assembly, what its places hold there, and the heaps as they grow.
#![tactic(auto)]

mod places;
mod rows;
mod store;

pub use places::{class_token, sig_of, type_of, types_of};
pub use rows::Rows;
pub use store::Store;
