//! The rows of types, fields, places and overriding methods that an assembly has of a program.
#![tactic(auto)]

mod fields;
mod overriding;
mod spelled;
mod types;

pub use fields::field_defs;
pub use overriding::impl_rows;
pub use spelled::spec_rows;
pub use types::{type_defs, type_refs};
