//! The methods of a program, from those of an assembly, their bodies, and the numbers of types and methods.
#![tactic(auto)]

mod clauses;
mod codes;
mod fields;
mod met;
mod methods;
mod names;
mod operands;
mod places;
mod slots;

pub use clauses::clause_of;
pub use met::meet_all;
pub use methods::{methods_of, set_of};
