//! How far a run was from the other side of a branch: Xie, Tillmann, de Halleux and Schulte, DSN 2009.
#![tactic(auto)]

mod compare;

pub use compare::{distance, gap, holds, opposite};
pub use px_program::{Compare, Test};
