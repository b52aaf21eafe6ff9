//! Scalars of the machine: plain words here, words with terms beside them above, under one trait;
//! and what frames and cells of the heap hold.
#![tactic(auto)]

mod elements;
mod plain;
mod slot;
mod worded;

pub use elements::Widths;
pub use plain::{NoPool, Plain};
pub use slot::Slot;
pub use worded::{Worded, apply_one, apply_three, apply_two, constant};
