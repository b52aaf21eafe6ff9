//! Explores a verified program.
#![tactic(auto)]

mod explore;

pub use explore::explore_one;
