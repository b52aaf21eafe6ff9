//! The methods that a program has: all that calls and overriding reach from those that it starts with.
#![tactic(auto)]

mod body;
mod found;
mod known;
mod methods;
mod order;
mod overriding;
mod parents;

pub use body::Whole;
pub use methods::{ReachFault, Reached, reach};
pub use overriding::Overriding;
