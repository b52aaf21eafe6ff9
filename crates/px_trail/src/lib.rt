//! The trail of a search for an assignment, and unit propagation over it.
#![tactic(auto)]

mod assignment;
mod outcome;
mod propagation;
mod trail;

pub use outcome::Outcome;
pub use trail::Trail;
