//! The top call: what is answered to the words of the command line, its text, and its status.
#![tactic(auto)]

mod put;
mod refusals;
mod stacks;
mod top;

pub use top::{Status, pex_one};
