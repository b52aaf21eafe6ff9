//! The words of the command line: what they ask for, or the first that doesn't fit.
#![tactic(auto)]

mod words;

pub use words::{Asked, Target, read_words};
