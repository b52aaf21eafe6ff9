//! What the bytes of a file give: a report of a method, or why it isn't explored.
#![tactic(auto)]

mod answer;
mod form;
mod method;
mod raw;

pub use answer::{Answer, Refusal, answer_of};
