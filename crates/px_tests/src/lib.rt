//! The report of an exploration: what it promises, and its text.
#![tactic(auto)]

mod domains;
mod ends;
mod findings;
mod lines;
mod report;

pub use findings::{Findings, Input};
pub use report::write_report;
