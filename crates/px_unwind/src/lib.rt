//! Which clauses of a method handle an exception, and which run where a jump leads out of their ranges.
#![tactic(auto)]

mod clauses;

pub use clauses::{exits_of, handler_of};
