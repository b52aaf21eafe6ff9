//! Cases that stand as files, for the programs that run them: what is given, what is expected, and what differs.
#![tactic(auto)]

mod bytes;
mod case;
mod tally;

pub use bytes::{bytes_of, file_of};
pub use case::Case;
pub use tally::Tally;
