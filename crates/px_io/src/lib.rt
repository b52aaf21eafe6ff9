//! The outside: where files come from and where text goes, as traits whose contracts count faults.
#![tactic(auto)]

mod memory;
mod piece;
mod real;
mod shelf;
mod sink;
mod word;

pub use memory::{MemShelf, MemSink};
pub use piece::{Piece, put_pieces};
pub use real::{FileShelf, StdSink};
pub use shelf::{FetchCounts, FetchFault, Fetched, Shelf};
pub use sink::{Failed, Sink, Stopped, put_all};
pub use word::Word;
