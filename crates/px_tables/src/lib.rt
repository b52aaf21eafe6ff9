//! The tables and heaps of the metadata of an assembly: Partition II, 22 and 24.
#![tactic(auto)]

mod column;
mod counts;
mod fault;
mod header;
mod part;
mod rows;
mod streams;
mod tables;

pub use column::{CodedIndex, Column, Heap, columns};
pub use counts::Counts;
pub use fault::{TableFault, TableKind};
pub use rows::has_indexes_looked_at;
pub use tables::{Row, Tables, read_tables};
