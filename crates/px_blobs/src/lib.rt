//! Items of the heaps of an assembly: Partition II, 24.2.3 and 24.2.4. Nothing is copied.
#![tactic(auto)]

mod items;

pub use items::{blob_at, compressed, string_at, user_string_at};
