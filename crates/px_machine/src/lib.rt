//! What a run is made of: entries of stacks, frames and states, and the table of steps in any algebra of scalars. Definitions, and the data that they are about.
#![tactic(auto)]

mod entry;

pub use entry::{Cause, Choice, Entry, NumberKind};
