//! Runs a verified program on argument words: Partition III. One table of instructions is read with plain words, or with words
//! that have more beside them.
#![tactic(auto)]

mod machine;
mod plain_run;
mod rows;
mod stack;

pub use machine::{Seen, Traced, trace};
pub use plain_run::{run, same_shape};
