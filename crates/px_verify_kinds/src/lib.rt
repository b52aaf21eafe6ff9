//! Kinds of values on a stack, and stacks of them.
#![tactic(auto)]

mod kind;
mod law;
mod stacks;

pub use kind::{Kind, fits_kind, kind_of, merge_kind};
pub use law::merges_settle;
pub use stacks::{Cell, Stack, Stacks};
