//! The tree of the paths that an exploration found, and its sides.
#![tactic(auto)]

mod side;

pub use side::{Side, sides, untaken_sides};
