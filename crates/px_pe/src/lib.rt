//! Reads the outer form of an assembly: Partition II, 25.2 and 25.3.
#![tactic(auto)]

mod fault;
mod headers;
mod image;
mod read;
mod section;

pub use fault::{PeFault, PeKind};
pub use image::{Image, read_pe};
pub use section::Span;
