//! Links what was read into a program that can be run.
#![tactic(auto)]

mod entry;
mod fault;
mod law;
mod layout;
mod linked;
mod maker;
mod name;
mod overrides;
mod params;
mod raw;

pub use fault::{LinkFault, RawFault};
pub use law::{reads_one, reads_or_blames};
pub use linked::link;
pub use raw::link_raw;
