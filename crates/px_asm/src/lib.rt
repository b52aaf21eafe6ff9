//! Writes programs as assemblies from which they are linked again: Partition II, 22 to 25.
#![tactic(auto)]

mod assembly;
mod methods;
mod tables;
mod whole;

pub use assembly::write_assembly;
pub use whole::runs_whole;
