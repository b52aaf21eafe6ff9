//! Reads the signatures of methods, fields and locals from blobs: Partition II, 23.2.
#![tactic(auto)]

mod cursor;
mod fault;
mod form;
mod read;
mod same;
mod sig;
mod types;

pub use fault::SigFault;
pub use read::{read_field_sig, read_locals_sig, read_method_sig, read_type_sig};
pub use same::{same_sig, same_type};
pub use sig::{Integer, MethodSig, SigLeaf, SigType};
