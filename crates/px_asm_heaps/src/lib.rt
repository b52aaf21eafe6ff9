//! Writes what stands in the heaps of metadata, texts, blobs and signatures, so that it is read as it was: Partition II, 23.2, 24.2.3 and 24.2.4.
#![tactic(auto)]

mod compressed;
mod heaps;
mod signatures;
mod types;

pub use heaps::{push_blob, push_string, push_text};
pub use signatures::{field_sig, locals_sig, method_sig, type_sig};
