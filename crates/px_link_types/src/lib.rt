//! The types of an assembly that a program meets, and their numbers.
#![tactic(auto)]

mod classes;
mod infos;
mod key;
mod library;
mod naming;
mod numbers;
mod own;
mod table;
mod types;

pub use classes::{class_of, is_class, key_of, place_key};
pub use key::{Key, Leaf};
pub use library::{is_system, library_ref, ref_name};
pub use naming::full_name;
pub use numbers::is_integer;
pub use own::{instance_fields, static_fields};
pub use table::text_at;
pub use types::Types;
