//! Types and members of an assembly, by their tokens: Partition II, 22.
#![tactic(auto)]

mod chain;
mod fault;
mod known;
mod members;
mod meta;
mod metadata;
mod overriding;
mod owner;
mod signature;
mod table;
mod types;

pub use fault::{MetaFault, MetaKind};
pub use meta::{Member, MetaField, MetaMethod, MetaType};
pub use metadata::{Meta, resolve};
pub use table::{
    FIELDS, MEMBER_REFS, METHODS, TYPE_DEFS, TYPE_REFS, TYPE_SPECS, base_in, cell_of, some_row,
};
