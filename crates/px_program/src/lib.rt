//! A program as it is run, and what a run of it is: plain data, with the definitions that all layers above cite.
#![tactic(auto)]

mod bases;
mod fields;
mod instr;
mod kinds;
mod library;
mod methods;
mod overriding;
mod program;
mod record;
mod same;
mod single;
mod type_table;

pub use instr::{
    Arithmetic, Callee, Check, Checked, Code, Compare, Division, ElementForm, Field, Instr,
    IntegerType, Move, Shift, Test, Text, Unary,
};
pub use kinds::fits_is_preorder;
pub use library::library_types;
pub use methods::MethodTable;
pub use program::{Clause, ClauseKind, Layout, Method, Name, Place, Program, Slot, TypeInfo};
pub use record::{Bounds, End, Event, Limits, Record, Site, SiteKind, Value, Words};
pub use same::is_same_path;
pub use single::alone;
pub use type_table::TypeTable;
