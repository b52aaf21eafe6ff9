//! Values and lists that several owners share, in any threads; contracts see them as what they hold.
#![tactic(auto)]

mod list;
mod value;

pub use list::SharedList;
pub use value::Shared;
