//! What an assembly holds that a program is written as, and the law that it says all of the program.
#![tactic(auto)]

mod law;

pub use law::written_describes;
