//! Which programs are typed, so that no instruction of a run finds another stack than it takes.
#![tactic(auto)]

mod check;
mod clashes;
mod fault;
mod judge;
mod law;
mod numbering;
mod verified;

pub use check::verify;
pub use fault::VerifyFault;
pub use law::{table_is_one, typing_is_sound, verdict_is_one};
pub use verified::Verified;
