//! What the tokens of instructions name in an assembly: Partition II, 22, and Partition III, 1.9.
#![tactic(auto)]

mod callees;
mod checks;
mod constructors;
mod elements;
mod fields;
mod initialisers;
mod integers;
mod known;
mod member;
mod methods;
mod names;
mod operand;
mod owned;
mod references;
mod rows;
mod scopes;
mod texts;
mod tokens;

pub use operand::Operand;
pub use owned::is_void;
pub use tokens::Tokens;
