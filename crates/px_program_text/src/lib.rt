//! Programs as text, a line for each type, method and instruction, for programs that compare what was linked.
#![tactic(auto)]

mod codes;
mod mnemonics;
mod out;
mod programs;
mod words;

pub use out::Out;
pub use programs::{put_numbers, put_program, text_of};
pub use words::integer_word;
