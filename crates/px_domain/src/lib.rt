//! The argument words that an exploration ranges over, their text and their tuples.
//!
//! A domain has a part for each parameter of a program's entry: the integers of a range, or the arrays of such integers with a length of another range, and
//! perhaps null. An integer is one argument word. An array is a word for its shape and one for each element that it may have: its shape is a number, 0 for
//! null where it may be null, and then one for each length in order. Elements past an array's length have a word too.
#![tactic(auto)]

mod args;
mod cursor;
mod defaults;
mod domain;
mod fault;
mod given;
mod number;
mod place;
mod range;
mod read;
mod times;

pub use defaults::whole;
pub use domain::{Domain, Part};
pub use fault::{ArgsFault, DomainFault};
pub use given::{Given, givens_of};
pub use place::{Span, number_of, whole_of};
pub use range::Range;
pub use read::{read_domain, read_domain_for};
