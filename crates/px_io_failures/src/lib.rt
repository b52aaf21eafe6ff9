//! Tests of what no clause says of the outside: fetches that fail, sinks that are full or fail in the middle of a text, and the texts of pieces.
#![tactic(auto)]

#[cfg(test)]
mod shelves;
#[cfg(test)]
mod sinks;
