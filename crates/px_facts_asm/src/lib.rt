//! Facts of what the definitions of the writer say: images, heaps, bodies, instructions and what an assembly says of a program.
#![tactic(auto)]

/// One.
pub fn one() -> u32 {
    1
}
