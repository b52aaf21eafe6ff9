//! Examples of what the loader's definitions say, of heaps, signatures, bodies, images, tables and members: facts alone, in proofs/.
//! Where a comment there tells of a wrong reader, it says what that reader would answer, and the fact holds for no such answer.
#![tactic(auto)]

/// One.
pub fn one() -> u32 {
    1
}
