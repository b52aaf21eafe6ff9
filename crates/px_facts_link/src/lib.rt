//! Facts of what the definitions of the linker say: types, opcodes, tokens, what is reached, methods and whole programs.
#![tactic(auto)]

/// One.
pub fn one() -> u32 {
    1
}
