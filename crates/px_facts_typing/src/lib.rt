//! Typings worked out by hand, as facts of what the definitions say.
#![tactic(auto)]

/// One.
pub fn one() -> u32 {
    1
}
