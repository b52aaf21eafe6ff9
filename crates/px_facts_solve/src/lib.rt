//! Formulas, refutations, gates and trails worked out by hand, as facts of what the definitions of px_chain, px_gates, px_trail and px_sat say.
#![tactic(auto)]

/// One.
pub fn one() -> u32 {
    1
}
