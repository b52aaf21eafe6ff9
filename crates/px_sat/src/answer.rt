// What a search comes to.
use px_chain::{Chains, Log};
use sqlite_items::Items;

/// A truth value for each variable.
pub type Assignment = Items<bool>;

/// What a search for an assignment comes to.
#[derive(Drop)]
pub enum Answer {
    /// An assignment that meets every clause.
    Found(Assignment),
    /// Chains that refute the formula: no assignment meets every clause.
    Refutation(Chains),
    /// As many conflicts as the budget allows, each of which was learnt from.
    Spent(Log),
}
