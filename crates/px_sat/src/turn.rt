// What a turn of the search comes to.
use crate::answer::Assignment;
use px_chain::{Chain, LogEntry};

/// What one way down from no decision comes to.
#[derive(Drop)]
pub enum Turn {
    /// An assignment that meets every clause.
    Met(Assignment),
    /// A conflict without a decision: the chain to the empty clause.
    Refuted(Chain),
    /// A conflict, and what is learnt from it.
    Learnt(LogEntry),
}
