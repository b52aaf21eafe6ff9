// What propagation comes to.

/// What propagation comes to.
#[derive(Clone, Copy, PartialEq, Eq)]
pub enum Outcome {
    /// Nothing more follows, and no clause is false.
    Quiet,
    /// All literals of the clause of this number are false. Learnt clauses are numbered after the formula's.
    Conflict(u64),
}
