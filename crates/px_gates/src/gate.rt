// Gates as values.
use px_chain::Lit;

/// A gate over literals. Its own literal, z below, is that of the next variable, and these clauses, in this order, say that z has the gate's value.
#[derive(Clone, Copy, PartialEq, Eq)]
pub enum Gate {
    /// Both: (¬z x) (¬z y) (z ¬x ¬y).
    And { x: Lit, y: Lit },
    /// Exactly one: (¬z x y) (¬z ¬x ¬y) (z ¬x y) (z x ¬y).
    Xor { x: Lit, y: Lit },
    /// `x` where c, the `choice`, holds, else `y`: (¬c ¬x z) (¬c x ¬z) (c ¬y z) (c y ¬z).
    Mux { choice: Lit, x: Lit, y: Lit },
    /// At least two of three: (¬x ¬y z) (¬x ¬c z) (¬y ¬c z) (x y ¬z) (x c ¬z) (y c ¬z).
    Majority { x: Lit, y: Lit, c: Lit },
}
