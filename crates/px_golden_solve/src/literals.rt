// Literals as the DIMACS format has them: variables count from 1, and a negated one has a minus.
ghost use Rattle.std.specs.Prelude.{◌≤◌, ◌↔◌, IsTrue};
ghost use Rattle.px_chain.specs.Clause.{IsOver};

use crate::transcript::Transcript;
use px_chain::Lit;

/// The number that a word writes, at most a million: that is past all clauses, variables and budgets of the cases.
pub fn number_of(word: &str) -> u32
    ensures { result ≤ 1000000 }
{
    word.parse::<u32>().unwrap_or(u32::MAX).min(1_000_000)
}

/// The literal of a word.
pub fn literal_of(word: &str) -> Lit {
    match word.strip_prefix('-') {
        Some(word) => (2 * number_of(word)).wrapping_sub(1),
        None => (2 * number_of(word)).wrapping_sub(2),
    }
}

/// The literals of a text, up to the 0 that ends a clause.
pub fn literals_of(told: &mut Transcript, text: &str) -> Vec<Lit> {
    let mut literals = Vec::new(told.alloc());
    for word in text.split_whitespace() {
        if word != "0" {
            told.note(literals.push(literal_of(word)).is_ok());
        }
    }
    literals
}

/// Whether the variables of literals are below a number.
pub fn is_over(vars: u32, literals: &[Lit]) -> bool
    ensures { IsTrue result ↔ IsOver vars literals.now }
{
    literals.iter().all(|l| *l / 2 < vars)
}
