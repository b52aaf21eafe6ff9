// Random formulas by a fixed rule: clauses of three literals, 17 for each 4 variables, which is where answers are hardest to find.
ghost use Rattle.std.specs.Prelude.{◌≡◌, ◌≤◌, ◌<◌, ◌/◌, IfOk};
ghost use Rattle.px_chain.specs.Clause.{variable_of};

use px_chain::{Cnf, Lit};
use px_sat::{Answer, solve};
use std::alloc::{AllocError, Global};

/// The most variables that are taken.
pub const MOST_VARIABLES: u32 = 1000;

// The most conflicts that a search may have.
const BUDGET: u32 = 1000000;

// A linear congruence (Numerical Recipes): the next number of a row of numbers.
fn next(state: u32) -> u32 {
    state.wrapping_mul(1664525).wrapping_add(1013904223)
}

// A literal over so many variables, by a number.
fn literal(number: u32, variables: u32) -> Lit
    requires some { 0 < variables }
    requires few { variables ≤ MOST_VARIABLES }
    ensures { variable_of result < variables }
{
    2 * (number / 256 % variables) + number / 128 % 2
}

/// The formula over so many variables.
pub fn formula(alloc: Global, variables: u32) -> Result<Cnf, AllocError>
    requires some { 0 < variables }
    requires few { variables ≤ MOST_VARIABLES }
    ensures { IfOk result (λ cnf. cnf.vars ≡ variables) }
{
    let mut cnf = Cnf::new(alloc, variables);
    let mut state = variables;
    for _clause in 0..17 * variables / 4 {
        let first = next(state);
        let second = next(first);
        state = next(second);
        cnf.add(&[
            literal(first, variables),
            literal(second, variables),
            literal(state, variables),
        ])?;
    }
    Ok(cnf)
}

// What an answer is, and how many chains or conflicts it has.
fn told(answer: &Answer) -> (&'static str, u64) {
    match answer {
        Answer::Found(_) => ("found", 0),
        Answer::Refutation(chains) => ("refuted", chains.len() as u64),
        Answer::Spent(log) => ("spent", log.len() as u64),
    }
}

/// What solving the formula over so many variables comes to, and how many chains or conflicts it took.
pub fn solved(alloc: Global, variables: u32) -> Result<(&'static str, u64), AllocError>
    requires some { 0 < variables }
    requires few { variables ≤ MOST_VARIABLES }
{
    let cnf = formula(alloc, variables)?;
    let answer = solve(alloc, &cnf, BUDGET)?;
    Ok(told(&answer))
}
