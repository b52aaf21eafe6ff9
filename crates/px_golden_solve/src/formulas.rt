// Formulas, and what solving them comes to.
ghost use Rattle.std.specs.Prelude.{◌≤◌};

use crate::literals::{is_over, literals_of, number_of};
use crate::transcript::Transcript;
use px_chain::{Cnf, Lit, check, check_log};
use px_sat::{Answer, solve};
use std::alloc::Global;

// Whether some literal of a clause holds, where values are given from that of the first variable.
fn meets(values: &[bool], clause: &[Lit]) -> bool {
    for l in clause {
        if values.get((*l / 2) as usize).copied() == Some(*l % 2 == 0) {
            return true;
        }
    }
    false
}

// Whether every clause is met.
fn meets_all(values: &[bool], cnf: &Cnf) -> bool {
    for n in 0..cnf.clauses() {
        if !meets(values, cnf.clause(n)) {
            return false;
        }
    }
    true
}

// Whether an answer is what it says: by every clause, or by the checker of refutations or of logs.
fn is_right(alloc: Global, cnf: &Cnf, budget: u32, answer: &Answer) -> bool {
    match answer {
        Answer::Found(values) => {
            values.len() == cnf.vars() as usize && meets_all(values.as_slice(), cnf)
        }
        Answer::Refutation(chains) => {
            chains.len() <= budget as usize
                && chains.len() < 1_000_000
                && check(alloc, cnf, chains).is_ok()
        }
        Answer::Spent(log) => {
            log.len() == budget as usize
                && log.len() < 1_000_000
                && check_log(alloc, cnf, log).is_ok()
        }
    }
}

// Writes what an answer is, or only that it is right.
fn put_answer(told: &mut Transcript, cnf: &Cnf, budget: u32, is_told: bool, answer: &Answer) {
    let is_right = is_right(told.alloc(), cnf, budget, answer);
    match answer {
        _ if !is_right => told.line("wrong"),
        _ if !is_told => told.line("right"),
        Answer::Found(_) => told.line("found"),
        Answer::Refutation(_) => told.line("refuted"),
        Answer::Spent(_) => told.count("spent", u64::from(budget)),
    }
}

/// Solves a formula, and writes what the answer is; or only that it is right.
pub fn put_solved(told: &mut Transcript, cnf: &Cnf, budget: u32, is_told: bool) {
    match solve(told.alloc(), cnf, budget) {
        Ok(answer) => put_answer(told, cnf, budget, is_told, &answer),
        Err(_) => told.note(false),
    }
}

// Adds a clause, unless a variable is past the formula's.
fn add(told: &mut Transcript, cnf: &mut Cnf, line: &str) {
    let clause = literals_of(told, line);
    if is_over(cnf.vars(), &clause) {
        told.note(cnf.add(&clause).is_ok());
    }
}

// Sets the number of variables, where it grows.
fn widen(cnf: &mut Cnf, vars: u32)
    requires { vars ≤ 1000000 }
{
    if cnf.vars() <= vars {
        cnf.widen(vars);
    }
}

// Takes up a line of a formula, if it is one: `p cnf` with the numbers of variables and clauses, or a clause.
fn read(told: &mut Transcript, cnf: &mut Cnf, line: &str) {
    if let Some(counts) = line.strip_prefix("p cnf ") {
        widen(
            cnf,
            number_of(counts.split_once(' ').unwrap_or((counts, "")).0),
        );
    } else if let Some(b'-' | b'0'..=b'9') = line.as_bytes().first() {
        add(told, cnf, line);
    }
}

/// The formula that lines give, among others.
pub fn formula_of(told: &mut Transcript, given: &str) -> Cnf {
    let mut cnf = Cnf::new(told.alloc(), 0);
    for line in given.lines() {
        read(told, &mut cnf, line);
    }
    cnf
}

/// Writes a formula.
pub fn put_formula(told: &mut Transcript, cnf: &Cnf) {
    told.count("variables", u64::from(cnf.vars()));
    for n in 0..cnf.clauses() {
        told.literals("clause", cnf.clause(n));
    }
}
