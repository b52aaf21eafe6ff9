//! Work whose time is measured by the scripts in bench/:
//! `px_bench chain STEPS` checks a refutation of about so many steps of resolution over clauses of ten literals,
//! `px_bench solve VARIABLES` solves a random formula, and `px_bench dimacs VARIABLES` writes the same formula for other solvers.
#![tactic(auto)]

ghost use Rattle.std.specs.Prelude.{◌≤◌, ◌<◌};

mod chain;
mod random;

use px_chain::Lit;
use random::MOST_VARIABLES;
use std::{env, io};

// A literal as the DIMACS format has it: variables count from 1.
fn put_literal(rt: &HostRuntime, l: Lit) -> io::Result<()> {
    let variable = u64::from(l / 2) + 1;
    if l % 2 == 1 {
        print!(rt; "-{variable} ")
    } else {
        print!(rt; "{variable} ")
    }
}

// Writes a random formula in the DIMACS format.
fn put_formula(rt: &HostRuntime, variables: u32) -> io::Result<()>
    requires some { 0 < variables }
    requires few { variables ≤ MOST_VARIABLES }
{
    let cnf = random::formula(rt.alloc(), variables)?;
    println!(rt; "p cnf {variables} {}", cnf.clauses())?;
    for number in 0..cnf.clauses() {
        for l in cnf.clause(number) {
            put_literal(rt, *l)?;
        }
        println!(rt; "0")?;
    }
    Ok(())
}

fn main(rt: HostRuntime) -> io::Result<()> {
    let mut args = env::args(&rt)?.skip(1);
    let Some(work) = args.next() else {
        return println!(rt; "what work?");
    };
    let count = match args.next() {
        Some(word) => word.as_str().parse::<u32>().unwrap_or(0),
        None => 0,
    };
    let variables = count.clamp(1, MOST_VARIABLES);
    match work.as_str() {
        "chain" => {
            let refuted = chain::is_refuted(rt.alloc(), count.min(chain::MOST_STEPS))?;
            println!(rt; "chain {count} {refuted}")
        }
        "solve" => {
            let (answer, count) = random::solved(rt.alloc(), variables)?;
            println!(rt; "solve {variables} {answer} {count}")
        }
        "dimacs" => put_formula(&rt, variables),
        _ => println!(rt; "what work?"),
    }
}
