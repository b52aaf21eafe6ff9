// Cases as scripts.
ghost use Rattle.std.specs.Prelude.{◌≡◌, length};
ghost use Rattle.px_trail.specs.Trail.{decisions_of};

use crate::formulas::{formula_of, put_formula, put_solved};
use crate::gates::put_gates;
use crate::literals::{literal_of, number_of};
use crate::logs::{entry_of, put_checked};
use crate::sums::put_sum;
use crate::trails::{decide, go_back, learn, propagate, put_known};
use crate::transcript::Transcript;
use px_chain::{Cnf, Log};
use px_trail::Trail;
use sqlite_items::Items;

// Does what a line asks for about a formula or a log.
fn tell(told: &mut Transcript, cnf: &Cnf, log: &mut Log, key: &str, rest: &str) {
    match key {
        "solve" => put_solved(told, cnf, number_of(rest), true),
        "within" => put_solved(told, cnf, number_of(rest), false),
        "conflict" => {
            let entry = entry_of(told, rest);
            told.note(log.push(entry).is_ok());
        }
        "check" => put_checked(told, cnf, log),
        "show" => put_formula(told, cnf),
        "gates" => put_gates(told),
        "sum" => put_sum(told, rest),
        _ => {}
    }
}

// Does what a line asks for about a trail on which so many decisions stand, and gives how many stand then.
fn walk(told: &mut Transcript, trail: &mut Trail, depth: u32, key: &str, rest: &str) -> u32
    requires { depth ≡ length (decisions_of trail.old.steps) }
    ensures { result ≡ length (decisions_of trail.new.steps) }
{
    match key {
        "decide" => return decide(trail, depth, literal_of(rest)),
        "back" => return go_back(told, trail, depth, number_of(rest)),
        "propagate" => propagate(told, trail),
        "learn" => learn(told, trail, rest),
        "known" => put_known(told, trail, literal_of(rest) / 2),
        _ => {}
    }
    depth
}

// Runs lines over a formula, on a trail without decisions.
fn run_lines(told: &mut Transcript, cnf: &Cnf, trail: &mut Trail, given: &str)
    requires { length (decisions_of trail.old.steps) ≡ 0 }
{
    let mut log = Items::new(told.alloc());
    let mut depth = 0;
    for line in given.lines() {
        let (key, rest) = line.split_once(' ').unwrap_or((line, ""));
        tell(told, cnf, &mut log, key, rest);
        depth = walk(told, trail, depth, key, rest);
    }
}

// Runs lines over a formula.
fn run_over(told: &mut Transcript, cnf: &Cnf, given: &str) {
    match Trail::new(told.alloc(), cnf) {
        Ok(mut trail) => run_lines(told, cnf, &mut trail, given),
        Err(_) => told.note(false),
    }
}

/// Runs the lines of a case over the formula that is given among them:
///
/// - `p cnf`, and clauses, as the DIMACS format has them
/// - `show`: writes the formula; `gates`: writes one of each kind of gate
/// - `sum`, a width in bits, two numbers and a carry: writes the number that their sum spells
/// - `solve` and a budget: writes what the answer is; `within` and a budget: writes that it is right, whichever it is
/// - `conflict`, decisions, `then`, the last one, `by` and a chain: an entry of the log; `check`: writes what the log is
/// - `decide` and a literal; `propagate`; `back`, and how many decisions are kept; `learn` and a clause; `known` and a variable
pub fn run(told: &mut Transcript, given: &str) {
    let cnf = formula_of(told, given);
    run_over(told, &cnf, given);
}
