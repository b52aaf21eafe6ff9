// Trails: decisions, what follows from them, and what is known of a variable.
ghost use Rattle.std.specs.Prelude.{◌≡◌, length};
ghost use Rattle.px_trail.specs.Trail.{decisions_of};

use crate::literals::{is_over, literals_of};
use crate::transcript::Transcript;
use px_chain::Lit;
use px_trail::{Outcome, Trail};

/// Decides a literal after so many decisions, unless its variable is past the formula's or has a value. Gives how many decisions stand.
pub fn decide(trail: &mut Trail, depth: u32, x: Lit) -> u32
    requires { depth ≡ length (decisions_of trail.old.steps) }
    ensures { result ≡ length (decisions_of trail.new.steps) }
{
    if depth == u32::MAX || x / 2 >= trail.vars() || trail.value(x / 2).is_some() {
        return depth;
    }
    trail.decide(x);
    depth + 1
}

/// Keeps so many decisions, where so many stand. Gives how many do.
pub fn go_back(told: &mut Transcript, trail: &mut Trail, depth: u32, level: u32) -> u32
    requires { depth ≡ length (decisions_of trail.old.steps) }
    ensures { result ≡ length (decisions_of trail.new.steps) }
{
    if depth < level {
        return depth;
    }
    trail.back_to(level);
    told.literals("assigned", trail.assigned());
    level
}

// Whether every literal of the clause of a number is false.
fn is_false(trail: &Trail, number: u64) -> bool {
    if trail.clauses() <= number {
        return false;
    }
    for l in trail.clause(number) {
        if trail.value(*l / 2) != Some(*l % 2 == 1) {
            return false;
        }
    }
    true
}

/// Propagates, and writes what it comes to: a conflict only where the clause that it names is false.
pub fn propagate(told: &mut Transcript, trail: &mut Trail)
    ensures { decisions_of trail.new.steps ≡ decisions_of trail.old.steps }
{
    match trail.propagate() {
        Outcome::Quiet => told.literals("quiet", trail.assigned()),
        Outcome::Conflict(number) => {
            told.line(if is_false(trail, number) {
                "conflict"
            } else {
                "wrong"
            });
        }
    }
}

/// Learns a clause over the formula's variables.
pub fn learn(told: &mut Transcript, trail: &mut Trail, text: &str)
    ensures { decisions_of trail.new.steps ≡ decisions_of trail.old.steps }
{
    let clause = literals_of(told, text);
    if is_over(trail.vars(), &clause) {
        told.note(trail.learn(&clause).is_ok());
    }
}

/// Writes what is known of a variable.
pub fn put_known(told: &mut Transcript, trail: &Trail, variable: u32) {
    match trail.value(variable) {
        Some(true) => told.line("true"),
        Some(false) => told.line("false"),
        None => told.line("unassigned"),
    }
    if let Some(level) = trail.level(variable) {
        told.count("level", u64::from(level));
    }
    if let Some(number) = trail.reason(variable) {
        told.count("by clause", number);
    }
}
