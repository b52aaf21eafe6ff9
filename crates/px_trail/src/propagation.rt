// Unit propagation over all clauses in turn, until nothing changes.
ghost use Rattle.std.specs.Prelude.{◌≡◌, ◌<◌, length};
ghost use Rattle.px_chain.specs.Clause.{IsOver};
ghost use Rattle.px_trail.specs.Outcome.{IsOutcome};
ghost use Rattle.px_trail.specs.Propagation.{Rounds, Shows, Visits, trail_of};
ghost use Rattle.px_trail.specs.Trail.{GoesOn, IsTrail, literals_of};

use crate::assignment::PartialAssignment;
use crate::outcome::Outcome;
use px_chain::{Lit, Premises};

/// What a look at a clause shows.
#[derive(Drop)]
pub enum Found {
    /// All literals are false.
    False,
    /// This literal is unassigned, and all others are false.
    Unit(Lit),
    /// Neither.
    Settled,
}

// Looks at a clause.
fn scan(assignment: &PartialAssignment, clause: &[Lit]) -> Found
    ensures { Shows (literals_of assignment.now.steps) clause.now result }
{
    let mut last = None;
    for l in clause {
        match assignment.truth(*l) {
            Some(true) => return Found::Settled,
            Some(false) => continue,
            None => {}
        }
        match last {
            None => last = Some(*l),
            Some(other) => {
                if other != *l {
                    return Found::Settled;
                }
            }
        }
    }
    match last {
        None => Found::False,
        Some(l) => Found::Unit(l),
    }
}

// Looks at the clause of a number, and assigns the literal that follows.
fn visit(premises: &Premises, assignment: &mut PartialAssignment, number: u64) -> Found
    requires there { number < length premises.now.clauses }
    requires vars { assignment.old.vars ≡ premises.now.vars }
    requires trail { IsTrail (trail_of premises.now assignment.old) }
    ensures goes_on { GoesOn (trail_of premises.now assignment.old) (trail_of premises.now assignment.new) }
    ensures trail { IsTrail (trail_of premises.now assignment.new) }
    ensures found { Visits (trail_of premises.now assignment.old) (trail_of premises.now assignment.new) number result }
{
    let found = scan(assignment, premises.clause(number));
    if let Found::Unit(l) = found {
        assignment.assign(l, Some(number));
    }
    found
}

// Looks at each clause once, until one is false. Answers nothing where a literal was assigned and none is false: then more may follow.
fn round(premises: &Premises, assignment: &mut PartialAssignment) -> Option<Outcome>
    requires vars { assignment.old.vars ≡ premises.now.vars }
    requires trail { IsTrail (trail_of premises.now assignment.old) }
    ensures goes_on { GoesOn (trail_of premises.now assignment.old) (trail_of premises.now assignment.new) }
    ensures trail { IsTrail (trail_of premises.now assignment.new) }
    ensures outcome { Rounds (trail_of premises.now assignment.old) (trail_of premises.now assignment.new) result }
{
    let mut changed = false;
    for number in 0..premises.len() {
        match visit(premises, assignment, number) {
            Found::False => return Some(Outcome::Conflict(number)),
            Found::Unit(_) => changed = true,
            Found::Settled => {}
        }
    }
    if changed { None } else { Some(Outcome::Quiet) }
}

/// Assigns what follows from the decisions.
pub fn propagate(premises: &Premises, assignment: &mut PartialAssignment) -> Outcome
    requires vars { assignment.old.vars ≡ premises.now.vars }
    requires trail { IsTrail (trail_of premises.now assignment.old) }
    ensures goes_on { GoesOn (trail_of premises.now assignment.old) (trail_of premises.now assignment.new) }
    ensures trail { IsTrail (trail_of premises.now assignment.new) }
    ensures outcome { IsOutcome (trail_of premises.now assignment.new) result }
{
    loop {
        if let Some(outcome) = round(premises, assignment) {
            return outcome;
        }
    }
}
