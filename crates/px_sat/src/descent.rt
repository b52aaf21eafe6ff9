// The way down from no decision: to a conflict, or to a value for each variable.
ghost use Rattle.std.specs.Prelude.{◌≡◌, ◌<◌, [], ◌∷◌, ◌++◌, None, IfOk};
ghost use Rattle.px_chain.specs.Clause.{variable_of};
ghost use Rattle.px_trail.specs.Trail.{IsQuiet, decisions_of, value_of};
ghost use Rattle.px_sat.specs.Descent.{ComesTo, Decides};

use crate::order::Order;
use px_chain::Lit;
use px_trail::{Outcome, Trail};
use std::alloc::AllocError;

/// Decides the variables in order, each where propagation left it unassigned, up to a conflict or to the last variable. Gives the decisions.
/// There are as many turns as variables.
pub fn descend(
    trail: &mut Trail,
    order: &Order,
    decisions: &mut Vec<Lit>,
) -> Result<Outcome, AllocError>
    requires vars { order.now ≡ trail.old.vars }
    requires undecided { decisions_of trail.old.steps ≡ [] }
    requires empty { decisions.old.items ≡ [] }
    ensures vars { trail.new.vars ≡ trail.old.vars }
    ensures clauses { trail.new.clauses ≡ trail.old.clauses }
    ensures comes_to { IfOk result (ComesTo trail.new decisions.new.items) }
{
    if let Outcome::Conflict(number) = trail.propagate() {
        return Ok(Outcome::Conflict(number));
    }
    for variable in order.variables() {
        if trail.value(*variable).is_some() {
            continue;
        }
        let x = order.literal(*variable);
        if let Outcome::Conflict(number) = decide(trail, x, decisions)? {
            return Ok(Outcome::Conflict(number));
        }
    }
    Ok(Outcome::Quiet)
}

// Decides a literal, and propagates.
fn decide(trail: &mut Trail, x: Lit, decisions: &mut Vec<Lit>) -> Result<Outcome, AllocError>
    requires over { variable_of x < trail.old.vars }
    requires unassigned { value_of trail.old.steps (variable_of x) ≡ None }
    requires quiet { IsQuiet trail.old }
    requires decisions { decisions.old.items ≡ decisions_of trail.old.steps }
    ensures vars { trail.new.vars ≡ trail.old.vars }
    ensures clauses { trail.new.clauses ≡ trail.old.clauses }
    ensures decides { IfOk result (Decides trail.old x trail.new decisions.new.items) }
{
    decisions.push(x)?;
    trail.decide(x);
    Ok(trail.propagate())
}
