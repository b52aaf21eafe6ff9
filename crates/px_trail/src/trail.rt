// Decisions, and what follows from them.
ghost use Rattle.std.specs.Prelude.{◌≡◌, ◌≤◌, ◌<◌, ◌^◌, ◌+◌, [], ◌∷◌, ◌++◌, None, Some, length, slice_get, OnErr, OnOk, IfOk, IfSome};
ghost use Rattle.px_chain.specs.Clause.{Ascends, IsOver, clause_of, is_negated, variable_of};
ghost use Rattle.px_trail.specs.Trail.{Explains, GoesOn, IsTrail, decisions_of, level_of, literals_of, reason_of, up_to, value_of};
ghost use Rattle.px_trail.specs.Outcome.{IsOutcome};

use crate::assignment::PartialAssignment;
use crate::outcome::Outcome;
use crate::propagation;
use px_chain::{Cnf, Lit, Premises};
use std::alloc::{AllocError, Global};
use std::marker::Model;

/// The assignment of a search: decisions, and literals that follow from them over a formula and the clauses that were learnt.
#[derive(Drop)]
pub struct Trail<'a> {
    premises: Premises<'a>,
    assignment: PartialAssignment,
}

impl<'a> Model for Trail<'a> {
    ghost use Rattle.std.specs.Prelude.{◌≡◌};
    ghost use Rattle.px_trail.specs.Propagation.{trail_of};
    ghost use Rattle.px_trail.specs.Trail.{IsTrail, View};

    ghost Value = { View };

    ghost view = { λ t. trail_of t.premises t.assignment };

    ghost invariant = { λ t. (t.assignment.vars ≡ t.premises.vars) × IsTrail (trail_of t.premises t.assignment) };
}

impl<'a> Trail<'a> {
    /// Nothing is assigned, and nothing was learnt. Room for the assignment of every variable is reserved.
    pub fn new(alloc: Global, cnf: &'a Cnf) -> Result<Trail<'a>, AllocError>
        ensures vars { IfOk result (λ trail. trail.vars ≡ cnf.entry.now.vars) }
        ensures clauses { IfOk result (λ trail. trail.clauses ≡ cnf.entry.now.clauses) }
        ensures steps { IfOk result (λ trail. trail.steps ≡ []) }
    {
        let assignment = PartialAssignment::new(alloc, cnf.vars())?;
        Ok(Trail {
            premises: Premises::new(alloc, cnf),
            assignment,
        })
    }

    /// The number of variables.
    pub fn vars(&self) -> u32
        ensures vars { result ≡ self.now.vars }
        ensures few { result ≤ 2 ^ 31 }
    {
        self.premises.vars()
    }

    /// The number of clauses, with those that were learnt.
    pub fn clauses(&self) -> u64
        ensures { result ≡ length self.now.clauses }
    {
        self.premises.len()
    }

    /// The clause of a number below the number of clauses. Learnt clauses are numbered after the formula's.
    pub fn clause(&self, n: u64) -> &[Lit]
        requires { n < length self.now.clauses }
        ensures clause { slice_get self.now.clauses n ≡ Some result.now }
        ensures ascends { Ascends result.now }
        ensures over { IsOver self.now.vars result.now }
    {
        self.premises.clause(n)
    }

    /// Assigns a literal whose variable is unassigned, as a decision.
    pub fn decide(&mut self, x: Lit)
        requires over { variable_of x < self.old.vars }
        requires unassigned { value_of self.old.steps (variable_of x) ≡ None }
        ensures vars { self.new.vars ≡ self.old.vars }
        ensures clauses { self.new.clauses ≡ self.old.clauses }
        ensures steps { self.new.steps ≡ self.old.steps ++ record { literal = x; reason = None } ∷ [] }
        ensures decisions { length (decisions_of self.new.steps) ≡ length (decisions_of self.old.steps) + 1 }
    {
        self.assignment.assign(x, None);
    }

    /// Adds a clause over the formula's variables. The assignment stays; where memory is wanted, everything does.
    pub fn learn(&mut self, clause: &[Lit]) -> Result<(), AllocError>
        requires { IsOver self.old.vars clause.now }
        ensures vars { self.new.vars ≡ self.old.vars }
        ensures steps { self.new.steps ≡ self.old.steps }
        ensures ok { OnOk result (self.new.clauses ≡ self.old.clauses ++ clause_of clause.now ∷ []) }
        ensures err { OnErr result (self.new.clauses ≡ self.old.clauses) }
    {
        self.premises.add(clause)
    }

    /// Assigns what follows from the decisions: unit propagation (Davis and Putnam, 1960). Quiet comes exactly where all that follows is assigned without
    /// a conflict; then no clause has all literals but one false and that one unassigned. Conflict names a clause that is false.
    pub fn propagate(&mut self) -> Outcome
        ensures goes_on { GoesOn self.old self.new }
        ensures outcome { IsOutcome self.new result }
    {
        propagation::propagate(&self.premises, &mut self.assignment)
    }

    /// The clause that a variable's literal follows from: it holds the literal, and the complements of its other literals were assigned before.
    /// None comes where the variable is unassigned or was decided.
    pub fn reason(&self, variable: u32) -> Option<u64>
        ensures reason { result ≡ reason_of self.now.steps variable }
        ensures explains { IfSome result (λ number. Explains self.now variable number) }
    {
        self.assignment.known(variable).and_then(|k| k.reason)
    }

    /// A variable's value, if it has one.
    pub fn value(&self, variable: u32) -> Option<bool>
        ensures { result ≡ value_of self.now.steps variable }
    {
        self.assignment
            .known(variable)
            .map(|k| !is_negated(k.literal))
    }

    /// Keeps the first `level` decisions, with what was assigned up to the next one. So many stand.
    pub fn back_to(&mut self, level: u32)
        requires { level ≤ length (decisions_of self.old.steps) }
        ensures vars { self.new.vars ≡ self.old.vars }
        ensures clauses { self.new.clauses ≡ self.old.clauses }
        ensures steps { self.new.steps ≡ up_to level self.old.steps }
        ensures decisions { length (decisions_of self.new.steps) ≡ level }
    {
        self.assignment.back_to(level);
    }

    /// The literals of the assignment, in the order in which they came.
    pub fn assigned(&self) -> &[Lit]
        ensures literals { result.now ≡ literals_of self.now.steps }
        ensures formed { IsTrail self.now }
    {
        self.assignment.literals()
    }

    /// How many decisions stood when a variable came, a decision counting itself. None comes exactly where it is unassigned.
    pub fn level(&self, variable: u32) -> Option<u32>
        ensures { result ≡ level_of self.now.steps variable }
    {
        self.assignment.known(variable).map(|k| k.level)
    }
}

// Whether a literal is a variable's negation.
fn is_negated(l: Lit) -> bool
    ensures { result ≡ is_negated l }
{
    l % 2 == 1
}
