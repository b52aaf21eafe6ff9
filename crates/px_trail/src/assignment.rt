// Literals in the order in which they were assigned, and what is known of each variable.
ghost use Rattle.std.specs.Prelude.{◌≡◌, ◌≤◌, ◌<◌, ◌+◌, ◌^◌, [], ◌∷◌, ◌++◌, None, length, IfOk};
ghost use Rattle.px_chain.specs.Clause.{variable_of};
ghost use Rattle.px_trail.specs.Assignment.{last_level, truth_of};
ghost use Rattle.px_trail.specs.Trail.{IsAssignment, Step, decisions_of, known_of, literals_of, next_level, reason_in, up_to};

use px_chain::Lit;
use std::alloc::{AllocError, Global};
use std::marker::Model;

/// What is known of a variable that is assigned: its literal that holds, how many decisions stood when it came, a decision counting itself,
/// and the number of the clause that it follows from, if it wasn't decided.
#[derive(Clone, Copy)]
pub struct Known {
    pub literal: Lit,
    pub level: u32,
    pub reason: Option<u64>,
}

/// An assignment, seen as its steps.
#[derive(Drop)]
pub struct PartialAssignment {
    literals: Vec<Lit>,
    // by variable
    table: Vec<Option<Known>>,
    // how many of the literals are decisions
    decided: u32,
}

impl Model for PartialAssignment {
    ghost use Rattle.std.specs.Prelude.{length, vec_capacity};
    ghost use Rattle.px_trail.specs.Assignment.{IsKept, StepsOver, steps_in};

    ghost Value = { StepsOver };

    ghost view = { λ a. record { vars = length a.table.items; steps = steps_in a.table.items a.literals.items } };

    ghost invariant = { λ a. IsKept (vec_capacity a.literals) a.table.items a.literals.items a.decided };
}

impl PartialAssignment {
    /// Nothing is assigned. Room for a step a variable is reserved.
    pub fn new(alloc: Global, vars: u32) -> Result<PartialAssignment, AllocError>
        ensures vars { IfOk result (λ a. a.vars ≡ vars) }
        ensures steps { IfOk result (λ a. a.steps ≡ []) }
    {
        let count = vars as usize;
        Ok(PartialAssignment {
            literals: Vec::with_capacity(alloc, count)?,
            table: vec![in alloc; None; count]?,
            decided: 0,
        })
    }

    /// The literals, in the order in which they came.
    pub fn literals(&self) -> &[Lit]
        ensures literals { result.now ≡ literals_of self.now.steps }
        ensures formed { IsAssignment self.now.vars self.now.steps }
    {
        &self.literals
    }

    /// What is known of a variable.
    pub fn known(&self, variable: u32) -> Option<Known>
        ensures known { result ≡ known_of self.now.steps variable }
        ensures formed { IsAssignment self.now.vars self.now.steps }
    {
        self.table.get(variable as usize).copied().flatten()
    }

    /// Whether a literal was assigned, where its variable was.
    pub fn truth(&self, l: Lit) -> Option<bool>
        ensures truth { result ≡ truth_of self.now.steps l }
        ensures formed { IsAssignment self.now.vars self.now.steps }
    {
        self.known(l / 2).map(|k| k.literal == l)
    }

    /// Assigns a literal whose variable is unassigned: as a decision, or because it follows from a clause.
    pub fn assign(&mut self, literal: Lit, reason: Option<u64>)
        requires over { variable_of literal < self.old.vars }
        requires unassigned { known_of self.old.steps (variable_of literal) ≡ None }
        ensures vars { self.new.vars ≡ self.old.vars }
        ensures steps { self.new.steps ≡ self.old.steps ++ record { literal = literal; reason = reason } ∷ [] }
        ensures formed { IsAssignment self.new.vars self.new.steps }
    {
        let level = next_level(self.decided, reason);
        self.table[(literal / 2) as usize] = Some(Known {
            literal,
            level,
            reason,
        });
        self.literals.push_reserved(literal);
        self.decided = level;
    }

    // Takes back the last step.
    fn undo(&mut self)
        requires { 0 < length (decisions_of self.old.steps) }
        ensures vars { self.new.vars ≡ self.old.vars }
        ensures steps { (s : Step) × (self.old.steps ≡ self.new.steps ++ s ∷ []) }
    {
        if let Some(l) = self.literals.pop() {
            let variable = (l / 2) as usize;
            self.decided = last_level(self.decided, self.table[variable]);
            self.table[variable] = None;
        }
    }

    /// Keeps the first `level` decisions, with what was assigned up to the next one. So many stand.
    pub fn back_to(&mut self, level: u32)
        requires { level ≤ length (decisions_of self.old.steps) }
        ensures vars { self.new.vars ≡ self.old.vars }
        ensures steps { self.new.steps ≡ up_to level self.old.steps }
        ensures decisions { length (decisions_of self.new.steps) ≡ level }
    {
        while self.decided() > level {
            self.undo();
        }
    }

    // How many decisions stand.
    fn decided(&self) -> u32
        ensures { result ≡ length (decisions_of self.now.steps) }
    {
        self.decided
    }
}

// How many decisions stand after a step.
fn next_level(level: u32, reason: Option<u64>) -> u32
    requires { level + 1 < 2 ^ 32 }
    ensures { result ≡ next_level level reason }
{
    if reason.is_none() { level + 1 } else { level }
}

// How many decisions stood before the last step, by what is known of its variable.
fn last_level(level: u32, known: Option<Known>) -> u32
    ensures { result ≡ last_level level (reason_in known) }
{
    match known {
        Some(k) if k.reason.is_some() => level,
        _ => level.saturating_sub(1),
    }
}
