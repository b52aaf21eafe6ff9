// A formula's clauses with those that were derived from them.
ghost use Rattle.std.specs.Prelude.{◌≡◌, ◌≤◌, ◌<◌, ◌^◌, [], ◌∷◌, ◌++◌, length, slice_get, Some, OnErr, OnOk, IfSome};
ghost use Rattle.std.specs.Option.{option_copied};
ghost use Rattle.px_chain.specs.Clause.{Ascends, IsFormula, IsOver, clause_of};

use crate::Cnf;
use crate::chain::Lit;
use std::alloc::{AllocError, Global};
use std::marker::Model;

/// A formula, and clauses that were derived from it, which are numbered after its own.
#[derive(Drop)]
pub struct Premises<'a> {
    formula: &'a Cnf,
    derived: Cnf,
}

impl<'a> Model for Premises<'a> {
    ghost use Rattle.std.specs.Prelude.{◌≡◌};
    ghost use Rattle.px_chain.specs.Clause.{Formula};
    ghost use Rattle.px_chain.specs.Premises.{premises_of};

    ghost Value = { Formula };

    ghost view = { λ p. premises_of p.formula.now p.derived };

    ghost invariant = { λ p. p.derived.vars ≡ p.formula.now.vars };
}

impl<'a> Premises<'a> {
    /// The formula's clauses alone.
    pub fn new(alloc: Global, formula: &'a Cnf) -> Premises<'a>
        ensures vars { result.vars ≡ formula.entry.now.vars }
        ensures clauses { result.clauses ≡ formula.entry.now.clauses }
    {
        Premises {
            formula,
            derived: Cnf::new(alloc, formula.vars()),
        }
    }

    /// The number of variables.
    pub fn vars(&self) -> u32
        ensures vars { result ≡ self.now.vars }
        ensures few { result ≤ 2 ^ 31 }
    {
        self.formula.vars()
    }

    /// The number of clauses.
    pub fn len(&self) -> u64
        ensures { result ≡ length self.now.clauses }
    {
        self.formula.clauses() + self.derived.clauses()
    }

    /// The clause of a number below the number of clauses.
    pub fn clause(&self, number: u64) -> &[Lit]
        requires { number < length self.now.clauses }
        ensures clause { slice_get self.now.clauses number ≡ Some result.now }
        ensures ascends { Ascends result.now }
        ensures over { IsOver self.now.vars result.now }
    {
        let own = self.formula.clauses();
        if number < own {
            self.formula.clause(number)
        } else {
            self.derived.clause(number - own)
        }
    }

    /// The clause of a number, if there is one.
    pub fn get(&self, number: u64) -> Option<&[Lit]>
        ensures clause { option_copied result ≡ slice_get self.now.clauses number }
        ensures ascends { IfSome result (λ clause. Ascends clause.now) }
        ensures over { IfSome result (λ clause. IsOver self.now.vars clause.now) }
    {
        if number < self.len() {
            Some(self.clause(number))
        } else {
            None
        }
    }

    /// Adds the clause that has these literals, each over the formula's variables. Where memory is wanted nothing changes.
    pub fn add(&mut self, clause: &[Lit]) -> Result<(), AllocError>
        requires { IsOver self.old.vars clause.now }
        ensures vars { self.new.vars ≡ self.old.vars }
        ensures ok { OnOk result (self.new.clauses ≡ self.old.clauses ++ clause_of clause.now ∷ []) }
        ensures err { OnErr result (self.new.clauses ≡ self.old.clauses) }
    {
        self.derived.add(clause)
    }
}
