// Formulas in conjunctive normal form.
ghost use Rattle.std.specs.Prelude.{◌≡◌, ◌≤◌, ◌<◌, ◌*◌, ◌^◌, [], ◌∷◌, ◌++◌, ℕ, ◌↔◌, length, slice_get, IsTrue, Some, OnOk, OnErr};
ghost use Rattle.std.specs.List.{AllByRecursion};
ghost use Rattle.px_chain.specs.Clause.{Ascends, IsFormula, IsOver, clause_of};
ghost use Rattle.px_chain.specs.Store.{Ascend, clauses_between, start_in};

use crate::Lit;
use std::alloc::{AllocError, Global};
use std::marker::Model;

/// A formula: clauses over variables from 0, seen as their number and the list of the clauses. Each clause has its literals ascending, each once.
#[derive(Drop)]
pub struct Cnf {
    vars: u32,
    literals: Vec<Lit>,
    ends: Vec<usize>,
    // a clause in the making
    making: Vec<Lit>,
}

impl Model for Cnf {
    ghost use Rattle.px_chain.specs.Clause.{Formula, IsFormula};
    ghost use Rattle.px_chain.specs.Store.{IsStored, formula_of};

    ghost Value = { Formula };

    ghost view = { λ c. formula_of c.vars c.literals.items c.ends.items };

    ghost invariant = { λ c. IsStored c.vars c.literals.items c.ends.items };
}

impl Cnf {
    /// The formula without clauses over `vars` variables, at most 2^31.
    pub fn new(alloc: Global, vars: u32) -> Cnf
        requires { vars ≤ 2 ^ 31 }
        ensures vars { result.vars ≡ vars }
        ensures clauses { result.clauses ≡ [] }
    {
        Cnf {
            vars,
            literals: Vec::new(alloc),
            ends: Vec::new(alloc),
            making: Vec::new(alloc),
        }
    }

    /// The number of variables: they are those below it.
    pub fn vars(&self) -> u32
        ensures vars { result ≡ self.now.vars }
        ensures few { result ≤ 2 ^ 31 }
        ensures formed { IsFormula self.now }
    {
        self.vars
    }

    /// The number of clauses.
    pub fn clauses(&self) -> u64
        ensures count { result ≡ length self.now.clauses }
        ensures few { result < 2 ^ 63 }
    {
        self.ends.len() as u64
    }

    /// The clause of a number below the number of clauses.
    pub fn clause(&self, n: u64) -> &[Lit]
        requires { n < length self.now.clauses }
        ensures clause { slice_get self.now.clauses n ≡ Some result.now }
        ensures ascends { Ascends result.now }
        ensures over { IsOver self.now.vars result.now }
    {
        part(&self.literals, &self.ends, n as usize)
    }

    /// Sets the number of variables, which isn't fewer than before and at most 2^31.
    pub fn widen(&mut self, vars: u32)
        requires grows { self.old.vars ≤ vars }
        requires limit { vars ≤ 2 ^ 31 }
        ensures vars { self.new.vars ≡ vars }
        ensures clauses { self.new.clauses ≡ self.old.clauses }
    {
        self.vars = vars;
    }

    /// Adds the clause that has these literals, each over the formula's variables. Where memory is wanted the formula is as before.
    pub fn add(&mut self, clause: &[Lit]) -> Result<(), AllocError>
        requires { IsOver self.old.vars clause.now }
        ensures vars { self.new.vars ≡ self.old.vars }
        ensures ok { OnOk result (self.new.clauses ≡ self.old.clauses ++ clause_of clause.now ∷ []) }
        ensures err { OnErr result (self.new.clauses ≡ self.old.clauses) }
    {
        self.making.clear();
        self.making.extend_from_slice(clause)?;
        normalise(&mut self.making);
        self.ends.reserve(1)?;
        self.literals.extend_from_slice(&self.making)?;
        self.ends.push_reserved(self.literals.len());
        Ok(())
    }
}

// Where the clause of a number begins: where the one before it ends.
fn start_of(ends: &[usize], n: usize) -> usize
    requires { n < length ends.now }
    ensures { result ≡ start_in 0 ends.now n }
{
    if n == 0 { 0 } else { ends[n - 1] }
}

// The literals from where a clause begins to where it ends.
fn part<'a>(literals: &'a [Lit], ends: &[usize], n: usize) -> &'a [Lit]
    requires ascend { Ascend 0 literals.now ends.now }
    requires within { n < length ends.now }
    ensures { slice_get (clauses_between literals.now 0 ends.now) n ≡ Some result.now }
{
    let start = start_of(ends, n);
    let end = ends[n];
    &literals[start..end]
}

/// Puts literals in ascending order, each once.
pub fn normalise(literals: &mut Vec<Lit>)
    ensures { literals.new.items ≡ clause_of literals.old.items }
{
    literals.sort_unstable();
    literals.dedup();
}

/// Whether the variables of literals are below a number.
pub fn is_over(vars: u32, literals: &[Lit]) -> bool
    ensures { IsTrue result ↔ IsOver vars literals.now }
{
    literals.iter().all(|l| *l / 2 < vars)
}
