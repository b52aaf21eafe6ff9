// Resolution by a table of marks: a step takes time by the clause that it resolves with, and not by the clause that it resolves.
ghost use Rattle.std.specs.Prelude.{◌≡◌, ◌≢◌, ◌≤◌, ◌<◌, ◌*◌, ◌^◌, ℕ, [], ◌++◌, true, false, length, slice_index_or, IfOk, IfSome, OnOk, IsTrue};
ghost use Rattle.std.specs.List.{AllByRecursion};
ghost use Rattle.px_chain.specs.Clause.{IsOver, clause_of, has};
ghost use Rattle.px_chain.specs.Marks.{IsMarked, Resolves, Unmarks, marked, pivot_of};
ghost use Rattle.px_chain.specs.Resolution.{joined, resolvent};

use crate::chain::Lit;
use crate::cnf::normalise;
use std::alloc::{AllocError, Global};
use std::marker::Model;

/// A clause in the making, by a mark for each of its literals.
#[derive(Drop)]
pub struct Resolver {
    vars: u32,
    marks: Vec<bool>,
    // every literal that is marked, and some that were
    touched: Vec<Lit>,
}

impl Model for Resolver {
    ghost use Rattle.px_chain.specs.Marks.{Marked, IsMarked, marked_of};

    ghost Value = { Marked };

    ghost view = { λ r. marked_of r.vars r.marks.items };

    ghost invariant = { λ r. IsMarked r.vars r.marks.items r.touched.items };
}

impl Resolver {
    /// The empty clause.
    pub fn new(alloc: Global, vars: u32) -> Result<Resolver, AllocError>
        requires { vars ≤ 2 ^ 31 }
        ensures vars { IfOk result (λ r. r.vars ≡ vars) }
        ensures clause { IfOk result (λ r. r.clause ≡ []) }
    {
        Ok(Resolver {
            vars,
            marks: vec![in alloc; false; 2 * vars as usize]?,
            touched: Vec::new(alloc),
        })
    }

    /// Adds a clause's literals.
    pub fn join(&mut self, clause: &[Lit]) -> Result<(), AllocError>
        requires { IsOver self.old.vars clause.now }
        ensures vars { self.new.vars ≡ self.old.vars }
        ensures clause { OnOk result (self.new.clause ≡ clause_of (self.old.clause ++ clause.now)) }
    {
        mark(&mut self.marks, &mut self.touched, clause)
    }

    /// Resolves on a variable with a clause, and answers whether they resolve.
    pub fn resolve(&mut self, variable: u32, clause: &[Lit]) -> Result<bool, AllocError>
        requires { IsOver self.old.vars clause.now }
        ensures vars { self.new.vars ≡ self.old.vars }
        ensures resolves { IfOk result (λ found. Resolves (resolvent self.old.clause variable clause.now) found self.new.clause) }
    {
        let Some((own, other)) = self.pivot(variable, clause) else {
            return Ok(false);
        };
        self.replace(own, other, clause)?;
        Ok(true)
    }

    // The literals on which the clause resolves with another.
    fn pivot(&self, variable: u32, clause: &[Lit]) -> Option<(Lit, Lit)>
        ensures pivot { result ≡ pivot_of self.now.clause variable clause.now }
        ensures within { IfSome result (λ p. (p.0 < 2 * self.now.vars) × (p.1 < 2 * self.now.vars)) }
    {
        let Some(positive) = variable.checked_mul(2) else {
            return None;
        };
        let negative = positive + 1;
        if self.has(positive) && clause.contains(&negative) {
            return Some((positive, negative));
        }
        if self.has(negative) && clause.contains(&positive) {
            return Some((negative, positive));
        }
        None
    }

    /// Whether the clause has a literal.
    pub fn has(&self, l: Lit) -> bool
        ensures has { result ≡ has self.now.clause l }
        ensures within { IsTrue result → l < 2 * self.now.vars }
    {
        is_marked(&self.marks, l)
    }

    // Takes out a literal, and joins a clause but for its complement.
    fn replace(&mut self, own: Lit, other: Lit, clause: &[Lit]) -> Result<(), AllocError>
        requires own { own < 2 * self.old.vars }
        requires other { other < 2 * self.old.vars }
        requires apart { own ≢ other }
        requires over { IsOver self.old.vars clause.now }
        ensures vars { self.new.vars ≡ self.old.vars }
        ensures joined { OnOk result (self.new.clause ≡ joined self.old.clause own clause.now other) }
    {
        let had = self.marks[other as usize];
        self.marks[own as usize] = false;
        mark(&mut self.marks, &mut self.touched, clause)?;
        self.marks[other as usize] = had;
        Ok(())
    }

    /// Takes the clause, and leaves the empty one.
    pub fn take(&mut self) -> Result<Vec<Lit>, AllocError>
        ensures vars { self.new.vars ≡ self.old.vars }
        ensures clause { IfOk result (λ v. v.items ≡ self.old.clause) }
        ensures over { IfOk result (λ v. IsOver self.old.vars v.items) }
        ensures empty { OnOk result (self.new.clause ≡ []) }
    {
        let mut clause = Vec::new(*self.touched.allocator());
        unmark(&mut self.marks, &self.touched, &mut clause)?;
        self.touched.clear();
        normalise(&mut clause);
        Ok(clause)
    }
}

// Whether a literal has its mark.
fn is_marked(marks: &[bool], l: Lit) -> bool
    ensures { result ≡ slice_index_or marks.now l false }
{
    marks.get(l as usize).copied().unwrap_or(false)
}

// Marks a clause's literals.
fn mark(marks: &mut [bool], touched: &mut Vec<Lit>, clause: &[Lit]) -> Result<(), AllocError>
    requires { AllByRecursion (λ l. l < length marks.old) clause.now }
    ensures ok { OnOk result (marked marks.new ≡ clause_of (marked marks.old ++ clause.now)) }
    ensures listed { (vars : ℕ) → IsMarked vars marks.old touched.old.items → IsMarked vars marks.new touched.new.items }
{
    for l in clause {
        let at = *l as usize;
        if marks[at] {
            continue;
        }
        touched.push(*l)?;
        marks[at] = true;
    }
    Ok(())
}

// Takes the marks of some literals away, and puts out those that were marked.
fn unmark(marks: &mut [bool], literals: &[Lit], out: &mut Vec<Lit>) -> Result<(), AllocError>
    requires { AllByRecursion (λ l. l < length marks.old) literals.now }
    ensures ok { OnOk result (Unmarks marks.old marks.new literals.now out.old.items out.new.items) }
    ensures listed { (vars : ℕ) → IsMarked vars marks.old literals.now → IsMarked vars marks.new literals.now }
{
    for l in literals {
        let at = *l as usize;
        if !marks[at] {
            continue;
        }
        out.push(*l)?;
        marks[at] = false;
    }
    Ok(())
}
