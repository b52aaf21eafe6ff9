// The check of logs of genuine conflicts.
ghost use Rattle.std.specs.Prelude.{◌≡◌, ◌≤◌, ◌<◌, ◌*◌, ◌^◌, ◌↔◌, [], ◌∷◌, ◌++◌, ℕ, List, length, IsTrue, OnOk, IfOk, IfErr};
ghost use Rattle.std.specs.List.{AllByRecursion};
ghost use Rattle.px_chain.specs.Clause.{IsOver, clause_of, variable_of};
ghost use Rattle.px_chain.specs.Closure.{Adds, Has, HasFalse, IsClash, IsClosure, IsBeforeConflict, MeetsConflict};
ghost use Rattle.px_chain.specs.Propagation.{HasOneOpen, IsGenuine, IsGenuineLog};
ghost use Rattle.px_chain.specs.Verdict.{BlamesEntry};

use crate::chain::{Lit, Log, LogEntry, LogFault};
use crate::checker::accept;
use crate::cnf::{Cnf, is_over};
use crate::fault::Fault;
use crate::premises::Premises;
use crate::propagation::{Open, complement, is_conflict, is_marked, mark_each, open_in, saturate};
use crate::resolver::Resolver;
use std::alloc::{AllocError, Global};

/// Whether the log is one of genuine conflicts. BadEntry names the first that isn't.
pub fn check_log(alloc: Global, cnf: &Cnf, log: &Log) -> Result<(), LogFault>
    requires { length log.now < 2 ^ 32 }
    ensures genuine { OnOk result (IsGenuineLog cnf.now log.now) }
    ensures bad_entry { IfErr result (BlamesEntry cnf.now log.now) }
{
    let mut premises = Premises::new(alloc, cnf);
    let mut resolver = Resolver::new(alloc, cnf.vars())?;
    let entries = log.as_slice();
    for (number, entry) in entries.iter().enumerate() {
        if !is_genuine(alloc, &mut resolver, &mut premises, entry)? {
            return Err(LogFault::BadEntry {
                entry: number as u32,
            });
        }
    }
    Ok(())
}

// Whether an entry is a genuine conflict over the premises, to which its learnt clause is then added.
fn is_genuine(
    alloc: Global,
    resolver: &mut Resolver,
    premises: &mut Premises,
    entry: &LogEntry,
) -> Result<bool, AllocError>
    requires vars { resolver.old.vars ≡ premises.old.vars }
    requires empty { resolver.old.clause ≡ [] }
    ensures resolver_vars { resolver.new.vars ≡ resolver.old.vars }
    ensures premises_vars { premises.new.vars ≡ premises.old.vars }
    ensures genuine { IfOk result (λ genuine. IsTrue genuine ↔ IsGenuine premises.old.vars premises.old.clauses entry.now) }
    ensures added { IfOk result (λ genuine. IsTrue genuine → premises.new.clauses ≡ premises.old.clauses ++ clause_of entry.now.chain.claim ∷ []) }
    ensures empty { IfOk result (λ genuine. IsTrue genuine → resolver.new.clause ≡ []) }
{
    if !meets_conflict(alloc, premises, entry)? {
        return Ok(false);
    }
    match accept(alloc, resolver, premises, &entry.chain) {
        Ok(()) => Ok(true),
        Err(Fault::Memory) => Err(AllocError),
        Err(Fault::Chain(_)) => Ok(false),
    }
}

// Whether an entry is a genuine conflict, its chain left out.
fn meets_conflict(alloc: Global, premises: &Premises, entry: &LogEntry) -> Result<bool, AllocError>
    ensures { IfOk result (λ meets. IsTrue meets ↔ MeetsConflict premises.now.vars premises.now.clauses entry.now) }
{
    let vars = premises.vars();
    let claim = entry.chain.claim.as_slice();
    let decisions = entry.decisions.as_slice();
    if !is_over(vars, decisions) || entry.last / 2 >= vars || !is_over(vars, claim) {
        return Ok(false);
    }
    let mut marks = closure_of(alloc, premises, decisions)?;
    Ok(clashes(premises, &mut marks, entry))
}

// Whether a set of what follows from an entry's decisions is quiet, and clashes with the last one.
fn clashes(premises: &Premises, marks: &mut [bool], entry: &LogEntry) -> bool
    requires size { length marks.old ≡ 2 * premises.now.vars }
    requires over { variable_of entry.now.last < premises.now.vars }
    requires closure { IsClosure premises.now.clauses entry.now.decisions marks.old }
    ensures { IsTrue result ↔ (IsBeforeConflict premises.now.clauses entry.now × IsClash premises.now.clauses (entry.now.last ∷ entry.now.decisions) entry.now.chain.claim) }
{
    if !is_quiet(premises, marks, entry) {
        return false;
    }
    decide(premises, marks, entry.last);
    is_clash(premises, marks, entry.chain.claim.as_slice())
}

// The literals that follow from decisions.
fn closure_of(
    alloc: Global,
    premises: &Premises,
    decisions: &[Lit],
) -> Result<Vec<bool>, AllocError>
    requires { IsOver premises.now.vars decisions.now }
    ensures size { IfOk result (λ marks. length marks.items ≡ 2 * premises.now.vars) }
    ensures closure { IfOk result (λ marks. IsClosure premises.now.clauses decisions.now marks.items) }
{
    let mut marks = vec![in alloc; false; 2 * premises.vars() as usize]?;
    close(premises, &mut marks, decisions);
    Ok(marks)
}

// Adds a decision, and the literals that follow.
fn decide(premises: &Premises, marks: &mut [bool], last: Lit)
    requires size { length marks.old ≡ 2 * premises.now.vars }
    requires over { variable_of last < premises.now.vars }
    ensures { (given : List ℕ) → IsClosure premises.now.clauses given marks.old → IsClosure premises.now.clauses (last ∷ given) marks.new }
{
    close(premises, marks, &[last]);
}

// Marks literals, and the literals that follow.
fn close(premises: &Premises, marks: &mut [bool], literals: &[Lit])
    requires size { length marks.old ≡ 2 * premises.now.vars }
    requires over { IsOver premises.now.vars literals.now }
    ensures { (given : List ℕ) → Adds premises.now.clauses given marks.old literals.now → IsClosure premises.now.clauses given marks.new }
{
    mark_each(marks, literals);
    saturate(premises, marks);
}

// What is to hold before the last decision.
fn is_quiet(premises: &Premises, marks: &[bool], entry: &LogEntry) -> bool
    requires { length marks.now ≡ 2 * premises.now.vars }
    ensures { IsClosure premises.now.clauses entry.now.decisions marks.now → IsTrue result ↔ IsBeforeConflict premises.now.clauses entry.now }
{
    if is_conflict(premises, marks) {
        return false;
    }
    if !is_open(marks, entry.last) {
        return false;
    }
    has_one_open(marks, entry.chain.claim.as_slice())
}

// Whether neither a literal nor its complement is in the set.
fn is_open(marks: &[bool], l: Lit) -> bool
    ensures { IsTrue result ↔ ((Has marks.now l → ⊥) × (HasFalse marks.now l → ⊥)) }
{
    !is_marked(marks, l) && !is_marked(marks, complement(l))
}

// Whether one literal of a clause is open and every other one false.
fn has_one_open(marks: &[bool], clause: &[Lit]) -> bool
    ensures { (clauses : List (List ℕ)) (given : List ℕ) → IsClosure clauses given marks.now → IsTrue result ↔ HasOneOpen clauses given clause.now }
{
    match open_in(marks, clause) {
        Open::Nothing => false,
        Open::Single(l) => !is_marked(marks, l),
        Open::Several => false,
    }
}

// What is to hold with the last decision.
fn is_clash(premises: &Premises, marks: &[bool], claim: &[Lit]) -> bool
    requires { length marks.now ≡ 2 * premises.now.vars }
    ensures { (given : List ℕ) → IsClosure premises.now.clauses given marks.now → IsTrue result ↔ IsClash premises.now.clauses given claim.now }
{
    is_conflict(premises, marks) && are_false(marks, claim)
}

// Whether every literal of a clause is false.
fn are_false(marks: &[bool], clause: &[Lit]) -> bool
    ensures { IsTrue result ↔ AllByRecursion (HasFalse marks.now) clause.now }
{
    clause.iter().all(|l| is_marked(marks, complement(*l)))
}
