// Unit propagation by scanning all clauses until nothing changes, over a set of literals by a mark for each.
ghost use Rattle.std.specs.Prelude.{◌≡◌, ◌≢◌, ◌↔◌, ◌≤◌, ◌<◌, ◌+◌, ◌*◌, ◌/◌, ◌^◌, ℕ, [], List, Bool, not, true, false, length, Contains, slice_index_or, IsTrue, ◌||◌, ◌%◌};
ghost use Rattle.std.specs.Bool.{OnFalse, OnTrue};
ghost use Rattle.std.specs.List.{AllByRecursion};
ghost use Rattle.px_chain.specs.Clause.{IsOver, complement, has};
ghost use Rattle.px_chain.specs.Closure.{Has, HasFalse, IsClosedUnder, IsClosure, IsSound, KeepsMarks, CountsOpen, unmarked};
ghost use Rattle.px_chain.specs.Propagation.{IsConflict};

use crate::chain::Lit;
use crate::premises::Premises;

/// The literals of a clause that aren't false.
#[derive(Drop)]
pub enum Open {
    Nothing,
    Single(Lit),
    Several,
}

/// The literal that holds exactly where another doesn't.
pub fn complement(l: Lit) -> Lit
    ensures { result ≡ complement l }
{
    if l % 2 == 1 { l - 1 } else { l + 1 }
}

/// Whether a literal has its mark.
pub fn is_marked(marks: &[bool], l: Lit) -> bool
    ensures { result ≡ slice_index_or marks.now l false }
{
    marks.get(l as usize).copied().unwrap_or(false)
}

/// Marks literals, and answers whether one of them had no mark.
pub fn mark_each(marks: &mut [bool], literals: &[Lit]) -> bool
    requires { AllByRecursion (λ l. l < length marks.old) literals.now }
    ensures marked { (l : ℕ) → slice_index_or marks.new l false ≡ (slice_index_or marks.old l false || has literals.now l) }
    ensures same { OnFalse result (marks.new ≡ marks.old) }
    ensures more { OnTrue result (unmarked marks.new < unmarked marks.old) }
{
    let mut changed = false;
    for l in literals {
        let at = *l as usize;
        if marks[at] {
            continue;
        }
        marks[at] = true;
        changed = true;
    }
    changed
}

/// Which literals of a clause aren't false.
pub fn open_in(marks: &[bool], clause: &[Lit]) -> Open
    ensures { CountsOpen marks.now clause.now result }
{
    let mut found = Open::Nothing;
    for l in clause {
        if is_marked(marks, complement(*l)) {
            continue;
        }
        match found {
            Open::Nothing => found = Open::Single(*l),
            Open::Single(first) => {
                if first != *l {
                    return Open::Several;
                }
            }
            Open::Several => return Open::Several,
        }
    }
    found
}

// Marks what follows from one clause, and answers whether it was marked before.
fn visit(marks: &mut [bool], clause: &[Lit]) -> bool
    requires { IsOver (length marks.old / 2) clause.now }
    ensures keeps { KeepsMarks marks.old marks.new }
    ensures sound { (clauses : List (List ℕ)) (given : List ℕ) → Contains clauses clause.now → IsSound clauses given marks.old → IsSound clauses given marks.new }
    ensures closed { OnFalse result (IsClosedUnder marks.new clause.now) }
    ensures same { OnFalse result (marks.new ≡ marks.old) }
    ensures more { OnTrue result (unmarked marks.new < unmarked marks.old) }
{
    match open_in(marks, clause) {
        Open::Nothing => mark_each(marks, clause),
        Open::Single(l) => mark_each(marks, &[l]),
        Open::Several => false,
    }
}

// Marks what follows from each clause in turn, and answers whether anything changed.
fn round(premises: &Premises, marks: &mut [bool]) -> bool
    requires { length marks.old ≡ 2 * premises.now.vars }
    ensures keeps { KeepsMarks marks.old marks.new }
    ensures sound { (given : List ℕ) → IsSound premises.now.clauses given marks.old → IsSound premises.now.clauses given marks.new }
    ensures closed { OnFalse result (AllByRecursion (IsClosedUnder marks.new) premises.now.clauses) }
    ensures more { OnTrue result (unmarked marks.new < unmarked marks.old) }
{
    let mut changed = false;
    for number in 0..premises.len() {
        if visit(marks, premises.clause(number)) {
            changed = true;
        }
    }
    changed
}

/// Marks all literals that follow from those that are marked.
pub fn saturate(premises: &Premises, marks: &mut [bool])
    requires { length marks.old ≡ 2 * premises.now.vars }
    ensures { (given : List ℕ) → AllByRecursion (Has marks.old) given → IsSound premises.now.clauses given marks.old → IsClosure premises.now.clauses given marks.new }
{
    while round(premises, marks) {}
}

/// Whether the literals that follow hold a conflict.
pub fn is_conflict(premises: &Premises, marks: &[bool]) -> bool
    requires { length marks.now ≡ 2 * premises.now.vars }
    ensures { (given : List ℕ) → IsClosure premises.now.clauses given marks.now → IsTrue result ↔ IsConflict premises.now.clauses given }
{
    has_both(marks) || has_empty(premises)
}

// Whether a literal and its complement are marked.
fn has_both(marks: &[bool]) -> bool
    requires { length marks.now % 2 ≡ 0 }
    ensures { IsTrue result ↔ ((l : ℕ) × Has marks.now l × HasFalse marks.now l) }
{
    for variable in 0..marks.len() / 2 {
        if marks[2 * variable] && marks[2 * variable + 1] {
            return true;
        }
    }
    false
}

// Whether there is an empty clause.
fn has_empty(premises: &Premises) -> bool
    ensures { IsTrue result ↔ Contains premises.now.clauses [] }
{
    for number in 0..premises.len() {
        if premises.clause(number).is_empty() {
            return true;
        }
    }
    false
}
