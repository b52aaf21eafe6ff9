// What is learnt from a conflict (Marques-Silva and Sakallah, 1996).
ghost use Rattle.std.specs.Prelude.{◌≡◌, ◌<◌, ◌+◌, ◌^◌, ℕ, [], count_by, IfOk, OnOk};
ghost use Rattle.px_chain.specs.Propagation.{IsGenuine};
ghost use Rattle.px_chain.specs.Resolution.{Derives};
ghost use Rattle.px_trail.specs.Trail.{IsFalseClause, decisions_of};
ghost use Rattle.px_sat.specs.Descent.{WasQuiet};
ghost use Rattle.px_sat.specs.Learning.{IsChain, is_at, is_new};

use px_chain::{Chain, Lit, LogEntry, Resolver, complement};
use px_trail::Trail;
use sqlite_items::Items;
use std::alloc::{AllocError, Global};

/// The chain from a false clause, where nothing was decided, to the empty clause. It resolves on each literal with the clause that its complement
/// follows from, from the last of the trail to the first.
pub fn refute(
    alloc: Global,
    trail: &Trail,
    resolver: &mut Resolver,
    conflict: u64,
) -> Result<Chain, AllocError>
    requires vars { resolver.old.vars ≡ trail.now.vars }
    requires empty { resolver.old.clause ≡ [] }
    requires undecided { decisions_of trail.now.steps ≡ [] }
    requires is_false { IsFalseClause trail.now conflict }
    ensures vars { resolver.new.vars ≡ resolver.old.vars }
    ensures empty { OnOk result (resolver.new.clause ≡ []) }
    ensures derives { IfOk result (Derives trail.now.clauses) }
    ensures empty_claim { IfOk result (λ chain. chain.claim ≡ []) }
{
    let mut rest = Vec::new(alloc);
    resolver.join(trail.clause(conflict))?;
    let mut left = trail.assigned();
    while let Some((x, earlier)) = left.split_last() {
        left = earlier;
        if !resolver.has(complement(*x)) {
            continue;
        }
        let Some(number) = trail.reason(*x / 2) else {
            unreachable!()
        };
        resolver.resolve(*x / 2, trail.clause(number))?;
        rest.push((*x / 2, number))?;
    }
    finish(resolver, conflict, rest)
}

/// The entry of a log for a false clause, after decisions and a last one.
pub fn entry(
    alloc: Global,
    trail: &Trail,
    resolver: &mut Resolver,
    conflict: u64,
    decisions: Vec<Lit>,
    last: Lit,
) -> Result<LogEntry, AllocError>
    requires vars { resolver.old.vars ≡ trail.now.vars }
    requires empty { resolver.old.clause ≡ [] }
    requires is_false { IsFalseClause trail.now conflict }
    requires last { WasQuiet trail.now decisions.items last }
    ensures vars { resolver.new.vars ≡ resolver.old.vars }
    ensures empty { OnOk result (resolver.new.clause ≡ []) }
    ensures genuine { IfOk result (IsGenuine trail.now.vars trail.now.clauses) }
{
    let chain = learn(alloc, trail, resolver, conflict, &decisions)?;
    Ok(LogEntry {
        decisions: Items::from_vec(decisions),
        last,
        chain,
    })
}

// The chain from a false clause to one of which a single literal became false after the last decision: it resolves as `refute` does, up to the first unique
// implication point.
fn learn(
    alloc: Global,
    trail: &Trail,
    resolver: &mut Resolver,
    conflict: u64,
    decisions: &[Lit],
) -> Result<Chain, AllocError>
    requires vars { resolver.old.vars ≡ trail.now.vars }
    requires empty { resolver.old.clause ≡ [] }
    requires is_false { IsFalseClause trail.now conflict }
    requires last { (last : ℕ) × WasQuiet trail.now decisions.now last }
    ensures vars { resolver.new.vars ≡ resolver.old.vars }
    ensures empty { OnOk result (resolver.new.clause ≡ []) }
    ensures genuine { (last : ℕ) → WasQuiet trail.now decisions.now last → IfOk result (λ chain. IsGenuine trail.now.vars trail.now.clauses (record { decisions = decisions.now; last = last; chain = chain })) }
{
    let depth = decisions.len() + 1;
    let mut rest = Vec::new(alloc);
    let mut left = trail.assigned();
    let clause = trail.clause(conflict);
    let mut open = count_new(trail, resolver, clause, depth);
    resolver.join(clause)?;
    while open > 1 {
        let Some((x, earlier)) = left.split_last() else {
            unreachable!()
        };
        left = earlier;
        if !resolver.has(complement(*x)) {
            continue;
        }
        let Some(number) = trail.reason(*x / 2) else {
            unreachable!()
        };
        let reason = trail.clause(number);
        // the literal's complement leaves, and the literal itself, which is new too, doesn't come
        open = open + count_new(trail, resolver, reason, depth) - 2;
        resolver.resolve(*x / 2, reason)?;
        rest.push((*x / 2, number))?;
    }
    finish(resolver, conflict, rest)
}

// How many literals of a clause aren't in the one in the making, and have a variable that came when so many decisions stood.
fn count_new(trail: &Trail, resolver: &Resolver, clause: &[Lit], depth: usize) -> usize
    ensures { result ≡ count_by (is_new trail.now depth resolver.now.clause) clause.now }
{
    clause
        .iter()
        .filter(|l| !resolver.has(**l) && is_at(trail.level(**l / 2), depth))
        .count()
}

// Whether so many decisions stood.
fn is_at(level: Option<u32>, depth: usize) -> bool
    ensures { result ≡ is_at depth level }
{
    match level {
        Some(level) => level as usize == depth,
        None => false,
    }
}

// The chain to the clause that was made.
fn finish(resolver: &mut Resolver, first: u64, rest: Vec<(u32, u64)>) -> Result<Chain, AllocError>
    ensures vars { resolver.new.vars ≡ resolver.old.vars }
    ensures empty { OnOk result (resolver.new.clause ≡ []) }
    ensures chain { IfOk result (IsChain resolver.old.vars first rest.items resolver.old.clause) }
{
    let claim = resolver.take()?;
    Ok(Chain {
        claim: Items::from_vec(claim),
        first,
        rest: Items::from_vec(rest),
    })
}
