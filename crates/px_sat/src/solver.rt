// The search.
ghost use Rattle.std.specs.Prelude.{◌≡◌, ◌≤◌, ◌^◌, [], ◌∷◌, ◌++◌, IfOk, OnOk};
ghost use Rattle.px_chain.specs.Clause.{IsFormula, IsOver, clause_of};
ghost use Rattle.px_trail.specs.Trail.{decisions_of};
ghost use Rattle.px_sat.specs.Answer.{IsSpent, Settles};
ghost use Rattle.px_sat.specs.Search.{AreValues, chains_of, formula_over};
ghost use Rattle.px_sat.specs.Turn.{TurnsTo};

use crate::answer::Answer;
use crate::descent::descend;
use crate::learning::{entry, refute};
use crate::order::Order;
use crate::turn::Turn;
use px_chain::{Chain, Chains, Cnf, LogEntry, Resolver};
use px_trail::{Outcome, Trail};
use sqlite_items::Items;
use std::alloc::{AllocError, Global};

/// Looks for an assignment that meets every clause, by conflict-driven clause learning (Marques-Silva and Sakallah, 1996), with at most `budget` conflicts.
/// It always returns: each turn but the last spends one conflict of the budget. Spent comes exactly where the log has `budget` conflicts, at once where
/// the budget is 0, and never where the budget is 3 to the power of the variables or more.
pub fn solve(alloc: Global, cnf: &Cnf, budget: u32) -> Result<Answer, AllocError>
    ensures settles { IfOk result (Settles cnf.now budget) }
    ensures at_once { IfOk result (λ answer. budget ≡ 0 → IsSpent answer) }
    ensures enough { IfOk result (λ answer. 3 ^ cnf.now.vars ≤ budget → IsSpent answer → ⊥) }
{
    let mut trail = Trail::new(alloc, cnf)?;
    let mut order = Order::new(alloc, cnf.vars())?;
    let mut resolver = Resolver::new(alloc, cnf.vars())?;
    search(alloc, budget, &mut trail, &mut order, &mut resolver)
}

// Searches from a trail on which nothing is assigned.
fn search(
    alloc: Global,
    budget: u32,
    trail: &mut Trail,
    order: &mut Order,
    resolver: &mut Resolver,
) -> Result<Answer, AllocError>
    requires formed { IsFormula (formula_over trail.old) }
    requires unassigned { trail.old.steps ≡ [] }
    requires order { order.old ≡ trail.old.vars }
    requires vars { resolver.old.vars ≡ trail.old.vars }
    requires empty { resolver.old.clause ≡ [] }
    ensures settles { IfOk result (Settles (formula_over trail.old) budget) }
    ensures at_once { IfOk result (λ answer. budget ≡ 0 → IsSpent answer) }
    ensures enough { IfOk result (λ answer. 3 ^ trail.old.vars ≤ budget → IsSpent answer → ⊥) }
{
    let mut log = Vec::new(alloc);
    for conflict in 0..budget {
        match turn(alloc, trail, order, resolver)? {
            Turn::Met(values) => return Ok(Answer::Found(values)),
            Turn::Refuted(chain) => {
                return Ok(Answer::Refutation(refutation(alloc, log, chain)?));
            }
            Turn::Learnt(entry) => {
                take_up(trail, order, &entry, conflict + 1)?;
                log.push(entry)?;
            }
        }
    }
    Ok(Answer::Spent(Items::from_vec(log)))
}

// Goes down from no decision, and learns from the conflict that it comes to.
fn turn(
    alloc: Global,
    trail: &mut Trail,
    order: &Order,
    resolver: &mut Resolver,
) -> Result<Turn, AllocError>
    requires order { order.now ≡ trail.old.vars }
    requires undecided { decisions_of trail.old.steps ≡ [] }
    requires vars { resolver.old.vars ≡ trail.old.vars }
    requires empty { resolver.old.clause ≡ [] }
    ensures vars { trail.new.vars ≡ trail.old.vars }
    ensures clauses { trail.new.clauses ≡ trail.old.clauses }
    ensures resolver_vars { resolver.new.vars ≡ resolver.old.vars }
    ensures empty { OnOk result (resolver.new.clause ≡ []) }
    ensures turns_to { IfOk result (TurnsTo trail.new) }
{
    let mut decisions = Vec::new(alloc);
    let outcome = descend(trail, order, &mut decisions)?;
    let Outcome::Conflict(conflict) = outcome else {
        let values = values(alloc, trail)?;
        return Ok(Turn::Met(Items::from_vec(values)));
    };
    let Some(last) = decisions.pop() else {
        let chain = refute(alloc, trail, resolver, conflict)?;
        return Ok(Turn::Refuted(chain));
    };
    let entry = entry(alloc, trail, resolver, conflict, decisions, last)?;
    Ok(Turn::Learnt(entry))
}

// Takes up what an entry learns, and goes back to no decision.
fn take_up(
    trail: &mut Trail,
    order: &mut Order,
    entry: &LogEntry,
    conflict: u32,
) -> Result<(), AllocError>
    requires { IsOver trail.old.vars entry.now.chain.claim }
    ensures vars { trail.new.vars ≡ trail.old.vars }
    ensures clauses { OnOk result (trail.new.clauses ≡ trail.old.clauses ++ clause_of entry.now.chain.claim ∷ []) }
    ensures undecided { OnOk result (decisions_of trail.new.steps ≡ []) }
    ensures order { order.new ≡ order.old }
{
    trail.learn(entry.chain.claim.as_slice())?;
    order.keep_signs(trail.assigned());
    order.favour(&entry.chain, conflict)?;
    trail.back_to(0);
    Ok(())
}

// The values of the variables, false where a variable has none.
fn values(alloc: Global, trail: &Trail) -> Result<Vec<bool>, AllocError>
    ensures { IfOk result (λ values. AreValues trail.now values.items) }
{
    let mut values = Vec::new(alloc);
    for variable in 0..trail.vars() {
        values.push(trail.value(variable).unwrap_or(false))?;
    }
    Ok(values)
}

// The chains of a log, and a last one.
fn refutation(alloc: Global, log: Vec<LogEntry>, last: Chain) -> Result<Chains, AllocError>
    ensures { IfOk result (λ chains. chains ≡ chains_of log.items ++ last ∷ []) }
{
    let mut chains: Vec<Chain> = log.into_iter().map(|entry| chain_of(entry)).collect(alloc)?;
    chains.push(last)?;
    Ok(Items::from_vec(chains))
}

// The chain of an entry.
fn chain_of(entry: LogEntry) -> Chain
    ensures { result ≡ entry.chain }
{
    let LogEntry {
        decisions: _,
        last: _,
        chain,
    } = entry;
    chain
}
