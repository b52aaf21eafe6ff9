// The check of refutations.
ghost use Rattle.std.specs.Prelude.{◌≡◌, ◌≢◌, ◌-◌, Some, ◌≤◌, ◌<◌, ◌^◌, [], ◌∷◌, ◌++◌, ℕ, List, Ok, length, true, slice_get, OnErr, OnOk, IfOk, IfErr};
ghost use Rattle.px_chain.specs.Clause.{Valuation, MeetsAll, IsOver, clause_of};
ghost use Rattle.px_chain.specs.Fault.{IsBlamed, IsFaultOf, blamed};
ghost use Rattle.px_chain.specs.Resolution.{Derives, Refutes, derived, fault_of, step_with};
ghost use Rattle.px_chain.specs.Verdict.{Blames, last_claim};

use crate::chain::{Chain, ChainFault, Chains, Lit, Refuted, Why};
use crate::cnf::{Cnf, normalise};
use crate::fault::Fault;
use crate::premises::Premises;
use crate::resolver::Resolver;
use sqlite_items::Items;
use std::alloc::Global;

/// Whether the chains refute the formula. BadStep names the first chain that fails.
pub fn check(alloc: Global, cnf: &Cnf, chains: &Chains) -> Result<Refuted, ChainFault>
    requires { length chains.now < 2 ^ 32 }
    ensures refutes { OnOk result (Refutes cnf.now.clauses chains.now) }
    ensures unmet { OnOk result ((a : Valuation) → MeetsAll a cnf.now.clauses → ⊥) }
    ensures bad_step { IfErr result (Blames cnf.now.clauses chains.now) }
{
    let mut premises = Premises::new(alloc, cnf);
    let mut resolver = Resolver::new(alloc, cnf.vars())?;
    let chains = chains.as_slice();
    for (step, chain) in chains.iter().enumerate() {
        match accept(alloc, &mut resolver, &mut premises, chain) {
            Ok(()) => {}
            Err(fault) => return Err(blame(step as u32, fault)),
        }
    }
    conclude(chains)
}

// What the last claim says, where every chain comes to its claim.
fn conclude(chains: &[Chain]) -> Result<Refuted, ChainFault>
    requires { length chains.now < 2 ^ 32 }
    ensures empty { OnOk result (last_claim chains.now ≡ Some []) }
    ensures fault { IfErr result (λ fault. fault ≡ ChainFault.BadStep (length chains.now - 1) Why.NotEmpty) }
    ensures not_empty { OnErr result (last_claim chains.now ≢ Some []) }
{
    let mut step = 0;
    if let Some(last) = chains.last() {
        if last.claim.is_empty() {
            return Ok(Refuted);
        }
        step = chains.len() as u32 - 1;
    }
    Err(ChainFault::BadStep {
        step,
        why: Why::NotEmpty,
    })
}

// A fault with the number of its chain.
fn blame(step: u32, fault: Fault) -> ChainFault
    ensures { result ≡ blamed step fault }
{
    match fault {
        Fault::Memory => ChainFault::Memory,
        Fault::Chain(why) => ChainFault::BadStep { step, why },
    }
}

/// Resolves a chain over the premises, compares what comes with the claim, and adds the claim to the premises.
pub fn accept(
    alloc: Global,
    resolver: &mut Resolver,
    premises: &mut Premises,
    chain: &Chain,
) -> Result<(), Fault>
    requires vars { resolver.old.vars ≡ premises.old.vars }
    requires empty { resolver.old.clause ≡ [] }
    ensures resolver_vars { resolver.new.vars ≡ resolver.old.vars }
    ensures premises_vars { premises.new.vars ≡ premises.old.vars }
    ensures empty { OnOk result (resolver.new.clause ≡ []) }
    ensures derives { OnOk result (Derives premises.old.clauses chain.now) }
    ensures added { OnOk result (premises.new.clauses ≡ premises.old.clauses ++ clause_of chain.now.claim ∷ []) }
    ensures fault { IfErr result (IsBlamed (fault_of premises.old.clauses chain.now)) }
{
    let resolved = derive(resolver, premises, chain)?;
    let mut claimed = Vec::from_slice(alloc, chain.claim.as_slice())?;
    normalise(&mut claimed);
    if resolved.as_slice() != claimed.as_slice() {
        return Err(Fault::Chain(Why::Claim {
            claimed: Items::from_vec(claimed),
            resolved: Items::from_vec(resolved),
        }));
    }
    premises.add(&claimed)?;
    Ok(())
}

// What a chain resolves to over the premises.
fn derive(resolver: &mut Resolver, premises: &Premises, chain: &Chain) -> Result<Vec<Lit>, Fault>
    requires vars { resolver.old.vars ≡ premises.now.vars }
    requires empty { resolver.old.clause ≡ [] }
    ensures vars { resolver.new.vars ≡ resolver.old.vars }
    ensures empty { OnOk result (resolver.new.clause ≡ []) }
    ensures derived { IfOk result (λ v. derived premises.now.clauses chain.now ≡ Ok v.items) }
    ensures over { IfOk result (λ v. IsOver premises.now.vars v.items) }
    ensures fault { IfErr result (IsFaultOf (derived premises.now.clauses chain.now)) }
{
    let Some(first) = premises.get(chain.first) else {
        return Err(Fault::Chain(Why::NoClause(chain.first)));
    };
    resolver.join(first)?;
    for (variable, number) in chain.rest.as_slice() {
        resolve(resolver, premises, *variable, *number)?;
    }
    let resolved = resolver.take()?;
    Ok(resolved)
}

// Resolves on a variable with the premise of a number.
fn resolve(
    resolver: &mut Resolver,
    premises: &Premises,
    variable: u32,
    number: u64,
) -> Result<(), Fault>
    requires { resolver.old.vars ≡ premises.now.vars }
    ensures vars { resolver.new.vars ≡ resolver.old.vars }
    ensures resolved { OnOk result (step_with resolver.old.clause variable number (slice_get premises.now.clauses number) ≡ Ok resolver.new.clause) }
    ensures fault { IfErr result (IsFaultOf (step_with resolver.old.clause variable number (slice_get premises.now.clauses number))) }
{
    let Some(clause) = premises.get(number) else {
        return Err(Fault::Chain(Why::NoClause(number)));
    };
    if resolver.resolve(variable, clause)? {
        Ok(())
    } else {
        Err(Fault::Chain(Why::NoPivot(variable)))
    }
}
