// A long refutation.
ghost use Rattle.std.specs.Prelude.{◌≡◌, ◌≤◌, ◌+◌, IfOk};

use px_chain::{Chain, Cnf, Lit, check};
use sqlite_items::Items;
use std::alloc::{AllocError, Global};

/// The most steps that are made.
pub const MOST_STEPS: u32 = 1000000;

// The literals that all clauses have, of variables 0 to 7.
const SHARED: [Lit; 8] = [0, 2, 4, 6, 8, 10, 12, 14];

// Clause i has the shared literals, the complement of variable 8 + i, and variable 9 + i, for i up to `steps`.
// Behind them is the complement of each shared literal, variable 8, and the complement of the last variable.
fn formula(alloc: Global, steps: u32) -> Result<Cnf, AllocError>
    requires { steps ≤ MOST_STEPS }
    ensures vars { IfOk result (λ cnf. cnf.vars ≡ steps + 10) }
{
    let mut cnf = Cnf::new(alloc, steps + 10);
    for i in 0..steps + 1 {
        let own = 2 * (8 + i);
        cnf.add(&[0, 2, 4, 6, 8, 10, 12, 14, own + 1, own + 2])?;
    }
    for l in SHARED {
        cnf.add(&[l + 1])?;
    }
    cnf.add(&[16])?;
    cnf.add(&[2 * (steps + 9) + 1])?;
    Ok(cnf)
}

// From clause 0 through all clauses in turn, and then through the units to the empty clause.
fn chain(alloc: Global, steps: u32) -> Result<Chain, AllocError>
    requires { steps ≤ MOST_STEPS }
{
    let mut rest = Items::new(alloc);
    for i in 0..steps {
        rest.push((9 + i, u64::from(i) + 1))?;
    }
    let units = u64::from(steps) + 1;
    for variable in 0..9u32 {
        rest.push((variable, units + u64::from(variable)))?;
    }
    rest.push((steps + 9, units + 9))?;
    Ok(Chain {
        claim: Items::new(alloc),
        first: 0,
        rest,
    })
}

/// Whether the refutation is accepted.
pub fn is_refuted(alloc: Global, steps: u32) -> Result<bool, AllocError>
    requires { steps ≤ MOST_STEPS }
{
    let cnf = formula(alloc, steps)?;
    let mut chains = Items::new(alloc);
    chains.push(chain(alloc, steps)?)?;
    if chains.len() > 1 {
        return Ok(false);
    }
    Ok(check(alloc, &cnf, &chains).is_ok())
}
