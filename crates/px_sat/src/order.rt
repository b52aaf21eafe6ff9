// Which variable is decided next, and with which sign.
ghost use Rattle.std.specs.Prelude.{◌≡◌, ◌≤◌, ◌<◌, ◌^◌, IfOk};
ghost use Rattle.px_chain.specs.Clause.{variable_of};
ghost use Rattle.px_sat.specs.Order.{HasAllBelow};

use px_chain::{Chain, Lit};
use std::alloc::{AllocError, Global};
use std::marker::Model;

/// All variables below a number, seen as that number. They are decided in order: first those that had a part in the latest conflict, then those of the one
/// before it, and so on; others keep the order they had, which is at first the order of their numbers. A variable is decided with the sign that it had
/// last, at first negated.
#[derive(Drop)]
pub struct Order {
    vars: u32,
    variables: Vec<u32>,
    // by variable: the number of the latest conflict that it had a part in
    latest: Vec<u32>,
    // by variable: whether its literal was positive when it was assigned last
    positive: Vec<bool>,
}

impl Model for Order {
    ghost use Rattle.std.specs.Prelude.{ℕ};
    ghost use Rattle.px_sat.specs.Order.{IsOrder};

    ghost Value = { ℕ };

    ghost view = { λ o. o.vars };

    ghost invariant = { λ o. IsOrder o.vars o.variables.items };
}

impl Order {
    /// The variables below a number, at most 2^31, in the order of their numbers.
    pub fn new(alloc: Global, vars: u32) -> Result<Order, AllocError>
        requires { vars ≤ 2 ^ 31 }
        ensures { IfOk result (λ order. order ≡ vars) }
    {
        let mut variables = Vec::new(alloc);
        for variable in 0..vars {
            variables.push(variable)?;
        }
        let count = vars as usize;
        Ok(Order {
            vars,
            variables,
            latest: vec![in alloc; 0; count]?,
            positive: vec![in alloc; false; count]?,
        })
    }

    /// The variables, in order.
    pub fn variables(&self) -> &[u32]
        ensures all { HasAllBelow self.now result.now }
        ensures few { self.now ≤ 2 ^ 31 }
    {
        &self.variables
    }

    /// The literal with which a variable is decided.
    pub fn literal(&self, variable: u32) -> Lit
        requires { variable < 2 ^ 31 }
        ensures { variable_of result ≡ variable }
    {
        let positive = self.positive.get(variable as usize).copied();
        if positive.unwrap_or(false) {
            2 * variable
        } else {
            2 * variable + 1
        }
    }

    /// Keeps the signs of literals that are assigned.
    pub fn keep_signs(&mut self, assigned: &[Lit])
        ensures { self.new ≡ self.old }
    {
        note_signs(&mut self.positive, assigned);
    }

    /// Puts the variables that had a part in a conflict first, by the chain of what was learnt from it. Conflicts are numbered from 1.
    pub fn favour(&mut self, chain: &Chain, conflict: u32) -> Result<(), AllocError>
        ensures { self.new ≡ self.old }
    {
        note_chain(&mut self.latest, chain, conflict);
        let latest = &self.latest;
        self.variables
            .sort_by_key(|variable| u32::MAX - number_of(latest, *variable))
    }
}

// The number of the latest conflict that a variable had a part in, 0 where it had a part in none.
fn number_of(latest: &[u32], variable: u32) -> u32 {
    latest.get(variable as usize).copied().unwrap_or(0)
}

// Notes the signs of literals.
fn note_signs(positive: &mut [bool], literals: &[Lit]) {
    for l in literals {
        if let Some(sign) = positive.get_mut((*l / 2) as usize) {
            *sign = *l % 2 == 0;
        }
    }
}

// Notes that the variables of a chain's claim, and those that it resolves on, had a part in a conflict.
fn note_chain(latest: &mut [u32], chain: &Chain, conflict: u32) {
    for l in chain.claim.as_slice() {
        note(latest, *l / 2, conflict);
    }
    for (variable, _) in chain.rest.as_slice() {
        note(latest, *variable, conflict);
    }
}

// Notes that a variable had a part in a conflict.
fn note(latest: &mut [u32], variable: u32, conflict: u32) {
    if let Some(number) = latest.get_mut(variable as usize) {
        *number = conflict;
    }
}
