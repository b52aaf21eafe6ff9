// A formula that grows by gates.
ghost use Rattle.std.specs.Prelude.{◌≡◌, ◌<◌, ◌^◌, [], ◌∷◌, map, OnErr, OnOk, IfOk};
ghost use Rattle.std.specs.List.{AllByRecursion};
ghost use Rattle.px_chain.specs.Clause.{IsOver};
ghost use Rattle.px_chain.specs.Resolution.{positive};
ghost use Rattle.px_gates.specs.Gate.{IsOfGates, KeepsFormula, base, inputs_of, literals_of, with_clauses, with_gate, with_variable};
ghost use Rattle.px_gates.specs.declared.gate.Gate.TheVariants.{And, Majority, Mux, Xor};

use crate::gate::Gate;
use px_chain::{Cnf, Lit, complement};
use std::alloc::{AllocError, Global};
use std::marker::Model;

/// A formula whose variables are inputs and gates, seen as its variables and clauses. Variable 0 is true, as clause 0 says.
/// Each gate takes the next variable, and appends its clauses as they stand in the table of gates: none is simplified.
/// After want of memory the formula has all that it had before, and maybe some of the clauses that were asked for.
#[derive(Drop)]
pub struct Gates {
    alloc: Global,
    cnf: Cnf,
}

impl Model for Gates {
    ghost use Rattle.px_chain.specs.Clause.{Formula};
    ghost use Rattle.px_gates.specs.Gate.{IsOfGates};

    ghost Value = { Formula };

    ghost view = { λ g. g.cnf };

    ghost invariant = { λ g. IsOfGates g.cnf };
}

impl Gates {
    /// The formula in which variable 0 is true.
    pub fn new(alloc: Global) -> Result<Gates, AllocError>
        ensures { IfOk result (λ gates. gates ≡ base) }
    {
        let mut cnf = Cnf::new(alloc, 1);
        cnf.add(&[0])?;
        Ok(Gates { alloc, cnf })
    }

    /// The literal of a new variable, of which nothing is said.
    pub fn fresh(&mut self) -> Result<Lit, AllocError>
        requires few { self.old.vars < 2 ^ 31 }
        ensures literal { IfOk result (λ z. z ≡ positive self.old.vars) }
        ensures made { OnOk result (self.new ≡ with_variable self.old) }
        ensures kept { OnErr result (self.new ≡ self.old) }
    {
        Ok(self.variable())
    }

    /// The literal of a new gate that holds where both inputs do.
    pub fn and(&mut self, x: Lit, y: Lit) -> Result<Lit, AllocError>
        requires few { self.old.vars < 2 ^ 31 }
        requires over { IsOver self.old.vars (x ∷ y ∷ []) }
        ensures literal { IfOk result (λ z. z ≡ positive self.old.vars) }
        ensures made { OnOk result (self.new ≡ with_gate self.old (And x y)) }
        ensures kept { OnErr result (KeepsFormula self.old self.new) }
    {
        self.gate(Gate::And { x, y })
    }

    /// The literal of a new gate that holds where exactly one input does.
    pub fn xor(&mut self, x: Lit, y: Lit) -> Result<Lit, AllocError>
        requires few { self.old.vars < 2 ^ 31 }
        requires over { IsOver self.old.vars (x ∷ y ∷ []) }
        ensures literal { IfOk result (λ z. z ≡ positive self.old.vars) }
        ensures made { OnOk result (self.new ≡ with_gate self.old (Xor x y)) }
        ensures kept { OnErr result (KeepsFormula self.old self.new) }
    {
        self.gate(Gate::Xor { x, y })
    }

    /// The literal of a new gate that is `x` where `c` holds, and `y` elsewhere.
    pub fn mux(&mut self, c: Lit, x: Lit, y: Lit) -> Result<Lit, AllocError>
        requires few { self.old.vars < 2 ^ 31 }
        requires over { IsOver self.old.vars (c ∷ x ∷ y ∷ []) }
        ensures literal { IfOk result (λ z. z ≡ positive self.old.vars) }
        ensures made { OnOk result (self.new ≡ with_gate self.old (Mux c x y)) }
        ensures kept { OnErr result (KeepsFormula self.old self.new) }
    {
        self.gate(Gate::Mux { choice: c, x, y })
    }

    /// The literal of a new gate that holds where at least two of three inputs do.
    pub fn majority(&mut self, x: Lit, y: Lit, c: Lit) -> Result<Lit, AllocError>
        requires few { self.old.vars < 2 ^ 31 }
        requires over { IsOver self.old.vars (x ∷ y ∷ c ∷ []) }
        ensures literal { IfOk result (λ z. z ≡ positive self.old.vars) }
        ensures made { OnOk result (self.new ≡ with_gate self.old (Majority x y c)) }
        ensures kept { OnErr result (KeepsFormula self.old self.new) }
    {
        self.gate(Gate::Majority { x, y, c })
    }

    /// Says by a clause that a literal holds. Where memory is wanted the formula is as before.
    pub fn require(&mut self, x: Lit) -> Result<(), AllocError>
        requires over { IsOver self.old.vars (x ∷ []) }
        ensures made { OnOk result (self.new ≡ with_clauses self.old ((x ∷ []) ∷ [])) }
        ensures kept { OnErr result (self.new ≡ self.old) }
    {
        self.add(&[x])
    }

    /// The formula.
    pub fn finish(self) -> Cnf
        ensures formula { result ≡ self }
        ensures constant { IsOfGates result }
    {
        self.cnf
    }

    // The allocator of the formula.
    pub(crate) fn allocator(&self) -> Global {
        self.alloc
    }

    // Takes the next variable, and adds the clauses that say that it has the gate's value.
    fn gate(&mut self, gate: Gate) -> Result<Lit, AllocError>
        requires few { self.old.vars < 2 ^ 31 }
        requires over { IsOver self.old.vars (inputs_of gate) }
        ensures literal { IfOk result (λ z. z ≡ positive self.old.vars) }
        ensures made { OnOk result (self.new ≡ with_gate self.old gate) }
        ensures kept { OnErr result (KeepsFormula self.old self.new) }
    {
        let z = self.variable();
        self.define(z, gate)?;
        Ok(z)
    }

    // Takes the next variable.
    fn variable(&mut self) -> Lit
        requires { self.old.vars < 2 ^ 31 }
        ensures literal { result ≡ positive self.old.vars }
        ensures made { self.new ≡ with_variable self.old }
    {
        let next = self.cnf.vars();
        self.cnf.widen(next + 1);
        2 * next
    }

    // Says by clauses that a literal has a gate's value.
    fn define(&mut self, z: Lit, gate: Gate) -> Result<(), AllocError>
        requires own { IsOver self.old.vars (z ∷ []) }
        requires over { IsOver self.old.vars (inputs_of gate) }
        ensures made { OnOk result (self.new ≡ with_clauses self.old (literals_of z gate)) }
        ensures kept { OnErr result (KeepsFormula self.old self.new) }
    {
        let not_z = complement(z);
        match gate {
            Gate::And { x, y } => self.add_all(&[
                &[not_z, x],
                &[not_z, y],
                &[z, complement(x), complement(y)],
            ]),
            Gate::Xor { x, y } => self.add_all(&[
                &[not_z, x, y],
                &[not_z, complement(x), complement(y)],
                &[z, complement(x), y],
                &[z, x, complement(y)],
            ]),
            Gate::Mux { choice, x, y } => self.add_all(&[
                &[complement(choice), complement(x), z],
                &[complement(choice), x, not_z],
                &[choice, complement(y), z],
                &[choice, y, not_z],
            ]),
            Gate::Majority { x, y, c } => self.add_all(&[
                &[complement(x), complement(y), z],
                &[complement(x), complement(c), z],
                &[complement(y), complement(c), z],
                &[x, y, not_z],
                &[x, c, not_z],
                &[y, c, not_z],
            ]),
        }
    }

    // Adds the clauses of these literals, in order.
    fn add_all(&mut self, clauses: &[&[Lit]]) -> Result<(), AllocError>
        requires { AllByRecursion (λ clause. IsOver self.old.vars clause.now) clauses.now }
        ensures made { OnOk result (self.new ≡ with_clauses self.old (map (λ clause. clause.now) clauses.now)) }
        ensures kept { OnErr result (KeepsFormula self.old self.new) }
    {
        for clause in clauses {
            self.add(clause)?;
        }
        Ok(())
    }

    // Adds the clause of these literals. Where memory is wanted the formula is as before.
    fn add(&mut self, clause: &[Lit]) -> Result<(), AllocError>
        requires { IsOver self.old.vars clause.now }
        ensures made { OnOk result (self.new ≡ with_clauses self.old (clause.now ∷ [])) }
        ensures kept { OnErr result (self.new ≡ self.old) }
    {
        self.cnf.add(clause)
    }
}
