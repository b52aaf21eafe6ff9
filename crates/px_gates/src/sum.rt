// Sums of whole numbers.
ghost use Rattle.std.specs.Prelude.{◌≡◌, ◌≤◌, ◌+◌, ◌*◌, ◌^◌, [], ◌∷◌, length, OnErr, OnOk, IfOk};
ghost use Rattle.px_chain.specs.Clause.{IsOver};
ghost use Rattle.px_chain.specs.Resolution.{positive};
ghost use Rattle.px_gates.specs.Circuit.{with_circuit};
ghost use Rattle.px_gates.specs.Gate.{KeepsFormula};
ghost use Rattle.px_gates.specs.Sum.{sum_bits, sum_carry, sum_circuit};

use crate::gates::Gates;
use px_chain::Lit;
use std::alloc::AllocError;

/// The literals of a sum: its bits, that of lowest weight first, and the carry out of the highest.
#[derive(Drop)]
pub struct Sum {
    pub bits: Vec<Lit>,
    pub carry: Lit,
}

impl Gates {
    /// The sum of two numbers of one width and of a carry, by a full adder a bit. Numbers are literals with that of lowest weight first.
    pub fn sum(&mut self, x: &[Lit], y: &[Lit], carry: Lit) -> Result<Sum, AllocError>
        requires width { length x.now ≡ length y.now }
        requires few { self.old.vars + 3 * length x.now ≤ 2 ^ 31 }
        requires x_over { IsOver self.old.vars x.now }
        requires y_over { IsOver self.old.vars y.now }
        requires carry_over { IsOver self.old.vars (carry ∷ []) }
        ensures bits { IfOk result (λ s. s.bits.items ≡ sum_bits self.old.vars (length x.now)) }
        ensures carry { IfOk result (λ s. s.carry ≡ sum_carry self.old.vars (length x.now) carry) }
        ensures made { OnOk result (self.new ≡ with_circuit self.old (sum_circuit self.old.vars x.now y.now carry)) }
        ensures kept { OnErr result (KeepsFormula self.old self.new) }
    {
        let mut bits = Vec::with_capacity(self.allocator(), x.len())?;
        let mut carry = carry;
        for (x_bit, y_bit) in x.iter().zip(y) {
            let (bit, above) = self.full_adder(*x_bit, *y_bit, carry)?;
            bits.push_reserved(bit);
            carry = above;
        }
        Ok(Sum { bits, carry })
    }

    // The sum of two bits and a carry: a bit, and the carry of the next place.
    fn full_adder(&mut self, x: Lit, y: Lit, carry: Lit) -> Result<(Lit, Lit), AllocError>
        requires few { self.old.vars + 3 ≤ 2 ^ 31 }
        requires over { IsOver self.old.vars (x ∷ y ∷ carry ∷ []) }
        ensures bit { IfOk result (λ r. r.0 ≡ positive (self.old.vars + 1)) }
        ensures carry { IfOk result (λ r. r.1 ≡ positive (self.old.vars + 2)) }
        ensures made { OnOk result (self.new ≡ with_circuit self.old (sum_circuit self.old.vars (x ∷ []) (y ∷ []) carry)) }
        ensures kept { OnErr result (KeepsFormula self.old self.new) }
    {
        let either = self.xor(x, y)?;
        let bit = self.xor(either, carry)?;
        let above = self.majority(x, y, carry)?;
        Ok((bit, above))
    }
}
