// A circuit with each kind of gate.
ghost use Rattle.std.specs.Prelude.{◌≡◌};

use crate::formulas::put_formula;
use crate::transcript::Transcript;
use px_chain::complement;
use px_gates::Gates;
use std::alloc::AllocError;

// Adds an input, and a gate of each kind, a sum and what is required of it: the first variable is true, and its literals are 0 and 1.
fn add_gates(gates: &mut Gates) -> Result<(), AllocError>
    requires { gates.old.vars ≡ 1 }
{
    let x = gates.fresh()?;
    gates.and(x, 0)?;
    gates.xor(x, 1)?;
    gates.mux(x, 0, 1)?;
    gates.majority(x, 0, 1)?;
    gates.sum(&[x], &[0], 1)?;
    gates.require(complement(x))
}

/// Writes the formula of the circuit.
pub fn put_gates(told: &mut Transcript) {
    match Gates::new(told.alloc()) {
        Ok(mut gates) => {
            told.note(add_gates(&mut gates).is_ok());
            put_formula(told, &gates.finish());
        }
        Err(_) => told.note(false),
    }
}
