//! Circuits over literals: gates that take variables of a formula and say their values by clauses (Tseitin, 1968), and sums of whole numbers.
#![tactic(auto)]

mod gate;
mod gates;
mod laws;
mod sum;

pub use gate::Gate;
pub use gates::Gates;
pub use laws::{
    circuit_has_one_model, gate_has_its_value, spelled_of_append, spelled_of_complements,
    sum_is_circuit, sum_is_sum,
};
pub use sum::Sum;
