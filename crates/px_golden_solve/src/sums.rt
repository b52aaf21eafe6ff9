// Sums of constants, by the values that their clauses force.
ghost use Rattle.std.specs.Prelude.{◌≡◌};

use crate::literals::is_over;
use crate::transcript::Transcript;
use px_chain::{Cnf, Lit};
use px_gates::Gates;

// The literals of a number's bits, that of lowest weight first: variable 0 is true.
fn constants(told: &mut Transcript, number: u64, width: u32) -> Vec<Lit> {
    let mut literals = Vec::new(told.alloc());
    for place in 0..width {
        let is_set = number.checked_shr(place).unwrap_or(0) % 2 == 1;
        told.note(literals.push(if is_set { 0 } else { 1 }).is_ok());
    }
    literals
}

// The value of a literal.
fn value(values: &[bool], l: Lit) -> bool {
    values.get(l as usize / 2).copied().unwrap_or(false) != (l % 2 == 1)
}

// Sets the last literal of a clause in which no other one holds.
fn force(values: &mut [bool], clause: &[Lit]) {
    let Some((last, others)) = clause.split_last() else {
        return;
    };
    if others.iter().any(|l| value(values, *l)) {
        return;
    }
    if let Some(place) = values.get_mut(*last as usize / 2) {
        *place = *last % 2 == 0;
    }
}

// The values of all variables, of which none is an input, in the order of the clauses.
fn forced(told: &mut Transcript, cnf: &Cnf) -> Vec<bool> {
    let mut values = Vec::new(told.alloc());
    told.note(values.resize(cnf.vars() as usize, false).is_ok());
    for n in 0..cnf.clauses() {
        force(&mut values, cnf.clause(n));
    }
    values
}

// The number that literals spell, that of lowest weight first, with a carry above them.
fn spelled(values: &[bool], literals: &[Lit], carry: Lit) -> u128 {
    let mut number = u128::from(value(values, carry));
    for l in literals.iter().rev() {
        number = number
            .wrapping_mul(2)
            .wrapping_add(u128::from(value(values, *l)));
    }
    number
}

// Writes the number that a sum comes to, where it takes three variables a bit and has as many bits as its numbers.
fn put_spelled(told: &mut Transcript, cnf: &Cnf, bits: &[Lit], carry: Lit, width: usize) {
    let values = forced(told, cnf);
    if cnf.vars() as usize == width.saturating_mul(3).saturating_add(1) && bits.len() == width {
        told.total("sum", spelled(&values, bits, carry));
    } else {
        told.line("wrong");
    }
}

// Writes the sum of two numbers of constants.
fn put_added(told: &mut Transcript, gates: Gates, x: &[Lit], y: &[Lit], carry: Lit)
    requires { gates.vars ≡ 1 }
{
    let mut gates = gates;
    let fit = is_over(1, x) && is_over(1, y) && is_over(1, &[carry]);
    if !fit || x.len() > 64 || x.len() != y.len() {
        return told.line("nothing to add");
    }
    match gates.sum(x, y, carry) {
        Ok(sum) => put_spelled(told, &gates.finish(), &sum.bits, sum.carry, x.len()),
        Err(_) => told.note(false),
    }
}

// The number that a word writes, and 0 where there is none.
fn number(word: Option<&str>) -> u64 {
    word.and_then(|word| word.parse::<u64>().ok()).unwrap_or(0)
}

/// Writes the sum that a text asks for, as `8 255 1 0`: of so many bits, these numbers, and a carry.
pub fn put_sum(told: &mut Transcript, text: &str) {
    let mut words = text.split_whitespace();
    let width = number(words.next()).min(64) as u32;
    let x = number(words.next());
    let y = number(words.next());
    let carry = if number(words.next()) == 1 { 0 } else { 1 };
    let x = constants(told, x, width);
    let y = constants(told, y, width);
    match Gates::new(told.alloc()) {
        Ok(gates) => put_added(told, gates, &x, &y, carry),
        Err(_) => told.note(false),
    }
}
