//! Operators on machine words, and their values: Partition III, 1.5 (operand kinds and overflow) and 3 (instructions).
#![tactic(auto)]

ghost use Rattle.std.specs.Prelude.{◌≡◌, ◌<◌, ◌^◌};
ghost use Rattle.px_words.specs.Operator.{IsOperator, LieIn, result_width, widths_of};
ghost use Rattle.px_words.specs.Word.{word};

mod arithmetic;
mod division;
mod extension;
mod law;
mod overflow;
mod shift;
mod width;

use arithmetic::{difference, negated, product, sum};
use division::{quotient, remainder, signed_quotient, signed_remainder};
use extension::{sign_extended, zero_extended};
pub use law::{arithmetic_is_exact, extensions_keep_numbers};
use overflow::{
    difference_overflows_signed, product_overflows, product_overflows_signed, sum_overflows,
    sum_overflows_signed,
};
use shift::{shifted_left, shifted_right, shifted_right_signed};
use width::{complement, signed};

/// An operator on words. `wide` is true for words of 64 bits and false for words of 32.
///
/// An operand is a pattern of that width, also the count of a shift, but for those of an extension and the first of `Ite`.
/// The result is a pattern of that width too, but for that of a test and of `Low`, which has 32 bits.
/// Signed operators read a pattern in two's complement. Sections are those of Partition III, as III.3.1.
#[derive(Clone, Copy, PartialEq, Eq)]
pub enum Op {
    /// The pattern itself, which lies in the width.
    Const { wide: bool, pattern: u64 },
    /// The argument word of this number, which no other operand determines.
    Input { wide: bool, word: u32 },
    /// Each bit turned (III.3.52).
    Not { wide: bool },
    /// Bit by bit (III.3.3).
    And { wide: bool },
    /// Bit by bit (III.3.53).
    Or { wide: bool },
    /// Bit by bit (III.3.67).
    Xor { wide: bool },
    /// The sum modulo 2 to the power of the width (III.3.1).
    Add { wide: bool },
    /// The difference modulo 2 to the power of the width (III.3.64).
    Sub { wide: bool },
    /// The difference of 0 and the operand, modulo 2 to the power of the width (III.3.50).
    Neg { wide: bool },
    /// The product modulo 2 to the power of the width (III.3.48).
    Mul { wide: bool },
    /// Shifts left by the second operand modulo the width (III.3.58).
    Shl { wide: bool },
    /// Shifts right by the second operand modulo the width and copies the sign (III.3.59).
    Shr { wide: bool },
    /// Shifts right by the second operand modulo the width and fills with zeros (III.3.60).
    ShrUn { wide: bool },
    /// The unsigned quotient; all ones where the divisor is 0 (III.3.32).
    DivU { wide: bool },
    /// The unsigned remainder; the dividend where the divisor is 0 (III.3.56).
    RemU { wide: bool },
    /// The signed quotient rounded towards 0 (III.3.31). The least number divided by -1 is itself.
    /// Where the divisor is 0 it is all ones, or 1 for a negative dividend.
    DivS { wide: bool },
    /// The remainder of `DivS`, with the sign of the dividend; the dividend where the divisor is 0 (III.3.55).
    RemS { wide: bool },
    /// Whether the operands are equal. Tests give 0 or 1 in 32 bits (III.3.21).
    Eq { wide: bool },
    /// Whether the first operand is less, read unsigned (III.3.26).
    LtU { wide: bool },
    /// Whether the first operand is less, read signed (III.3.25).
    LtS { wide: bool },
    /// Whether the sum leaves the unsigned range of the width (III.3.2).
    AddOvfU { wide: bool },
    /// Whether the difference leaves the unsigned range of the width (III.3.65).
    SubOvfU { wide: bool },
    /// Whether the product leaves the unsigned range of the width (III.3.49).
    MulOvfU { wide: bool },
    /// Whether the sum leaves the signed range of the width (III.3.2).
    AddOvfS { wide: bool },
    /// Whether the difference leaves the signed range of the width (III.3.65).
    SubOvfS { wide: bool },
    /// Whether the product leaves the signed range of the width (III.3.49).
    MulOvfS { wide: bool },
    /// The low `bits` bits with their sign copied (III.3.27); `bits` is from 1 to the width.
    /// The operand has the narrower width in which those bits lie.
    SignExt { wide: bool, bits: u32 },
    /// The low `bits` bits with zeros before them (III.3.27); `bits` is from 1 to the width.
    /// The operand has the narrower width in which those bits lie.
    ZeroExt { wide: bool, bits: u32 },
    /// The low 32 bits of a word of the width (III.3.27).
    Low { wide: bool },
    /// The second operand where bit 0 of the first is 1, else the third. The first is a test, of 32 bits.
    Ite { wide: bool },
}

/// The value of an operator on the patterns of its operands: it reads as many of `a`, `b` and `c`, from the first on,
/// as it has operands. An input has no value here. No memory is taken, and each call answers.
pub fn eval(op: Op, a: u64, b: u64, c: u64) -> u64
    requires operator { IsOperator op }
    requires operands { LieIn (widths_of op) a b c }
    ensures value { result ≡ word op a b c }
    ensures width { result < 2 ^ result_width op }
{
    value_of(op, a, b, c)
}

// The value alone.
#[tactic(auto, unfolding(crate::specs::Word::word))]
fn value_of(op: Op, a: u64, b: u64, c: u64) -> u64
    requires operator { IsOperator op }
    requires operands { LieIn (widths_of op) a b c }
    ensures { result ≡ word op a b c }
{
    match op {
        Op::Const { pattern, .. } => pattern,
        Op::Input { .. } => unreachable!(),
        Op::Not { wide } => complement(wide, a),
        Op::And { .. } => a & b,
        Op::Or { .. } => a | b,
        Op::Xor { .. } => a ^ b,
        Op::Add { wide } => sum(wide, a, b),
        Op::Sub { wide } => difference(wide, a, b),
        Op::Neg { wide } => negated(wide, a),
        Op::Mul { wide } => product(wide, a, b),
        Op::Shl { wide } => shifted_left(wide, a, b),
        Op::Shr { wide } => shifted_right_signed(wide, a, b),
        Op::ShrUn { wide } => shifted_right(wide, a, b),
        Op::DivU { wide } => quotient(wide, a, b),
        Op::RemU { .. } => remainder(a, b),
        Op::DivS { wide } => signed_quotient(wide, a, b),
        Op::RemS { wide } => signed_remainder(wide, a, b),
        Op::Eq { .. } => u64::from(a == b),
        Op::LtU { .. } => u64::from(a < b),
        Op::LtS { wide } => u64::from(signed(wide, a) < signed(wide, b)),
        Op::AddOvfU { wide } => u64::from(sum_overflows(wide, a, b)),
        Op::SubOvfU { .. } => u64::from(a < b),
        Op::MulOvfU { wide } => u64::from(product_overflows(wide, a, b)),
        Op::AddOvfS { wide } => u64::from(sum_overflows_signed(wide, a, b)),
        Op::SubOvfS { wide } => u64::from(difference_overflows_signed(wide, a, b)),
        Op::MulOvfS { wide } => u64::from(product_overflows_signed(wide, a, b)),
        Op::SignExt { wide, bits } => sign_extended(wide, bits, a),
        Op::ZeroExt { bits, .. } => zero_extended(bits, a),
        Op::Low { .. } => zero_extended(32, a),
        Op::Ite { .. } => { if a % 2 == 1 { b } else { c } }
    }
}
