// Division, rounded towards 0. Signed words are divided by their magnitudes.
ghost use Rattle.std.specs.Prelude.{◌≡◌, ◌^◌, ◌<◌};
ghost use Rattle.px_words.specs.Operator.{bits_of};
ghost use Rattle.px_words.specs.Word.{is_negative, magnitude, quotient, remainder, signed_quotient, signed_remainder};

use crate::arithmetic::negated;
use crate::width::{ones, width};

// The unsigned quotient; all ones where the divisor is 0.
pub(crate) fn quotient(wide: bool, a: u64, b: u64) -> u64
    ensures { result ≡ quotient wide a b }
{
    if b == 0 { ones(width(wide)) } else { a / b }
}

// The unsigned remainder; the dividend where the divisor is 0.
pub(crate) fn remainder(a: u64, b: u64) -> u64
    ensures { result ≡ remainder a b }
{
    if b == 0 { a } else { a % b }
}

// The quotient of the magnitudes, negated where the signs differ.
pub(crate) fn signed_quotient(wide: bool, a: u64, b: u64) -> u64
    requires dividend { a < 2 ^ bits_of wide }
    requires divisor { b < 2 ^ bits_of wide }
    ensures { result ≡ signed_quotient wide a b }
{
    let quotient = quotient(wide, magnitude(wide, a), magnitude(wide, b));
    if is_negative(wide, a) != is_negative(wide, b) {
        negated(wide, quotient)
    } else {
        quotient
    }
}

// The remainder of the magnitudes, negated where the dividend is negative.
pub(crate) fn signed_remainder(wide: bool, a: u64, b: u64) -> u64
    requires dividend { a < 2 ^ bits_of wide }
    requires divisor { b < 2 ^ bits_of wide }
    ensures { result ≡ signed_remainder wide a b }
{
    let remainder = remainder(magnitude(wide, a), magnitude(wide, b));
    if is_negative(wide, a) {
        negated(wide, remainder)
    } else {
        remainder
    }
}

// The highest bit is set.
fn is_negative(wide: bool, a: u64) -> bool
    requires { a < 2 ^ bits_of wide }
    ensures { result ≡ is_negative wide a }
{
    a > ones(width(wide) - 1)
}

// The distance from 0, read signed.
fn magnitude(wide: bool, a: u64) -> u64
    requires { a < 2 ^ bits_of wide }
    ensures { result ≡ magnitude wide a }
{
    if is_negative(wide, a) {
        negated(wide, a)
    } else {
        a
    }
}
