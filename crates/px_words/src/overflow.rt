// Whether an exact result leaves the range of the width.
ghost use Rattle.std.specs.Prelude.{◌≡◌, ◌+◌, ◌*◌, ◌^◌, ◌<◌, nat_le, ◌+ℤ◌, ◌-ℤ◌, ◌*ℤ◌, FitsSigned};
ghost use Rattle.std.specs.Int.{w64};
ghost use Rattle.px_words.specs.Operator.{bits_of};
ghost use Rattle.px_words.specs.Word.{is_outside, signed_of};

use crate::width::{ones, signed, width};

// The sum leaves the unsigned range.
pub(crate) fn sum_overflows(wide: bool, a: u64, b: u64) -> bool
    ensures { result ≡ nat_le (2 ^ bits_of wide) (a + b) }
{
    u128::from(a) + u128::from(b) > u128::from(ones(width(wide)))
}

// The product leaves the unsigned range.
pub(crate) fn product_overflows(wide: bool, a: u64, b: u64) -> bool
    ensures { result ≡ nat_le (2 ^ bits_of wide) (a * b) }
{
    u128::from(a) * u128::from(b) > u128::from(ones(width(wide)))
}

// The sum of the patterns, read signed, leaves the signed range.
#[tactic(auto, using(crate::proofs::Widened::kept_results))]
pub(crate) fn sum_overflows_signed(wide: bool, a: u64, b: u64) -> bool
    requires left { a < 2 ^ bits_of wide }
    requires right { b < 2 ^ bits_of wide }
    ensures { result ≡ is_outside wide (signed_of wide a +ℤ signed_of wide b) }
{
    is_outside(wide, widened(wide, a) + widened(wide, b))
}

// The difference of the patterns, read signed, leaves the signed range.
#[tactic(auto, using(crate::proofs::Widened::kept_results))]
pub(crate) fn difference_overflows_signed(wide: bool, a: u64, b: u64) -> bool
    requires left { a < 2 ^ bits_of wide }
    requires right { b < 2 ^ bits_of wide }
    ensures { result ≡ is_outside wide (signed_of wide a -ℤ signed_of wide b) }
{
    is_outside(wide, widened(wide, a) - widened(wide, b))
}

// The product of the patterns, read signed, leaves the signed range.
#[tactic(auto, using(crate::proofs::Widened::kept_results))]
pub(crate) fn product_overflows_signed(wide: bool, a: u64, b: u64) -> bool
    requires left { a < 2 ^ bits_of wide }
    requires right { b < 2 ^ bits_of wide }
    ensures { result ≡ is_outside wide (signed_of wide a *ℤ signed_of wide b) }
{
    is_outside(wide, widened(wide, a) * widened(wide, b))
}

// The number that a pattern is, read signed.
fn widened(wide: bool, a: u64) -> i128
    requires { a < 2 ^ bits_of wide }
    ensures value { result ≡ signed_of wide a }
    ensures range { FitsSigned w64 result }
{
    i128::from(signed(wide, a))
}

// The number lies outside the signed range of the width.
fn is_outside(wide: bool, n: i128) -> bool
    ensures { result ≡ is_outside wide n }
{
    let (least, greatest) = if wide {
        (i128::from(i64::MIN), i128::from(i64::MAX))
    } else {
        (i128::from(i32::MIN), i128::from(i32::MAX))
    };
    n < least || greatest < n
}
