// Shifts by a count modulo the width.
ghost use Rattle.std.specs.Prelude.{◌≡◌, ◌*◌, ◌/◌, ◌%◌, ◌^◌, ◌<◌, pos};
ghost use Rattle.std.specs.Int.{cast_unsigned, int_div_euclid};
ghost use Rattle.px_words.specs.Operator.{bits_of};
ghost use Rattle.px_words.specs.Word.{signed_of, width_of, wrapped};

use crate::width::{signed, width, wrapped};

// The count of a shift.
fn count(wide: bool, b: u64) -> u64
    ensures { result ≡ b % bits_of wide }
{
    b % u64::from(width(wide))
}

// Fills with zeros from the right.
pub(crate) fn shifted_left(wide: bool, a: u64, b: u64) -> u64
    ensures { result ≡ wrapped wide (a * 2 ^ (b % bits_of wide)) }
{
    wrapped(wide, a << count(wide, b))
}

// Copies the sign from the left.
pub(crate) fn shifted_right_signed(wide: bool, a: u64, b: u64) -> u64
    requires { a < 2 ^ bits_of wide }
    ensures { result ≡ cast_unsigned (width_of wide) (int_div_euclid (signed_of wide a) (pos (2 ^ (b % bits_of wide)))) }
{
    wrapped(wide, (signed(wide, a) >> count(wide, b)).cast_unsigned())
}

// Fills with zeros from the left.
pub(crate) fn shifted_right(wide: bool, a: u64, b: u64) -> u64
    ensures { result ≡ a / 2 ^ (b % bits_of wide) }
{
    a >> count(wide, b)
}
