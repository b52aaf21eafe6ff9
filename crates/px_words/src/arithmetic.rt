// Arithmetic modulo 2 to the power of the width.
ghost use Rattle.std.specs.Prelude.{◌≡◌, ◌+◌, ◌-◌, ◌*◌, ◌^◌, ◌<◌};
ghost use Rattle.px_words.specs.Operator.{bits_of};
ghost use Rattle.px_words.specs.Word.{negated, wrapped};

use crate::width::wrapped;

// What is left of the sum.
pub(crate) fn sum(wide: bool, a: u64, b: u64) -> u64
    ensures { result ≡ wrapped wide (a + b) }
{
    wrapped(wide, a.wrapping_add(b))
}

// What is left of the difference.
pub(crate) fn difference(wide: bool, a: u64, b: u64) -> u64
    requires { b < 2 ^ bits_of wide }
    ensures { result ≡ wrapped wide ((a + 2 ^ bits_of wide) - b) }
{
    wrapped(wide, a.wrapping_sub(b))
}

// The difference of 0 and the pattern.
pub(crate) fn negated(wide: bool, a: u64) -> u64
    requires { a < 2 ^ bits_of wide }
    ensures { result ≡ negated wide a }
{
    difference(wide, 0, a)
}

// What is left of the product.
pub(crate) fn product(wide: bool, a: u64, b: u64) -> u64
    ensures { result ≡ wrapped wide (a * b) }
{
    wrapped(wide, a.wrapping_mul(b))
}
