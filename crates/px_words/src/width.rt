// The two widths of words.
ghost use Rattle.std.specs.Prelude.{◌≡◌, ◌-◌, ◌^◌, ◌<◌, ◌≤◌};
ghost use Rattle.px_words.specs.Operator.{bits_of};
ghost use Rattle.px_words.specs.Word.{signed_of, wrapped};

// The number of bits of the width.
pub(crate) fn width(wide: bool) -> u32
    ensures { result ≡ bits_of wide }
{
    if wide { u64::BITS } else { u32::BITS }
}

// A word whose low bits are 1 and whose others are 0.
pub(crate) fn ones(bits: u32) -> u64
    requires some { 1 ≤ bits }
    requires within { bits ≤ 64 }
    ensures { result ≡ 2 ^ bits - 1 }
{
    u64::MAX >> (u64::BITS - bits)
}

// The bits of a number that lie in the width.
pub(crate) fn wrapped(wide: bool, n: u64) -> u64
    ensures { result ≡ wrapped wide n }
{
    n & ones(width(wide))
}

// Each bit turned.
pub(crate) fn complement(wide: bool, a: u64) -> u64
    requires { a < 2 ^ bits_of wide }
    ensures { result ≡ 2 ^ bits_of wide - 1 - a }
{
    wrapped(wide, !a)
}

// The number that a pattern is, read signed.
pub(crate) fn signed(wide: bool, a: u64) -> i64
    requires { a < 2 ^ bits_of wide }
    ensures { result ≡ signed_of wide a }
{
    if wide {
        a.cast_signed()
    } else {
        i64::from((a as u32).cast_signed())
    }
}
