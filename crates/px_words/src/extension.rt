// Extensions of the low bits of a word.
ghost use Rattle.std.specs.Prelude.{◌≡◌, ◌%◌, ◌^◌, ◌≤◌};
ghost use Rattle.px_words.specs.Operator.{bits_of};
ghost use Rattle.px_words.specs.Word.{sign_extended};

use crate::width::{ones, width};

// Zeros before the low bits.
pub(crate) fn zero_extended(bits: u32, a: u64) -> u64
    requires some { 1 ≤ bits }
    requires within { bits ≤ 64 }
    ensures { result ≡ a % 2 ^ bits }
{
    a & ones(bits)
}

// Copies of the highest of the low bits before them, up to the width.
pub(crate) fn sign_extended(wide: bool, bits: u32, a: u64) -> u64
    requires some { 1 ≤ bits }
    requires within { bits ≤ bits_of wide }
    ensures { result ≡ sign_extended wide bits a }
{
    let low = zero_extended(bits, a);
    if low < 1 << (bits - 1) {
        low
    } else {
        low + (ones(width(wide)) - ones(bits))
    }
}
