// Equality of types and of signatures.
ghost use Rattle.std.specs.Prelude.{◌≡◌, ◌↔◌, IsTrue};

use crate::sig::{MethodSig, SigType};

/// Whether two types are the same. All types of other forms count as one.
pub fn same_type(first: SigType, second: SigType) -> bool
    ensures { IsTrue result ↔ (first ≡ second) }
{
    first == second
}

// Whether two lists of types are the same.
fn same_types(first: &[SigType], second: &[SigType]) -> bool
    ensures { IsTrue result ↔ (first.now ≡ second.now) }
{
    if first.len() != second.len() {
        return false;
    }
    for (one, other) in first.iter().zip(second) {
        if !same_type(*one, *other) {
            return false;
        }
    }
    true
}

/// Whether two signatures are the same. All types of other forms count as one.
pub fn same_sig(first: &MethodSig, second: &MethodSig) -> bool
    ensures { IsTrue result ↔ (first.now ≡ second.now) }
{
    first.has_this == second.has_this
        && first.plain == second.plain
        && same_type(first.ret, second.ret)
        && same_types(first.params.as_slice(), second.params.as_slice())
}
