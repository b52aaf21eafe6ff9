// What instructions call, or make objects with.
ghost use Rattle.std.specs.Prelude.{◌≡◌, IfOk, IfSome};
ghost use Rattle.px_link_tokens.specs.Named.{reference_at};
ghost use Rattle.px_link_tokens.specs.Operands.{callee_at};
ghost use Rattle.px_link_tokens.specs.Parts.{IsThere};

use crate::checks::check_of;
use crate::constructors::library_constructor;
use crate::methods::{Way, method_at};
use crate::operand::Operand;
use crate::references::reference_sig;
use crate::rows::row_at;
use crate::tokens::Tokens;
use px_meta::{MEMBER_REFS, METHODS, Meta};
use std::alloc::{AllocError, Global};

// What the library has for a reference to a method. A new object can't be made by a check.
fn reference_at(
    alloc: Global,
    meta: &Meta,
    made: bool,
    token: u32,
) -> Result<Option<Operand>, AllocError>
    ensures callee { IfOk result (λ callee. callee ≡ reference_at meta.now made token) }
    ensures there { IfOk result (λ callee. IfSome callee (IsThere meta.now)) }
{
    let tables = meta.tables();
    let (Some(row), Some(sig)) = (
        row_at(tables, MEMBER_REFS, token),
        reference_sig(meta, token),
    ) else {
        return Ok(None);
    };
    match library_constructor(alloc, meta, row, sig)? {
        None if !made => Ok(check_of(tables, row, sig)),
        constructor => Ok(constructor),
    }
}

/// The method that a token names in an instruction that calls, or makes an object.
pub fn callee_at(
    alloc: Global,
    tokens: &Tokens,
    made: bool,
    token: u32,
) -> Result<Option<Operand>, AllocError>
    ensures callee { IfOk result (λ callee. callee ≡ callee_at tokens.now made token) }
    ensures there { IfOk result (λ callee. IfSome callee (IsThere tokens.now)) }
{
    if token / 0x100_0000 == u32::from(METHODS) {
        let way = if made { Way::Made } else { Way::Called };
        Ok(method_at(tokens, way, token))
    } else {
        reference_at(alloc, tokens.meta(), made, token)
    }
}
