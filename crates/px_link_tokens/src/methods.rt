// Methods of the assembly that are called.
ghost use Rattle.std.specs.Prelude.{◌≡◌, ◌≢◌, IfSome};
ghost use Rattle.px_meta.specs.Rows.{IsRow, type_defs};
ghost use Rattle.px_link_tokens.specs.Named.{are_forms, method_at, way_of};
ghost use Rattle.px_link_tokens.specs.Operands.{is_run};
ghost use Rattle.px_link_tokens.specs.Parts.{IsThere};
ghost use Rattle.px_link_tokens.specs.Read.{fits_call, takes_call};

use crate::operand::Operand;
use crate::owned::{is_form, is_owned, is_void};
use crate::rows::row_at;
use crate::tokens::Tokens;
use px_meta::{METHODS, Meta, MetaMethod};
use px_sig::{MethodSig, SigType};

/// How a method is called: by `call`, `callvirt` or `newobj`.
#[derive(Clone, Copy, PartialEq, Eq)]
pub enum Way {
    Called,
    CalledVirtually,
    Made,
}

fn are_forms(meta: &Meta, types: &[SigType]) -> bool
    ensures { result ≡ are_forms meta.now types.now }
{
    types.iter().all(|item| is_form(meta, *item))
}

// Whether a signature is plain, and all its parts are of a form that is run.
fn is_run(meta: &Meta, sig: &MethodSig) -> bool
    ensures { result ≡ is_run meta.now sig.now }
{
    sig.plain
        && are_forms(meta, sig.params.as_slice())
        && (is_void(sig.ret) || is_form(meta, sig.ret))
}

// Whether a method may be called in a way: what touches a type must not have to run its initialiser.
fn takes_call(tokens: &Tokens, way: Way, method: &MetaMethod) -> bool
    requires { method.now.owner ≢ 0 → IsRow tokens.now type_defs method.now.owner }
    ensures { result ≡ takes_call tokens.now (way_of way) method.now }
{
    let meta = tokens.meta();
    let owner = method.owner;
    let has_this = method.sig.get().has_this;
    match way {
        Way::Called => {
            is_owned(meta, has_this, owner)
                && method.rva != 0
                && (has_this || !tokens.has_initialiser(owner))
        }
        Way::CalledVirtually => is_owned(meta, true, owner) && has_this,
        Way::Made => {
            is_owned(meta, true, owner)
                && method.rva != 0
                && has_this
                && is_void(method.sig.get().ret)
                && !tokens.has_initialiser(owner)
        }
    }
}

// Whether a method is one that is run, and may be called in a way.
fn fits_call(tokens: &Tokens, way: Way, method: &MetaMethod) -> bool
    requires { method.now.owner ≢ 0 → IsRow tokens.now type_defs method.now.owner }
    ensures { result ≡ fits_call tokens.now (way_of way) method.now }
{
    is_run(tokens.meta(), method.sig.get()) && takes_call(tokens, way, method)
}

/// The method of the assembly that a token names, where it may be called in a way.
pub fn method_at(tokens: &Tokens, way: Way, token: u32) -> Option<Operand>
    ensures method { result ≡ method_at tokens.now (way_of way) token }
    ensures there { IfSome result (IsThere tokens.now) }
{
    let meta = tokens.meta();
    let row = row_at(meta.tables(), METHODS, token)?;
    if fits_call(tokens, way, &meta.methods()[row as usize - 1]) {
        Some(Operand::Method(row))
    } else {
        None
    }
}
