// Signatures: Partition II, 23.2.
ghost use Rattle.std.specs.Prelude.{◌≡◌, true, Ok, IfOk};
ghost use Rattle.std.specs.List.{list_all};
ghost use Rattle.px_asm_heaps.specs.Spelling.{IsSpelledSig, is_spelled};
ghost use Rattle.px_sig.specs.Grammar as grammar;

use crate::compressed::push_count;
use crate::types::{push_type, push_types};
use px_sig::{MethodSig, SigType};
use std::alloc::{AllocError, Global};

/// The blob of a type.
pub fn type_sig(alloc: Global, item: &SigType) -> Result<Vec<u8>, AllocError>
    requires { is_spelled item.now ≡ true }
    ensures { IfOk result (λ blob. grammar.type_sig blob.items ≡ Ok item.now) }
{
    let mut blob = Vec::new(alloc);
    push_type(&mut blob, item)?;
    Ok(blob)
}

/// The signature of a field of this type.
pub fn field_sig(alloc: Global, item: &SigType) -> Result<Vec<u8>, AllocError>
    requires { is_spelled item.now ≡ true }
    ensures { IfOk result (λ blob. grammar.field_sig blob.items ≡ Ok item.now) }
{
    let mut blob = vec![in alloc; 0x06]?;
    push_type(&mut blob, item)?;
    Ok(blob)
}

/// The signature of locals of these types. One has fewer than 2^29; what has no room is answered as want of memory.
pub fn locals_sig(alloc: Global, locals: &[SigType]) -> Result<Vec<u8>, AllocError>
    requires { list_all is_spelled locals.now ≡ true }
    ensures { IfOk result (λ blob. grammar.locals_sig blob.items ≡ Ok locals.now) }
{
    let mut blob = vec![in alloc; 0x07]?;
    push_count(&mut blob, locals.len())?;
    push_types(&mut blob, locals)?;
    Ok(blob)
}

/// The blob of a plain signature of a method. It has fewer than 2^29 parameters; what has no room is answered as want of memory.
pub fn method_sig(alloc: Global, sig: &MethodSig) -> Result<Vec<u8>, AllocError>
    requires { IsSpelledSig sig.now }
    ensures { IfOk result (λ blob. grammar.method_sig blob.items ≡ Ok sig.now) }
{
    let kind = if sig.has_this { 0x20 } else { 0x00 };
    let mut blob = vec![in alloc; kind]?;
    push_count(&mut blob, sig.params.len())?;
    push_type(&mut blob, &sig.ret)?;
    push_types(&mut blob, sig.params.as_slice())?;
    Ok(blob)
}
