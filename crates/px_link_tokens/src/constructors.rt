// Constructors of the library: that of `Object`, and those of exceptions.
ghost use Rattle.std.specs.Prelude.{◌≡◌, ◌<◌, IfOk, IfSome};
ghost use Rattle.std.specs.List.{list_all};
ghost use Rattle.px_meta.specs.Rows.{IsRow, member_refs, type_refs};
ghost use Rattle.px_link_tokens.specs.Operands.{constructor_of, is_exception_leaf, is_text_leaf, is_text_or_exception, library_constructor, library_in, may_take};
ghost use Rattle.px_link_tokens.specs.Parts.{IsThere};

use crate::known::each_known;
use crate::operand::Operand;
use crate::owned::is_void;
use crate::references::{member_name, parent_ref};
use px_link_types::{Key, Leaf, library_ref};
use px_meta::Meta;
use px_sig::MethodSig;
use px_tables::Tables;
use std::alloc::{AllocError, Global};

fn is_exception_leaf(leaf: Leaf) -> bool
    ensures { result ≡ is_exception_leaf leaf }
{
    matches!(leaf, Leaf::Library(1..=16))
}

fn is_text_leaf(leaf: Leaf) -> bool
    ensures { result ≡ is_text_leaf leaf }
{
    matches!(leaf, Leaf::Library(17))
}

fn is_text_or_exception(key: Key) -> bool
    ensures { result ≡ is_text_or_exception key }
{
    key.depth == 0 && (is_text_leaf(key.leaf) || is_exception_leaf(key.leaf))
}

fn are_texts_or_exceptions(keys: &[Key]) -> bool
    ensures { result ≡ list_all is_text_or_exception keys.now }
{
    keys.iter().all(|key| is_text_or_exception(*key))
}

// Whether a class of the library has a constructor with these parameters.
fn may_take(class: u32, keys: &[Key]) -> bool
    ensures { result ≡ may_take class keys.now }
{
    if keys.is_empty() {
        class <= 16
    } else {
        1 <= class && class <= 16 && are_texts_or_exceptions(keys)
    }
}

// The number of the library's type that a row of TypeRef names.
fn library_in(tables: &Tables, row: Option<u32>) -> Option<u32>
    requires { IfSome row (IsRow tables.now type_refs) }
    ensures { result ≡ library_in tables.now row }
{
    library_ref(tables, row?)
}

// The constructor of a class with the parameters of a signature.
fn constructor_of(
    alloc: Global,
    meta: &Meta,
    sig: &MethodSig,
    class: Option<u32>,
) -> Result<Option<Operand>, AllocError>
    ensures constructor { IfOk result (λ made. made ≡ constructor_of meta.now sig.now class) }
    ensures there { IfOk result (λ made. IfSome made (IsThere meta.now)) }
{
    let Some(class) = class else {
        return Ok(None);
    };
    if !(sig.has_this && sig.plain && is_void(sig.ret)) {
        return Ok(None);
    }
    let Some(params) = each_known(alloc, meta, sig.params.as_slice())? else {
        return Ok(None);
    };
    if may_take(class, params.as_slice()) {
        Ok(Some(Operand::Constructor { class, params }))
    } else {
        Ok(None)
    }
}

/// The constructor of the library that a reference names.
pub fn library_constructor(
    alloc: Global,
    meta: &Meta,
    row: u32,
    sig: &MethodSig,
) -> Result<Option<Operand>, AllocError>
    requires { IsRow meta.now member_refs row }
    ensures constructor { IfOk result (λ made. made ≡ library_constructor meta.now row sig.now) }
    ensures there { IfOk result (λ made. IfSome made (IsThere meta.now)) }
{
    let tables = meta.tables();
    if member_name(tables, row) != b".ctor".as_slice() {
        return Ok(None);
    }
    let class = library_in(tables, parent_ref(tables, row));
    constructor_of(alloc, meta, sig, class)
}
