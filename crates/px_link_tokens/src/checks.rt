// The two calls of `Microsoft.Pex.Framework` that are known.
ghost use Rattle.std.specs.Prelude.{◌≡◌, IfSome};
ghost use Rattle.px_meta.specs.Rows.{IsRow, member_refs, type_refs};
ghost use Rattle.px_link_tokens.specs.Operands.{check_in, check_named, check_of, is_bool, is_outer_ref};
ghost use Rattle.px_link_tokens.specs.Parts.{IsThere};

use crate::operand::Operand;
use crate::owned::is_void;
use crate::references::{member_name, parent_ref};
use px_link_types::{ref_name, text_at};
use px_meta::{TYPE_REFS, cell_of};
use px_program::Check;
use px_sig::{Integer, MethodSig, SigLeaf, SigType};
use px_tables::Tables;

fn check_named(name: &[u8]) -> Option<Check>
    ensures { result ≡ check_named name.now }
{
    if name == b"PexAssume".as_slice() {
        Some(Check::Assume)
    } else if name == b"PexAssert".as_slice() {
        Some(Check::Assert)
    } else {
        None
    }
}

// Whether a row of TypeRef is nested in no other.
fn is_outer_ref(tables: &Tables, row: u32) -> bool
    requires { IsRow tables.now type_refs row }
    ensures { result ≡ is_outer_ref tables.now row }
{
    cell_of(tables, TYPE_REFS, row, 0) % 4 != 3
}

// The check that a type of another assembly has.
fn check_in(tables: &Tables, row: Option<u32>) -> Option<Check>
    requires { IfSome row (IsRow tables.now type_refs) }
    ensures { result ≡ check_in tables.now row }
{
    let row = row?;
    let namespace = text_at(tables, cell_of(tables, TYPE_REFS, row, 2));
    if is_outer_ref(tables, row) && namespace == b"Microsoft.Pex.Framework".as_slice() {
        check_named(ref_name(tables, row))
    } else {
        None
    }
}

// Whether the parameters are a bool alone.
fn is_bool(params: &[SigType]) -> bool
    ensures { result ≡ is_bool params.now }
{
    match params {
        [only] => only.depth == 0 && matches!(only.leaf, SigLeaf::Int(Integer::Bool)),
        _ => false,
    }
}

/// The check that a reference to a method names: a static `IsTrue` that takes a bool and returns nothing.
pub fn check_of(tables: &Tables, row: u32, sig: &MethodSig) -> Option<Operand>
    requires { IsRow tables.now member_refs row }
    ensures check { result ≡ check_of tables.now row sig.now }
    ensures there { IfSome result (IsThere tables.now) }
{
    let is_plain_static = !sig.has_this && sig.plain;
    if member_name(tables, row) == b"IsTrue".as_slice()
        && is_plain_static
        && is_void(sig.ret)
        && is_bool(sig.params.as_slice())
    {
        Some(Operand::Check(check_in(tables, parent_ref(tables, row))?))
    } else {
        None
    }
}
