// Integers by the names of their types in the namespace `System`.
ghost use Rattle.std.specs.Prelude.{◌≡◌, ◌<◌, IfSome, Some, slice_get};
ghost use Rattle.px_link_tokens.specs.Named.{integer_names};
ghost use Rattle.px_link_tokens.specs.Operands.{integer_at, integer_named};
ghost use Rattle.px_link_types.specs.Keys.{IsLeaf};

use crate::rows::row_at;
use px_link_types::{Leaf, is_system, ref_name};
use px_meta::{Meta, TYPE_REFS};
use px_sig::Integer;

static INTEGERS: [(&[u8], Integer); 12] = [
    (b"Boolean", Integer::Bool),
    (b"Char", Integer::Char),
    (b"SByte", Integer::I1),
    (b"Byte", Integer::U1),
    (b"Int16", Integer::I2),
    (b"UInt16", Integer::U2),
    (b"Int32", Integer::I4),
    (b"UInt32", Integer::U4),
    (b"Int64", Integer::I8),
    (b"UInt64", Integer::U8),
    (b"IntPtr", Integer::N),
    (b"UIntPtr", Integer::UN),
];

// An entry of the table.
fn entry(number: usize) -> (&'static [u8], Integer)
    requires { number < 12 }
    ensures { slice_get integer_names number ≡ Some (result.0.now, result.1) }
{
    INTEGERS[number]
}

// The integer of this name.
fn integer_named(name: &[u8]) -> Option<Integer>
    ensures { result ≡ integer_named name.now }
{
    for number in 0..12 {
        let (other, integer) = entry(number);
        if name == other {
            return Some(integer);
        }
    }
    None
}

/// The integer that a token of TypeRef names.
pub fn integer_at(meta: &Meta, token: u32) -> Option<Leaf>
    ensures integer { result ≡ integer_at meta.now token }
    ensures there { IfSome result (IsLeaf meta.now) }
{
    let tables = meta.tables();
    let row = row_at(tables, TYPE_REFS, token)?;
    if is_system(tables, row) {
        Some(Leaf::Number(integer_named(ref_name(tables, row))?))
    } else {
        None
    }
}
