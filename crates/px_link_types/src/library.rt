// The types of the library, by the names of the rows of TypeRef.
ghost use Rattle.std.specs.Prelude.{◌≡◌, ◌<◌, [], IfSome, slice_index_or};
ghost use Rattle.px_meta.specs.Rows.{IsRow, type_refs};
ghost use Rattle.px_link_types.specs.Keys.{is_system, is_value_base, library_number, library_ref, ref_name};
ghost use Rattle.px_link_types.specs.Names.{names};

use crate::table::text_at;
use px_meta::{TYPE_REFS, cell_of};
use px_tables::Tables;

// The names of the library's types in the order of their numbers, without their namespace.
static NAMES: [&[u8]; 18] = [
    b"Object",
    b"Exception",
    b"SystemException",
    b"ArithmeticException",
    b"DivideByZeroException",
    b"OverflowException",
    b"NullReferenceException",
    b"IndexOutOfRangeException",
    b"InvalidCastException",
    b"ArrayTypeMismatchException",
    b"ArgumentException",
    b"ArgumentNullException",
    b"ArgumentOutOfRangeException",
    b"InvalidOperationException",
    b"NotSupportedException",
    b"NotImplementedException",
    b"FormatException",
    b"String",
];

// The name of the library's type of a number, without its namespace.
fn name_of(number: u32) -> &'static [u8]
    ensures { result.now ≡ slice_index_or names number [] }
{
    match NAMES.get(number as usize) {
        Some(name) => name,
        None => &[],
    }
}

// The number of the type of this name in the namespace `System`.
fn library_number(name: &[u8]) -> Option<u32>
    ensures number { result ≡ library_number name.now }
    ensures few { IfSome result (λ number. number < 18) }
{
    for number in 0..18 {
        if name_of(number) == name {
            return Some(number);
        }
    }
    None
}

/// Whether a row of TypeRef is nested in no other, and of the namespace `System`.
pub fn is_system(tables: &Tables, row: u32) -> bool
    requires { IsRow tables.now type_refs row }
    ensures { result ≡ is_system tables.now row }
{
    cell_of(tables, TYPE_REFS, row, 0) % 4 != 3
        && text_at(tables, cell_of(tables, TYPE_REFS, row, 2)) == b"System".as_slice()
}

/// The bytes of the name of a row of TypeRef, without its namespace.
pub fn ref_name<'a>(tables: &Tables<'a>, row: u32) -> &'a [u8]
    requires { IsRow tables.now type_refs row }
    ensures { result.now ≡ ref_name tables.now row }
{
    text_at(tables, cell_of(tables, TYPE_REFS, row, 1))
}

/// The number of the type of the library that a row of TypeRef names.
pub fn library_ref(tables: &Tables, row: u32) -> Option<u32>
    requires { IsRow tables.now type_refs row }
    ensures number { result ≡ library_ref tables.now row }
    ensures few { IfSome result (λ number. number < 18) }
{
    if is_system(tables, row) {
        library_number(ref_name(tables, row))
    } else {
        None
    }
}

/// Whether a row of TypeRef names the base of structs or that of enums.
pub fn is_value_base(tables: &Tables, row: u32) -> bool
    requires { IsRow tables.now type_refs row }
    ensures { result ≡ is_value_base tables.now row }
{
    let name = ref_name(tables, row);
    is_system(tables, row) && (name == b"ValueType".as_slice() || name == b"Enum".as_slice())
}
