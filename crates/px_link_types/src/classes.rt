// Types of the library, classes, and the places of signatures.
ghost use Rattle.std.specs.Prelude.{◌≡◌, IfSome};
ghost use Rattle.px_meta.specs.Rows.{IsRow, type_defs, type_refs};
ghost use Rattle.px_link_types.specs.Keys.{IsKey, IsLeaf, alone, class_of, class_or_object, defined_in, is_class, is_interface, is_value, key_of, leaf_of, library_in, place_key};

use crate::key::{Key, Leaf};
use crate::library::{is_value_base, library_ref};
use crate::table::base_index;
use px_meta::{Meta, TYPE_DEFS, TYPE_REFS, cell_of, some_row};
use px_sig::{SigLeaf, SigType};
use px_tables::Tables;

// Whether a type derives at once from the base of structs or that of enums.
fn is_value(tables: &Tables, row: u32) -> bool
    requires { IsRow tables.now type_defs row }
    ensures { result ≡ is_value tables.now row }
{
    let base = base_index(tables, row);
    base / 4 != 0 && base % 4 == 1 && is_value_base(tables, base / 4)
}

fn is_interface(tables: &Tables, row: u32) -> bool
    requires { IsRow tables.now type_defs row }
    ensures { result ≡ is_interface tables.now row }
{
    cell_of(tables, TYPE_DEFS, row, 0) / 32 % 2 == 1
}

/// Whether a type of the assembly is a class: neither an interface nor a struct or enum.
pub fn is_class(tables: &Tables, row: u32) -> bool
    requires { IsRow tables.now type_defs row }
    ensures { result ≡ is_class tables.now row }
{
    !is_interface(tables, row) && !is_value(tables, row)
}

// A class of the assembly by its row.
fn defined_in(tables: &Tables, row: Option<u32>) -> Option<Leaf>
    requires { IfSome row (IsRow tables.now type_defs) }
    ensures leaf { result ≡ defined_in tables.now row }
    ensures there { IfSome result (IsLeaf tables.now) }
{
    let row = row?;
    if is_class(tables, row) {
        Some(Leaf::Defined(row))
    } else {
        None
    }
}

// A type of the library by the row of TypeRef that names it.
fn library_in(tables: &Tables, row: Option<u32>) -> Option<Leaf>
    requires { IfSome row (IsRow tables.now type_refs) }
    ensures leaf { result ≡ library_in tables.now row }
    ensures there { IfSome result (IsLeaf tables.now) }
{
    let number = library_ref(tables, row?)?;
    Some(Leaf::Library(number))
}

/// The class that a token names: one of the assembly, which is neither an interface nor a struct or enum, or one of the library, which is known by
/// its name in the namespace `System`. None for every other type.
pub fn class_of(meta: &Meta, token: u32) -> Option<Leaf>
    ensures class { result ≡ class_of meta.now token }
    ensures there { IfSome result (IsLeaf meta.now) }
{
    let tables = meta.tables();
    let row = token % 0x100_0000;
    if token / 0x100_0000 == u32::from(TYPE_DEFS) {
        defined_in(tables, some_row(tables, TYPE_DEFS, row))
    } else if token / 0x100_0000 == u32::from(TYPE_REFS) {
        library_in(tables, some_row(tables, TYPE_REFS, row))
    } else {
        None
    }
}

// What is in the arrays of a type, where it is of a form that is run.
fn leaf_of(meta: &Meta, leaf: SigLeaf) -> Option<Leaf>
    ensures leaf { result ≡ leaf_of meta.now leaf }
    ensures there { IfSome result (IsLeaf meta.now) }
{
    match leaf {
        SigLeaf::Int(integer) => Some(Leaf::Number(integer)),
        SigLeaf::Str => Some(Leaf::Library(17)),
        SigLeaf::Object => Some(Leaf::Library(0)),
        SigLeaf::Class(token) => Some(class_of(meta, token).unwrap_or(Leaf::Library(0))),
        SigLeaf::Void | SigLeaf::Other => None,
    }
}

/// What a type of a signature is (Partition II, 23.2.12). A class that isn't known, and an interface, reads as `Object`. None where the type is of a
/// form that isn't run, such as a float, a struct or a pointer.
pub fn key_of(meta: &Meta, item: SigType) -> Option<Key>
    ensures key { result ≡ key_of meta.now item }
    ensures there { IfSome result (IsKey meta.now) }
{
    let leaf = leaf_of(meta, item.leaf)?;
    Some(Key {
        depth: item.depth,
        leaf,
    })
}

/// The same, where a type of another form stands as a reference to `Object`.
pub fn place_key(meta: &Meta, item: SigType) -> Key
    ensures key { result ≡ place_key meta.now item }
    ensures there { IsKey meta.now result }
{
    match key_of(meta, item) {
        Some(key) => key,
        None => Key {
            depth: 0,
            leaf: Leaf::Library(0),
        },
    }
}
