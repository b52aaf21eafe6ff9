// The types that a type leads to: an array's element, and else its base and what its fields hold.
ghost use Rattle.std.specs.Prelude.{◌≡◌, ◌++◌, map, IfOk, IfSome, OnOk};
ghost use Rattle.std.specs.List.{AllByRecursion};
ghost use Rattle.px_meta.specs.Rows.{IsRow, fields, type_defs};
ghost use Rattle.px_link_types.specs.Keys.{IsKey, IsLeaf};
ghost use Rattle.px_link_types.specs.Parts.{fields_of, is_asked};
ghost use Rattle.px_link_types.specs.Numbers.{base_in_library, base_leaf, field_key, instance_fields, leaf_keys, own_of_leaf, own_types, static_fields};

use crate::classes::place_key;
use crate::key::{Key, Leaf};
use crate::library::library_ref;
use crate::table::{base_index, list_end, list_start};
use px_meta::{FIELDS, Meta, MetaField, TYPE_DEFS};
use px_tables::Tables;
use std::alloc::{AllocError, Global};

// A base that may be of the library: nothing derives from `String`.
fn base_in_library(number: Option<u32>) -> Leaf
    ensures { result ≡ base_in_library number }
{
    match number {
        Some(17) | None => Leaf::Library(0),
        Some(number) => Leaf::Library(number),
    }
}

/// The base of a type of the assembly: where it is no type of the assembly, one of the library but `String`, and else `Object`.
pub fn base_leaf(tables: &Tables, row: u32) -> Option<Leaf>
    requires { IsRow tables.now type_defs row }
    ensures base { result ≡ base_leaf tables.now row }
    ensures there { IfSome result (IsLeaf tables.now) }
{
    let index = base_index(tables, row);
    if index / 4 == 0 {
        None
    } else if index % 4 == 0 {
        Some(Leaf::Defined(index / 4))
    } else if index % 4 == 1 {
        Some(base_in_library(library_ref(tables, index / 4)))
    } else {
        Some(Leaf::Library(0))
    }
}

/// What a field holds.
pub fn field_key(meta: &Meta, field: u32) -> Key
    requires { IsRow meta.now fields field }
    ensures key { result ≡ field_key meta.now field }
    ensures there { IsKey meta.now result }
{
    place_key(meta, meta.fields()[field as usize - 1].sig)
}

// Whether a field is one of those of a type that are asked for: of its instances, or its static ones.
fn is_asked(field: &MetaField, row: u32, is_static: bool) -> bool
    ensures { result ≡ is_asked row is_static field.now }
{
    field.owner == row && (field.flags / 16 % 2 == 1) == is_static
}

// The rows of a type's fields that are asked for. Only its own list is walked.
fn fields_of(alloc: Global, meta: &Meta, row: u32, is_static: bool) -> Result<Vec<u32>, AllocError>
    requires { IsRow meta.now type_defs row }
    ensures { IfOk result (λ rows. rows.items ≡ fields_of meta.now row is_static) }
{
    let tables = meta.tables();
    let fields = meta.fields();
    let last = list_end(tables, row).min(u64::from(tables.rows(FIELDS)) + 1);
    let mut rows = Vec::new(alloc);
    for field in list_start(tables, row).max(1).min(last)..last {
        if is_asked(&fields[field as usize - 1], row, is_static) {
            rows.push(field as u32)?;
        }
    }
    Ok(rows)
}

/// The fields of a type's instances by row.
pub fn instance_fields(alloc: Global, meta: &Meta, row: u32) -> Result<Vec<u32>, AllocError>
    requires { IsRow meta.now type_defs row }
    ensures { IfOk result (λ rows. rows.items ≡ instance_fields meta.now row) }
{
    fields_of(alloc, meta, row, false)
}

/// The static fields of a type by row.
pub fn static_fields(alloc: Global, meta: &Meta, row: u32) -> Result<Vec<u32>, AllocError>
    requires { IsRow meta.now type_defs row }
    ensures { IfOk result (λ rows. rows.items ≡ static_fields meta.now row) }
{
    fields_of(alloc, meta, row, true)
}

// The base's key alone, where there is a base.
fn base_keys(alloc: Global, meta: &Meta, row: u32) -> Result<Vec<Key>, AllocError>
    requires { IsRow meta.now type_defs row }
    ensures keys { IfOk result (λ keys. keys.items ≡ leaf_keys (base_leaf meta.now row)) }
    ensures there { IfOk result (λ keys. AllByRecursion (IsKey meta.now) keys.items) }
{
    let mut keys = Vec::new(alloc);
    if let Some(leaf) = base_leaf(meta.tables(), row) {
        keys.push(Key { depth: 0, leaf })?;
    }
    Ok(keys)
}

// Adds what fields hold.
fn push_fields(meta: &Meta, keys: &mut Vec<Key>, rows: &[u32]) -> Result<(), AllocError>
    requires { AllByRecursion (IsRow meta.now fields) rows.now }
    ensures { OnOk result (keys.new.items ≡ keys.old.items ++ map (field_key meta.now) rows.now) }
{
    for row in rows {
        keys.push(field_key(meta, *row))?;
    }
    Ok(())
}

// The base of a type of the assembly, and what its fields hold.
fn own_of_class(alloc: Global, meta: &Meta, row: u32) -> Result<Vec<Key>, AllocError>
    requires { IsRow meta.now type_defs row }
    ensures keys { IfOk result (λ keys. keys.items ≡ own_of_leaf meta.now (Leaf.Defined row)) }
    ensures there { IfOk result (λ keys. AllByRecursion (IsKey meta.now) keys.items) }
{
    let mut keys = base_keys(alloc, meta, row)?;
    let instances = instance_fields(alloc, meta, row)?;
    push_fields(meta, &mut keys, &instances)?;
    let statics = static_fields(alloc, meta, row)?;
    push_fields(meta, &mut keys, &statics)?;
    Ok(keys)
}

/// A type's own types: the element of an array; and else its base, and what its fields of instances and its static ones hold.
pub fn own_types(alloc: Global, meta: &Meta, key: Key) -> Result<Vec<Key>, AllocError>
    requires { IsKey meta.now key }
    ensures keys { IfOk result (λ keys. keys.items ≡ own_types meta.now key) }
    ensures there { IfOk result (λ keys. AllByRecursion (IsKey meta.now) keys.items) }
{
    if key.depth > 0 {
        let mut keys = Vec::new(alloc);
        keys.push(Key {
            depth: key.depth - 1,
            leaf: key.leaf,
        })?;
        return Ok(keys);
    }
    match key.leaf {
        Leaf::Number(_) | Leaf::Library(_) => Ok(Vec::new(alloc)),
        Leaf::Defined(row) => own_of_class(alloc, meta, row),
    }
}
