// Full names of types: `Namespace.Outer/Inner`.
ghost use Rattle.std.specs.Prelude.{◌≡◌, ◌++◌, IfOk, IfSome, OnOk};
ghost use Rattle.std.specs.List.{AllByRecursion};
ghost use Rattle.px_meta.specs.Chains.{IsChain, outer_of};
ghost use Rattle.px_meta.specs.FullNames.{IsTypeName, own_name, type_name};
ghost use Rattle.px_meta.specs.Rows.{IsRow, type_defs};

use crate::table::text_at;
use px_meta::{Meta, TYPE_DEFS, cell_of};
use px_program::Name;
use px_tables::Tables;
use sqlite_items::Items;
use std::alloc::{AllocError, Global};

// Adds a type's own name, behind its namespace.
fn push_own_name(name: &mut Vec<u8>, tables: &Tables, row: u32) -> Result<(), AllocError>
    requires { IsRow tables.now type_defs row }
    ensures { OnOk result (name.new.items ≡ name.old.items ++ own_name tables.now row) }
{
    let namespace = text_at(tables, cell_of(tables, TYPE_DEFS, row, 2));
    if !namespace.is_empty() {
        name.extend_from_slice(namespace)?;
        name.push(b'.')?;
    }
    name.extend_from_slice(text_at(tables, cell_of(tables, TYPE_DEFS, row, 1)))?;
    Ok(())
}

// The type that a type is nested in.
fn outer_of(meta: &Meta, row: u32) -> Option<u32>
    requires { IsRow meta.now type_defs row }
    ensures outer { result ≡ outer_of meta.now row }
    ensures there { IfSome result (IsRow meta.now type_defs) }
{
    meta.types()[row as usize - 1].outer
}

// The types that a type is nested in, the innermost first.
fn outers_of(alloc: Global, meta: &Meta, row: u32) -> Result<Vec<u32>, AllocError>
    requires { IsRow meta.now type_defs row }
    ensures chain { IfOk result (λ outers. IsChain (outer_of meta.now) row outers.items) }
    ensures there { IfOk result (λ outers. AllByRecursion (IsRow meta.now type_defs) outers.items) }
{
    // of which no row has a fault, so that the walk ends
    let _tables = meta.tables();
    let mut outers = Vec::new(alloc);
    let mut at = row;
    while let Some(outer) = outer_of(meta, at) {
        outers.push(outer)?;
        at = outer;
    }
    Ok(outers)
}

// The name of a type that is nested in others, the innermost of these first.
fn name_in(alloc: Global, tables: &Tables, row: u32, outers: &[u32]) -> Result<Vec<u8>, AllocError>
    requires row { IsRow tables.now type_defs row }
    requires there { AllByRecursion (IsRow tables.now type_defs) outers.now }
    ensures { IfOk result (λ name. name.items ≡ type_name tables.now row outers.now) }
{
    let mut name = Vec::new(alloc);
    for n in (0..outers.len()).rev() {
        push_own_name(&mut name, tables, outers[n])?;
        name.push(b'/')?;
    }
    push_own_name(&mut name, tables, row)?;
    Ok(name)
}

/// The full name of a type.
pub fn full_name(alloc: Global, meta: &Meta, row: u32) -> Result<Name, AllocError>
    requires { IsRow meta.now type_defs row }
    ensures { IfOk result (IsTypeName meta.now row) }
{
    let outers = outers_of(alloc, meta, row)?;
    let name = name_in(alloc, meta.tables(), row, &outers)?;
    Ok(Items::from_vec(name))
}
