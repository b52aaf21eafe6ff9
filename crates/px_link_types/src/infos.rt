// What a program says of the types that have numbers.
ghost use Rattle.std.specs.Prelude.{◌≡◌, IfOk, map, true};
ghost use Rattle.std.specs.List.{AllByRecursion};
ghost use Rattle.px_meta.specs.Rows.{IsRow, fields, type_defs};
ghost use Rattle.px_program.specs.Alone.{array_of};
ghost use Rattle.px_program.specs.Formed.{AreTypes};
ghost use Rattle.px_link_types.specs.Infos.{AreInfos, IsDefined, IsInfoOf, number_in};
ghost use Rattle.px_link_types.specs.Keys.{alone};
ghost use Rattle.px_link_types.specs.Making.{AreNumberedIn, IsKnown, IsMade};
ghost use Rattle.px_link_types.specs.Numbers.{base_leaf, field_key, is_numbered, leaf_keys, place_in};

use crate::key::{Key, Leaf};
use crate::naming::full_name;
use crate::own::{base_leaf, field_key, instance_fields, static_fields};
use crate::types::Types;
use px_program::{Place, TypeInfo, library_types};
use sqlite_items::Items;
use std::alloc::{AllocError, Global};

// The number of a type's base.
fn base_number(types: &Types, row: u32) -> Option<u32>
    requires row { IsRow types.now.tables type_defs row }
    requires numbered { AreNumberedIn types.now.keys (leaf_keys (base_leaf types.now.tables row)) }
    ensures { result ≡ number_in types.now.keys (base_leaf types.now.tables row) }
{
    let leaf = base_leaf(types.tables(), row)?;
    match types.place(Key { depth: 0, leaf }) {
        Place::Ref(number) => Some(number),
        _ => unreachable!(),
    }
}

// What fields hold, as places of the program.
fn places_of(alloc: Global, types: &Types, rows: &[u32]) -> Result<Items<Place>, AllocError>
    requires rows { AllByRecursion (IsRow types.now.tables fields) rows.now }
    requires numbered { AreNumberedIn types.now.keys (map (field_key types.now.tables) rows.now) }
    ensures { IfOk result (λ places. places ≡ map (λ f. place_in types.now.keys (field_key types.now.tables f)) rows.now) }
{
    let mut places = Items::new(alloc);
    for row in rows {
        places.push(types.place(field_key(types.meta(), *row)))?;
    }
    Ok(places)
}

// A type of the assembly.
fn defined(alloc: Global, types: &Types, row: u32) -> Result<TypeInfo, AllocError>
    requires { IsKnown types.now.tables types.now.keys (alone (Leaf.Defined row)) }
    ensures { IfOk result (IsDefined types.now.tables types.now.keys row) }
{
    let meta = types.meta();
    let name = full_name(alloc, meta, row)?;
    let base = base_number(types, row);
    let fields = instance_fields(alloc, meta, row)?;
    let statics = static_fields(alloc, meta, row)?;
    Ok(TypeInfo {
        name,
        base,
        element: None,
        fields: places_of(alloc, types, &fields)?,
        statics: places_of(alloc, types, &statics)?,
        overrides: Items::new(alloc),
    })
}

// The array type whose elements a place holds.
fn array_of(alloc: Global, element: Place) -> TypeInfo
    ensures { result ≡ array_of element }
{
    TypeInfo {
        name: Items::new(alloc),
        base: Some(0),
        element: Some(element),
        fields: Items::new(alloc),
        statics: Items::new(alloc),
        overrides: Items::new(alloc),
    }
}

// A type behind those of the library.
fn info_of(alloc: Global, types: &Types, key: Key) -> Result<TypeInfo, AllocError>
    requires made { IsMade key.depth key.leaf }
    requires known { IsKnown types.now.tables types.now.keys key }
    ensures { IfOk result (IsInfoOf types.now.tables types.now.keys key.depth key.leaf) }
{
    if key.depth > 0 {
        let element = Key {
            depth: key.depth - 1,
            leaf: key.leaf,
        };
        return Ok(array_of(alloc, types.place(element)));
    }
    match key.leaf {
        Leaf::Defined(row) => defined(alloc, types, row),
        _ => unreachable!(),
    }
}

/// What a program says of the types that have numbers, in their order: first those of the library.
pub fn infos_of(alloc: Global, types: &Types) -> Result<Vec<TypeInfo>, AllocError>
    ensures infos { IfOk result (λ infos. AreInfos types.now.tables types.now.keys infos.items) }
    ensures formed { IfOk result (λ infos. AreTypes infos.items) }
{
    // whose indexes name rows, so that each key's own types are there
    let _tables = types.tables();
    let keys = types.keys();
    let mut infos = library_types(alloc)?;
    for n in infos.len()..keys.len() {
        infos.push(info_of(alloc, types, keys[n])?)?;
    }
    Ok(infos)
}
