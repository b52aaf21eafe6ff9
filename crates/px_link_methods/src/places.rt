// Numbers of types, and places of the program.
ghost use Rattle.std.specs.Prelude.{◌≡◌, IfOk, map, true, false};
ghost use Rattle.px_link_types.specs.Keys.{alone, place_key};
ghost use Rattle.px_link_types.specs.Making.{AreNumberedIn};
ghost use Rattle.px_link_types.specs.Numbers.{is_integer, is_numbered, number_of, place_in};
ghost use Rattle.px_link_methods.specs.Methods.{place_of_type};

use px_link_types::{Key, Leaf, Types, place_key};
use px_meta::Meta;
use px_program::Place;
use px_shared::SharedList;
use px_sig::SigType;
use sqlite_items::Items;
use std::alloc::{AllocError, Global};

/// The number of a type.
pub fn number_of(types: &Types, key: Key) -> u32
    requires numbered { is_numbered types.now.keys key ≡ true }
    requires no_integer { is_integer key ≡ false }
    ensures { result ≡ number_of types.now.keys key }
{
    match types.place(key) {
        Place::Ref(number) => number,
        _ => unreachable!(),
    }
}

/// The number of a type of the assembly, by its row.
pub fn number_of_row(types: &Types, row: u32) -> u32
    requires { is_numbered types.now.keys (alone (Leaf.Defined row)) ≡ true }
    ensures { result ≡ number_of types.now.keys (alone (Leaf.Defined row)) }
{
    let leaf = Leaf::Defined(row);
    number_of(types, Key { depth: 0, leaf })
}

/// What keys are as places of the program.
pub fn places_of_keys(
    alloc: Global,
    types: &Types,
    keys: &[Key],
) -> Result<Items<Place>, AllocError>
    requires { AreNumberedIn types.now.keys keys.now }
    ensures { IfOk result (λ places. places ≡ map (place_in types.now.keys) keys.now) }
{
    let mut places = Items::new(alloc);
    for key in keys {
        places.push(types.place(*key))?;
    }
    Ok(places)
}

/// What types of a signature are as places of the program.
pub fn places_of(
    alloc: Global,
    meta: &Meta,
    types: &Types,
    items: &[SigType],
) -> Result<SharedList<Place>, AllocError>
    requires { AreNumberedIn types.now.keys (map (place_key meta.now) items.now) }
    ensures { IfOk result (λ places. places ≡ map (place_of_type meta.now types.now.keys) items.now) }
{
    let mut places = Vec::new(alloc);
    for item in items {
        places.push(types.place(place_key(meta, *item)))?;
    }
    SharedList::from_vec(places)
}
