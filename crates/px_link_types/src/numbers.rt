// Numbers of types, in the order in which they are met.
ghost use Rattle.std.specs.Prelude.{◌≡◌, ◌∷◌, ◌<◌, ◌^◌, [], true, length, reverse, take, OnOk};
ghost use Rattle.std.specs.List.{AllByRecursion};
ghost use Rattle.px_link_types.specs.Keys.{IsKey};
ghost use Rattle.px_link_types.specs.Numbers.{Numbers, has_key, is_integer, is_numbered, library_keys, number_of};
ghost use Rattle.px_link_types.specs.Parts.{Visits};

use crate::key::{Key, Leaf};
use crate::own::own_types;
use indexmap::IndexSet;
use px_meta::Meta;
use std::alloc::{AllocError, Global};

/// Whether a key is an integer alone, which is no type.
pub fn is_integer(key: Key) -> bool
    ensures { result ≡ is_integer key }
{
    key.depth == 0 && matches!(key.leaf, Leaf::Number(_))
}

// Whether a key is among some.
fn has_key(keys: &IndexSet<Key>, key: Key) -> bool
    ensures { result ≡ has_key keys.now.keys key }
{
    keys.contains(&key)
}

/// Where a type stands among those that have numbers.
pub fn number_of(keys: &IndexSet<Key>, key: Key) -> u32
    requires few { length keys.now.keys < 2 ^ 32 }
    requires there { has_key keys.now.keys key ≡ true }
    ensures { result ≡ number_of keys.now.keys key }
{
    match keys.get_index_of(&key) {
        Some(number) => number as u32,
        None => unreachable!(),
    }
}

/// Adds the types of the library.
pub fn add_library(keys: &mut IndexSet<Key>) -> Result<(), AllocError>
    requires { keys.old.keys ≡ [] }
    ensures { OnOk result (keys.new.keys ≡ library_keys) }
{
    for number in 0..18 {
        let leaf = Leaf::Library(number);
        keys.insert(Key { depth: 0, leaf })?;
    }
    Ok(())
}

// Whether a key needs no number: an integer, and a type that has one.
fn is_numbered(keys: &IndexSet<Key>, key: Key) -> bool
    ensures { result ≡ is_numbered keys.now.keys key }
{
    is_integer(key) || has_key(keys, key)
}

// Gives a number to the next type that is met, where it needs one, and puts its own types before those that are pending, of which the last is the next.
fn number_next(
    alloc: Global,
    meta: &Meta,
    keys: &mut IndexSet<Key>,
    pending: &mut Vec<Key>,
    key: Key,
) -> Result<(), AllocError>
    requires there { IsKey meta.now key }
    requires few { length keys.old.keys < 2 ^ 32 }
    ensures visits { OnOk result (Visits meta.now keys.old.keys key (reverse pending.old.items) keys.new.keys (reverse pending.new.items)) }
    ensures begins { take (length keys.old.keys) keys.new.keys ≡ keys.old.keys }
    ensures few { length keys.new.keys < 2 ^ 32 }
{
    if is_numbered(keys, key) {
        return Ok(());
    }
    if keys.len() >= u32::MAX as usize {
        return Err(AllocError);
    }
    let mut own = own_types(alloc, meta, key)?;
    own.reverse();
    pending.extend_from_slice(&own)?;
    keys.insert(key)?;
    Ok(())
}

/// Gives numbers to types that are met, and at once behind each to those of its own types that have none.
pub fn number_all(
    alloc: Global,
    meta: &Meta,
    keys: &mut IndexSet<Key>,
    met: &[Key],
) -> Result<(), AllocError>
    requires there { AllByRecursion (IsKey meta.now) met.now }
    requires few { length keys.old.keys < 2 ^ 32 }
    ensures numbers { OnOk result (Numbers meta.now keys.old.keys met.now keys.new.keys) }
    ensures few { length keys.new.keys < 2 ^ 32 }
    ensures begins { take (length keys.old.keys) keys.new.keys ≡ keys.old.keys }
{
    let mut pending = met.to_vec(alloc)?;
    pending.reverse();
    while let Some(key) = pending.pop() {
        number_next(alloc, meta, keys, &mut pending, key)?;
    }
    Ok(())
}
