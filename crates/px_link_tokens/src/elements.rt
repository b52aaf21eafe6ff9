// Types of elements and of objects.
ghost use Rattle.std.specs.Prelude.{◌≡◌, IfSome};
ghost use Rattle.px_link_tokens.specs.Named.{spec_at};
ghost use Rattle.px_link_tokens.specs.Operands.{element_at, type_at};
ghost use Rattle.px_link_types.specs.Keys.{IsKey, array_in};

use crate::integers::integer_at;
use crate::known::known_key;
use px_link_types::{Key, class_of, is_integer};
use px_meta::{Meta, TYPE_SPECS};

// What a TypeSpec spells.
fn spec_at(meta: &Meta, token: u32) -> Option<Key>
    ensures key { result ≡ spec_at meta.now token }
    ensures there { IfSome result (IsKey meta.now) }
{
    known_key(meta, *meta.spec(token)?)
}

/// What a token names as the elements of an array: a class, an integer, or what a TypeSpec spells.
pub fn element_at(meta: &Meta, token: u32) -> Option<Key>
    ensures key { result ≡ element_at meta.now token }
    ensures there { IfSome result (IsKey meta.now) }
{
    if token / 0x100_0000 == u32::from(TYPE_SPECS) {
        return spec_at(meta, token);
    }
    let leaf = match class_of(meta, token) {
        Some(class) => class,
        None => integer_at(meta, token)?,
    };
    Some(Key { depth: 0, leaf })
}

/// An array of elements, where it isn't too deep to be counted.
pub fn array_in(element: Option<Key>) -> Option<Key>
    ensures { result ≡ array_in element }
{
    let Key { depth, leaf } = element?;
    Some(Key {
        depth: depth.checked_add(1)?,
        leaf,
    })
}

/// What a token names as the type of an object: a class, or what a TypeSpec spells, which is no integer alone.
pub fn type_at(meta: &Meta, token: u32) -> Option<Key>
    ensures key { result ≡ type_at meta.now token }
    ensures there { IfSome result (IsKey meta.now) }
{
    if token / 0x100_0000 != u32::from(TYPE_SPECS) {
        let leaf = class_of(meta, token)?;
        return Some(Key { depth: 0, leaf });
    }
    let key = spec_at(meta, token)?;
    if is_integer(key) { None } else { Some(key) }
}
