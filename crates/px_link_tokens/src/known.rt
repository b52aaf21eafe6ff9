// What types of signatures are, where all classes in them are known.
ghost use Rattle.std.specs.Prelude.{◌≡◌, IfOk, IfSome};
ghost use Rattle.std.specs.List.{AllByRecursion};
ghost use Rattle.px_link_tokens.specs.Operands.{each_known, known_key, known_leaf};
ghost use Rattle.px_link_types.specs.Keys.{IsKey, IsLeaf};

use px_link_types::{Key, Leaf, class_of};
use px_meta::Meta;
use px_sig::{SigLeaf, SigType};
use sqlite_items::Items;
use std::alloc::{AllocError, Global};

// What is in the arrays of a type, where its class is known.
fn known_leaf(meta: &Meta, leaf: SigLeaf) -> Option<Leaf>
    ensures leaf { result ≡ known_leaf meta.now leaf }
    ensures there { IfSome result (IsLeaf meta.now) }
{
    match leaf {
        SigLeaf::Int(integer) => Some(Leaf::Number(integer)),
        SigLeaf::Str => Some(Leaf::Library(17)),
        SigLeaf::Object => Some(Leaf::Library(0)),
        SigLeaf::Class(token) => class_of(meta, token),
        SigLeaf::Void | SigLeaf::Other => None,
    }
}

/// What a type is, where its class is known: one that isn't known doesn't read as `Object` here.
pub fn known_key(meta: &Meta, item: SigType) -> Option<Key>
    ensures key { result ≡ known_key meta.now item }
    ensures there { IfSome result (IsKey meta.now) }
{
    let leaf = known_leaf(meta, item.leaf)?;
    Some(Key {
        depth: item.depth,
        leaf,
    })
}

/// What all of some types are, where all are known.
pub fn each_known(
    alloc: Global,
    meta: &Meta,
    types: &[SigType],
) -> Result<Option<Items<Key>>, AllocError>
    ensures keys { IfOk result (λ keys. keys ≡ each_known meta.now types.now) }
    ensures there { IfOk result (λ keys. IfSome keys (AllByRecursion (IsKey meta.now))) }
{
    let mut keys = Vec::new(alloc);
    for item in types {
        match known_key(meta, *item) {
            Some(key) => keys.push(key)?,
            None => return Ok(None),
        }
    }
    Ok(Some(Items::from_vec(keys)))
}
