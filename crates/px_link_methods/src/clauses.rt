// Protected ranges: Partition II, 25.4.6.
ghost use Rattle.std.specs.Prelude.{◌≡◌, IfOk, IfSome, map};
ghost use Rattle.std.specs.List.{flat_map};
ghost use Rattle.px_link_types.specs.Keys.{IsLeaf};
ghost use Rattle.px_link_types.specs.Making.{AreNumberedIn};
ghost use Rattle.px_link_methods.specs.Methods.{caught, class_number, clause_of, keys_of_clause, kind_of, linked_clause};

use crate::places::number_of;
use px_code::RawClause;
use px_link_types::{Key, Leaf, Types, class_of};
use px_meta::Meta;
use px_program::{Clause, ClauseKind};
use px_shared::SharedList;
use std::alloc::{AllocError, Global};

// The kind of a clause by its flags.
fn kind_of(flags: u32) -> ClauseKind
    ensures { result ≡ kind_of flags }
{
    match flags {
        0 => ClauseKind::Catch,
        1 => ClauseKind::Filter,
        2 => ClauseKind::Finally,
        _ => ClauseKind::Fault,
    }
}

/// The clause for a class of this number, or for none.
pub fn clause_of(class: Option<u32>, raw: &RawClause) -> Clause
    ensures { result ≡ clause_of class raw.now }
{
    Clause {
        kind: kind_of(raw.flags),
        from: raw.from,
        to: raw.to,
        start: raw.start,
        stop: raw.stop,
        class,
    }
}

/// The class that a catch is for, where it is known.
pub fn caught(meta: &Meta, raw: &RawClause) -> Option<Leaf>
    ensures class { result ≡ caught meta.now raw.now }
    ensures there { IfSome result (IsLeaf meta.now) }
{
    if raw.flags == 0 {
        class_of(meta, raw.class)
    } else {
        None
    }
}

// The number of that class.
fn class_number(meta: &Meta, types: &Types, raw: &RawClause) -> Option<u32>
    requires { AreNumberedIn types.now.keys (keys_of_clause meta.now raw.now) }
    ensures { result ≡ class_number types.now.keys (caught meta.now raw.now) }
{
    let leaf = caught(meta, raw)?;
    Some(number_of(types, Key { depth: 0, leaf }))
}

/// The clauses of a method, by those of its body.
pub fn clauses_of(
    alloc: Global,
    meta: &Meta,
    types: &Types,
    raws: &[RawClause],
) -> Result<SharedList<Clause>, AllocError>
    requires { AreNumberedIn types.now.keys (flat_map (keys_of_clause meta.now) raws.now) }
    ensures { IfOk result (λ clauses. clauses ≡ map (linked_clause meta.now types.now.keys) raws.now) }
{
    let mut clauses = Vec::new(alloc);
    for raw in raws {
        clauses.push(clause_of(class_number(meta, types, raw), raw))?;
    }
    SharedList::from_vec(clauses)
}
