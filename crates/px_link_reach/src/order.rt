// The order of methods that override others.
ghost use Rattle.std.specs.Prelude.{◌≡◌, IfOk, IfSome};
ghost use Rattle.px_meta.specs.FullNames.{IsTypeName};
ghost use Rattle.px_meta.specs.Members.{owner_of};
ghost use Rattle.px_meta.specs.Rows.{IsRow, count_of, methods};
ghost use Rattle.px_link_reach.specs.Parts.{AreNamed, AreOrdered, by_name_and_row};

use crate::parents::Parents;
use px_link_types::full_name;
use px_meta::Meta;
use px_program::Name;
use std::alloc::{AllocError, Global};
use std::cmp::Ordering;

// A method with the full name of its owner.
#[derive(Drop)]
struct Named {
    owner: Name,
    row: u32,
}

// By the bytes of the owners' names, and then by row.
fn compare(one: &Named, other: &Named) -> Ordering
    ensures { result ≡ by_name_and_row one.now other.now }
{
    one.owner
        .as_slice()
        .cmp(other.owner.as_slice())
        .then(one.row.cmp(&other.row))
}

// The row of the type that has a method.
fn owner_of(meta: &Meta, method: u32) -> u32
    requires { IsRow meta.now methods method }
    ensures { result ≡ owner_of meta.now methods method }
{
    meta.methods()[method as usize - 1].owner
}

// The methods that override some, by row, with the names of their owners.
fn with_owners(alloc: Global, parents: &Parents) -> Result<Vec<Named>, AllocError>
    ensures { IfOk result (λ named. AreNamed parents.now (count_of parents.now methods) named.items) }
{
    let meta = parents.meta();
    let mut named = Vec::new(alloc);
    for n in 0..parents.count() {
        if parents.of(n + 1).is_some() {
            let owner = full_name(alloc, meta, owner_of(meta, n + 1))?;
            named.push(Named { owner, row: n + 1 })?;
        }
    }
    Ok(named)
}

/// The methods that override some, by the bytes of their owners' full names, and then by row.
pub fn in_order(alloc: Global, parents: &Parents) -> Result<Vec<u32>, AllocError>
    ensures { IfOk result (λ rows. AreOrdered parents.now rows.items) }
{
    let mut named = with_owners(alloc, parents)?;
    named.sort_unstable_by(compare);
    let mut rows = Vec::new(alloc);
    for method in &named {
        rows.push(method.row)?;
    }
    Ok(rows)
}
