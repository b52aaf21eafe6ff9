// Which methods take the place of others in types: Partition II, 10.3; Partition III, 4.2.
ghost use Rattle.std.specs.Prelude.{◌≡◌, ◌==◌, ◌<◌, ◌^◌, List, length, IfOk, IfSome};
ghost use Rattle.std.specs.List.{AllByRecursion, IsDistinct};
ghost use Rattle.px_meta.specs.Chains.{base_in};
ghost use Rattle.px_meta.specs.Faults.{IsFaultless};
ghost use Rattle.px_meta.specs.Rows.{IsRow, methods, type_defs};
ghost use Rattle.px_link_methods.specs.Codes.{place_of};
ghost use Rattle.px_tables.specs.Metadata.{IsSound};
ghost use Rattle.px_link_types.specs.Keys.{IsKey};
ghost use Rattle.px_link.specs.Overrides.{AreOverrides, first_of, in_order, nearest};
ghost use Rattle.px_link.specs.Parts.{HasTypes, IsLine, pairs_by};

use indexmap::IndexSet;
use px_link_methods::set_of;
use px_link_reach::Overriding;
use px_link_types::{Key, Leaf, Types};
use px_meta::{Meta, TYPE_DEFS, base_in, cell_of, some_row};
use px_program::TypeInfo;
use px_tables::Tables;
use sqlite_items::Items;
use std::alloc::{AllocError, Global};

// Pairs of a method and the one that takes its place, by their numbers.
type Pairs = Items<(u32, u32)>;

// The tables of the assembly, each index of which names a row.
fn sound_tables<'m, 'a>(meta: &'m Meta<'a>) -> &'m Tables<'a>
    ensures same { result.now ≡ meta.now }
    ensures faultless { IsFaultless meta.now }
    ensures sound { IsSound meta.now }
{
    let tables = meta.tables();
    // a call that says of the tables what is so of all that are read
    let _ = tables.rows(TYPE_DEFS);
    tables
}

// Those rows that a set has, in their order.
fn rows_in(alloc: Global, rows: &[u32], set: &IndexSet<u32>) -> Result<Vec<u32>, AllocError>
    ensures { IfOk result (λ kept. kept.items ≡ in_order rows.now set.now.keys) }
{
    let mut kept = Vec::new(alloc);
    for row in rows {
        if set.contains(row) {
            kept.push(*row)?;
        }
    }
    Ok(kept)
}

/// Those methods that a `callvirt` names, in the order of their numbers.
pub fn in_order(alloc: Global, rows: &[u32], targets: &[u32]) -> Result<Vec<u32>, AllocError>
    requires { IsDistinct (λ row other. row == other) targets.now }
    ensures { IfOk result (λ kept. kept.items ≡ in_order rows.now targets.now) }
{
    let set = set_of(alloc, targets)?;
    rows_in(alloc, rows, &set)
}

// A type and those behind it in its chain of bases.
fn chain_of(alloc: Global, meta: &Meta, row: u32) -> Result<Vec<u32>, AllocError>
    requires { IsRow meta.now type_defs row }
    ensures { IfOk result (λ chain. IsLine meta.now row chain.items) }
{
    // of which no row has a fault, so that the walk ends
    let tables = meta.tables();
    let mut chain = Vec::new(alloc);
    chain.push(row)?;
    let mut at = row;
    while let Some(base) = base_in(tables, at) {
        chain.push(base)?;
        at = base;
    }
    Ok(chain)
}

// The first of some methods that a type has.
fn first_of(meta: &Meta, class: u32, overriders: &[u32]) -> Option<u32>
    requires { AllByRecursion (IsRow meta.now methods) overriders.now }
    ensures { result ≡ first_of meta.now class overriders.now }
{
    let methods = meta.methods();
    for row in overriders {
        if methods[*row as usize - 1].owner == class {
            return Some(*row);
        }
    }
    None
}

// The first in the nearest of a chain of types that has one.
fn nearest(meta: &Meta, chain: &[u32], overriders: &[u32]) -> Option<u32>
    requires { AllByRecursion (IsRow meta.now methods) overriders.now }
    ensures { result ≡ nearest meta.now chain.now overriders.now }
{
    for class in chain {
        let first = first_of(meta, *class, overriders);
        if first.is_some() {
            return first;
        }
    }
    None
}

// Where a row stands among others, or their number where it isn't one of them.
fn place_of(numbers: &IndexSet<u32>, row: u32) -> u32
    requires { length numbers.now.keys < 2 ^ 32 }
    ensures { result ≡ place_of numbers.now.keys row }
{
    match numbers.get_index_of(&row) {
        Some(number) => number as u32,
        None => numbers.len() as u32,
    }
}

// For each method that a `callvirt` names, the one that takes its place in a type with this chain of bases, where one does.
fn pairs_of(
    alloc: Global,
    meta: &Meta,
    overriding: &Overriding,
    numbers: &IndexSet<u32>,
    targets: &[u32],
    chain: &[u32],
) -> Result<Pairs, AllocError>
    requires same { overriding.now.tables ≡ meta.now }
    requires targets { AllByRecursion (IsRow meta.now methods) targets.now }
    requires few { length numbers.now.keys < 2 ^ 32 }
    ensures { IfOk result (λ pairs. pairs ≡ pairs_by meta.now numbers.now.keys overriding.now.lists targets.now chain.now) }
{
    let mut pairs = Items::new(alloc);
    for target in targets {
        if let Some(method) = nearest(meta, chain, overriding.of(*target)) {
            pairs.push((place_of(numbers, *target), place_of(numbers, method)))?;
        }
    }
    Ok(pairs)
}

// The methods that take the place of others in a type.
fn overrides_of(
    alloc: Global,
    meta: &Meta,
    overriding: &Overriding,
    numbers: &IndexSet<u32>,
    targets: &[u32],
    key: Key,
) -> Result<Pairs, AllocError>
    requires key { IsKey meta.now key }
    requires same { overriding.now.tables ≡ meta.now }
    requires targets { AllByRecursion (IsRow meta.now methods) targets.now }
    requires few { length numbers.now.keys < 2 ^ 32 }
    ensures { (keys : List Key) → IfOk result (AreOverrides meta.now (record { keys = keys; rows = numbers.now.keys }) overriding.now.lists targets.now key.depth key.leaf) }
{
    match key {
        Key {
            depth: 0,
            leaf: Leaf::Defined(row),
        } => {
            let chain = chain_of(alloc, meta, row)?;
            pairs_of(alloc, meta, overriding, numbers, targets, &chain)
        }
        _ => Ok(Items::new(alloc)),
    }
}

/// What a program says of its types, with the methods that take the place of others in them. Where `callvirt` names none, there are none to look for.
pub fn types_of(
    alloc: Global,
    meta: &Meta,
    overriding: &Overriding,
    types: &Types,
    rows: &[u32],
    targets: &[u32],
) -> Result<Vec<TypeInfo>, AllocError>
    requires tables { types.now.tables ≡ meta.now }
    requires same { overriding.now.tables ≡ meta.now }
    requires targets { AllByRecursion (IsRow meta.now methods) targets.now }
    requires distinct { IsDistinct (λ row other. row == other) rows.now }
    requires few { length rows.now < 2 ^ 32 }
    ensures { IfOk result (λ infos. HasTypes meta.now (record { keys = types.now.keys; rows = rows.now }) overriding.now.lists targets.now infos.items) }
{
    // of which no row has a fault, so that each type is there, and each chain of bases ends
    let _tables = sound_tables(meta);
    let keys = types.keys();
    let mut infos = types.infos(alloc)?;
    if targets.is_empty() {
        return Ok(infos);
    }
    let numbers = set_of(alloc, rows)?;
    for n in 0..keys.len() {
        let overrides = overrides_of(alloc, meta, overriding, &numbers, targets, keys[n])?;
        infos[n].overrides = overrides;
    }
    Ok(infos)
}
