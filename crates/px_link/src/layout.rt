// How an assembly has what a program has: the order of its rows, and what its methods override.
ghost use Rattle.std.specs.Prelude.{◌≡◌, ◌==◌, ◌<◌, ◌^◌, ℕ, Option, length, slice_get, IfOk};
ghost use Rattle.std.specs.List.{AllByRecursion, AllZip, IsDistinct};
ghost use Rattle.std.specs.Ordering.{nat_cmp};
ghost use Rattle.px_meta.specs.Rows.{IsRow, methods};
ghost use Rattle.px_link_reach.specs.Met.{IsOwned};
ghost use Rattle.px_link.specs.Layout.{AreInRowOrder, IsLayout, IsSlot, row_of, type_row};
ghost use Rattle.px_link.specs.Placed.{ArePlaced, IsApart, IsOverridden};

use indexmap::IndexSet;
use px_link_methods::set_of;
use px_link_types::{Key, Leaf, Types};
use px_meta::Meta;
use px_program::{Layout, Slot};
use sqlite_items::Items;
use std::alloc::{AllocError, Global};
use std::cmp::Ordering;

// The number of a type or a method, with its row in the assembly.
#[derive(Clone, Copy)]
struct Placed {
    row: u32,
    number: u32,
}

// By row.
fn compare(one: &Placed, other: &Placed) -> Ordering
    ensures { result ≡ nat_cmp one.now.row other.now.row }
{
    one.row.cmp(&other.row)
}

// The numbers in the order of their rows.
fn in_row_order(alloc: Global, mut placed: Vec<Placed>) -> Result<Items<u32>, AllocError>
    ensures { (row : ℕ → Option ℕ) → IsApart row → ArePlaced row placed.items → IfOk result (AreInRowOrder row) }
{
    placed.sort_unstable_by(compare);
    let mut numbers = Items::new(alloc);
    for one in &placed {
        numbers.push(one.number)?;
    }
    Ok(numbers)
}

// The row of a type of the assembly.
fn row_of(key: Key) -> Option<u32>
    ensures { result ≡ row_of key.depth key.leaf }
{
    match key {
        Key {
            depth: 0,
            leaf: Leaf::Defined(row),
        } => Some(row),
        _ => None,
    }
}

// The types of the assembly, with their rows.
fn placed_types(alloc: Global, keys: &[Key]) -> Result<Vec<Placed>, AllocError>
    requires { length keys.now < 2 ^ 32 }
    ensures { IfOk result (λ placed. ArePlaced (type_row keys.now) placed.items) }
{
    let mut placed = Vec::new(alloc);
    for (n, key) in keys.iter().enumerate() {
        if let Some(row) = row_of(*key) {
            placed.push(Placed {
                row,
                number: n as u32,
            })?;
        }
    }
    Ok(placed)
}

// Methods with their rows.
fn placed_methods(alloc: Global, rows: &[u32]) -> Result<Vec<Placed>, AllocError>
    requires { length rows.now < 2 ^ 32 }
    ensures { IfOk result (λ placed. ArePlaced (slice_get rows.now) placed.items) }
{
    let mut placed = Vec::new(alloc);
    for (n, row) in rows.iter().enumerate() {
        placed.push(Placed {
            row: *row,
            number: n as u32,
        })?;
    }
    Ok(placed)
}

// The number of the nearest method that a method overrides, of those that have numbers.
fn overridden_among(meta: &Meta, numbers: &IndexSet<u32>, row: u32) -> Option<u32>
    requires row { IsRow meta.now methods row }
    requires few { length numbers.now.keys < 2 ^ 32 }
    ensures { IsOverridden meta.now numbers.now.keys row result }
{
    // of which no row has a fault, so that the walk ends
    let _tables = meta.tables();
    let mut at = row;
    while let Some(other) = meta.overridden_row(at) {
        if let Some(number) = numbers.get_index_of(&other) {
            return Some(number as u32);
        }
        at = other;
    }
    None
}

// What a method is in overriding, among those that have numbers.
fn slot_of(meta: &Meta, numbers: &IndexSet<u32>, row: u32) -> Slot
    requires row { IsRow meta.now methods row }
    requires few { length numbers.now.keys < 2 ^ 32 }
    ensures { IsSlot meta.now numbers.now.keys row result }
{
    Slot {
        is_virtual: meta.methods()[row as usize - 1].flags / 64 % 2 == 1,
        overridden: overridden_among(meta, numbers, row),
    }
}

// What the methods of these rows are in overriding, among those that have numbers.
fn slots_of(
    alloc: Global,
    meta: &Meta,
    numbers: &IndexSet<u32>,
    rows: &[u32],
) -> Result<Items<Slot>, AllocError>
    requires rows { AllByRecursion (IsRow meta.now methods) rows.now }
    requires few { length numbers.now.keys < 2 ^ 32 }
    ensures { IfOk result (AllZip (IsSlot meta.now numbers.now.keys) rows.now) }
{
    let mut slots = Items::new(alloc);
    for row in rows {
        slots.push(slot_of(meta, numbers, *row))?;
    }
    Ok(slots)
}

// The layout, by the set of the methods' rows.
fn layout_by(
    alloc: Global,
    meta: &Meta,
    types: &Types,
    rows: &[u32],
    numbers: &IndexSet<u32>,
) -> Result<Layout, AllocError>
    requires tables { types.now.tables ≡ meta.now }
    requires owned { AllByRecursion (IsOwned meta.now) rows.now }
    requires distinct { IsDistinct (λ row other. row == other) rows.now }
    requires few { length rows.now < 2 ^ 32 }
    requires numbers { numbers.now.keys ≡ rows.now }
    ensures { IfOk result (IsLayout meta.now (record { keys = types.now.keys; rows = rows.now })) }
{
    let by_type = placed_types(alloc, types.keys())?;
    let by_method = placed_methods(alloc, rows)?;
    Ok(Layout {
        types: in_row_order(alloc, by_type)?,
        methods: in_row_order(alloc, by_method)?,
        slots: slots_of(alloc, meta, numbers, rows)?,
    })
}

/// The layout of a program with these types, and with the methods of these rows. It takes a turn per type, method and method that one overrides, and two
/// sorts.
pub fn layout_of(
    alloc: Global,
    meta: &Meta,
    types: &Types,
    rows: &[u32],
) -> Result<Layout, AllocError>
    requires tables { types.now.tables ≡ meta.now }
    requires owned { AllByRecursion (IsOwned meta.now) rows.now }
    requires distinct { IsDistinct (λ row other. row == other) rows.now }
    requires few { length rows.now < 2 ^ 32 }
    ensures { IfOk result (IsLayout meta.now (record { keys = types.now.keys; rows = rows.now })) }
{
    let numbers = set_of(alloc, rows)?;
    layout_by(alloc, meta, types, rows, &numbers)
}
