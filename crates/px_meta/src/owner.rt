// The types that members belong to.
ghost use Rattle.std.specs.Prelude.{◌≡◌, ◌⊎◌, ◌-◌, ◌≤◌, ◌<◌, ℕ, length, slice_index, IfOk};
ghost use Rattle.px_meta.specs.Members.{owner_of};
ghost use Rattle.px_meta.specs.Rows.{count_of};
ghost use Rattle.px_meta.specs.Walks.{AreOf};

use crate::table::{TYPE_DEFS, list_end, list_start};
use px_tables::Tables;
use std::alloc::{AllocError, Global};

// Sets the owner of the rows of a list.
fn set_owner(owners: &mut [u32], start: u64, end: u64, owner: u32)
    ensures listed { (row : ℕ) → 1 ≤ row → row ≤ length owners.old → start ≤ row → row < end → slice_index owners.new (row - 1) ≡ owner }
    ensures others { (row : ℕ) → 1 ≤ row → row ≤ length owners.old → (row < start) ⊎ (end ≤ row) → slice_index owners.new (row - 1) ≡ slice_index owners.old (row - 1) }
{
    let last = end.min(owners.len() as u64 + 1);
    for row in start.max(1).min(last)..last {
        owners[row as usize - 1] = owner;
    }
}

/// The types that the rows of a table of members belong to. Types are walked from the last one, so that the first that lists a member counts.
pub fn owners_of(alloc: Global, tables: &Tables, table: u8) -> Result<Vec<u32>, AllocError>
    ensures { IfOk result (λ owners. AreOf (owner_of tables.now table) (count_of tables.now table) owners.items) }
{
    let mut owners = vec![in alloc; 0; tables.rows(table) as usize]?;
    for n in (0..tables.rows(TYPE_DEFS)).rev() {
        let start = list_start(tables, table, n + 1);
        let end = list_end(tables, table, n + 1);
        set_owner(&mut owners, start, end, n + 1);
    }
    Ok(owners)
}
