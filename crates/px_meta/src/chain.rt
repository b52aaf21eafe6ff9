// Which chains of types end.
ghost use Rattle.std.specs.Prelude.{◌≡◌, ◌≢◌, ◌-◌, ◌≤◌, ℕ, false, length, slice_index_or, vec_len, IfOk};
ghost use Rattle.px_meta.specs.Chains.{base_in, outer_of};
ghost use Rattle.px_meta.specs.Rows.{count_of, type_defs};
ghost use Rattle.px_meta.specs.Walks.{AreKnown, AreNexts, AreOf, AreVerdicts, AreWalked, IsVerdict};

use crate::table::{NESTED_CLASSES, TYPE_DEFS, base_in, cell_of, set_row, some_row};
use px_tables::Tables;
use std::alloc::{AllocError, Global};

/// The bases of all types.
pub fn bases_of(alloc: Global, tables: &Tables) -> Result<Vec<Option<u32>>, AllocError>
    ensures { IfOk result (λ bases. AreOf (base_in tables.now) (count_of tables.now type_defs) bases.items) }
{
    let mut bases = Vec::new(alloc);
    for n in 0..tables.rows(TYPE_DEFS) {
        bases.push(base_in(tables, n + 1))?;
    }
    Ok(bases)
}

/// The types that all types are nested in. Rows are walked from the last one, so that the first for a type counts.
pub fn outers_of(alloc: Global, tables: &Tables) -> Result<Vec<Option<u32>>, AllocError>
    ensures { IfOk result (λ outers. AreOf (outer_of tables.now) (count_of tables.now type_defs) outers.items) }
{
    let mut outers = vec![in alloc; None; tables.rows(TYPE_DEFS) as usize]?;
    for n in (0..tables.rows(NESTED_CLASSES)).rev() {
        let nested = cell_of(tables, NESTED_CLASSES, n + 1, 0);
        let outer = some_row(tables, TYPE_DEFS, cell_of(tables, NESTED_CLASSES, n + 1, 1));
        set_row(&mut outers, nested as usize, outer);
    }
    Ok(outers)
}

// What came out of a walk: nothing yet in one that goes on.
fn outcome_of(ends: &[bool], walk: usize) -> bool
    ensures { result ≡ slice_index_or ends.now walk false }
{
    ends.get(walk).copied().unwrap_or(false)
}

// Whether the chain of a type ends: it is walked to its end, or to a type that was met before. One that was met in this walk comes again.
fn walk(nexts: &[Option<u32>], ends: &[bool], met: &mut [Option<usize>], from: usize) -> bool
    requires nexts { AreNexts nexts.now }
    requires some { 1 ≤ from }
    requires few { from ≤ length nexts.now }
    requires known { AreKnown nexts.now ends.now met.old }
    ensures verdict { IsVerdict nexts.now from result }
    ensures walked { AreWalked nexts.now ends.now result met.new }
{
    let mut at = from;
    loop {
        if let Some(walk) = met[at - 1] {
            return outcome_of(ends, walk);
        }
        met[at - 1] = Some(ends.len());
        match nexts[at - 1] {
            Some(next) => at = next as usize,
            None => return true,
        }
    }
}

/// Which chains end. Each type is met once.
pub fn ends_of(alloc: Global, nexts: &[Option<u32>]) -> Result<Vec<bool>, AllocError>
    requires { AreNexts nexts.now }
    ensures size { IfOk result (λ ends. vec_len ends ≡ length nexts.now) }
    ensures verdicts { IfOk result (λ ends. AreVerdicts nexts.now ends.items (length nexts.now)) }
{
    let mut met = vec![in alloc; None; nexts.len()]?;
    let mut ends = Vec::new(alloc);
    for n in 0..nexts.len() {
        let outcome = walk(nexts, &ends, &mut met, n + 1);
        ends.push(outcome)?;
    }
    Ok(ends)
}
