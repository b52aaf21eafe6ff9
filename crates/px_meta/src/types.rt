// Reads types.
ghost use Rattle.std.specs.Prelude.{◌≡◌, MatchBool, IfErr, IfOk, OnOk, ℕ};
ghost use Rattle.px_meta.specs.Chains.{HasEnd, base_in, outer_of};
ghost use Rattle.px_meta.specs.Faults.{HasLists};
ghost use Rattle.px_meta.specs.Known.{IsKnown};
ghost use Rattle.px_meta.specs.Members.{IsType};
ghost use Rattle.px_meta.specs.Resolved.{AllEnd};
ghost use Rattle.px_meta.specs.Parts.{BlamesRow, BlamesTable, IsSound};
ghost use Rattle.px_meta.specs.Rows.{IsRow, type_defs, type_refs};
ghost use Rattle.px_meta.specs.Tokens.{AreRows};

use crate::chain::{bases_of, ends_of, outers_of};
use crate::fault::{MetaFault, MetaKind};
use crate::known::Known;
use crate::meta::MetaType;
use crate::table::{
    FIELDS, METHODS, TYPE_DEFS, TYPE_REFS, base_token, cell_of, list_end, list_start,
};
use px_tables::Tables;
use std::alloc::Global;

/// Checks that the names of references to types can be read.
pub fn check_type_refs<'a>(tables: &Tables<'a>, known: &mut Known<'a>) -> Result<(), MetaFault>
    requires { IsKnown tables.now known.old }
    ensures sound { OnOk result ((row : ℕ) → IsSound tables.now type_refs row) }
    ensures known { OnOk result (IsKnown tables.now known.new) }
    ensures fault { IfErr result (BlamesTable tables.now type_refs) }
{
    for n in 0..tables.rows(TYPE_REFS) {
        if known.names(tables, TYPE_REFS, n + 1)?.is_none() {
            return Err(MetaKind::BadToken.at(TYPE_REFS, n + 1));
        }
    }
    Ok(())
}

// Whether the lists of a type end behind where they begin.
fn has_lists(tables: &Tables, row: u32) -> bool
    requires { IsRow tables.now type_defs row }
    ensures { MatchBool result (HasLists tables.now row) (HasLists tables.now row → ⊥) }
{
    list_start(tables, FIELDS, row) <= list_end(tables, FIELDS, row)
        && list_start(tables, METHODS, row) <= list_end(tables, METHODS, row)
}

// Reads a type, of which is known what it is nested in, and whether its chains of bases and of outer types end.
fn read_type<'a>(
    tables: &Tables<'a>,
    known: &mut Known<'a>,
    row: u32,
    outer: Option<u32>,
    bases_end: bool,
    outers_end: bool,
) -> Result<MetaType<'a>, MetaFault>
    requires known { IsKnown tables.now known.old }
    requires row { IsRow tables.now type_defs row }
    requires outer { outer ≡ outer_of tables.now row }
    requires bases { MatchBool bases_end (HasEnd (base_in tables.now) row) (HasEnd (base_in tables.now) row → ⊥) }
    requires outers { MatchBool outers_end (HasEnd (outer_of tables.now) row) (HasEnd (outer_of tables.now) row → ⊥) }
    ensures read { IfOk result (IsType tables.now row) }
    ensures sound { OnOk result (IsSound tables.now type_defs row) }
    ensures end { OnOk result (HasEnd (base_in tables.now) row) }
    ensures known { OnOk result (IsKnown tables.now known.new) }
    ensures fault { IfErr result (BlamesRow tables.now type_defs row) }
{
    if !has_lists(tables, row) {
        return Err(MetaKind::BadList.at(TYPE_DEFS, row));
    }
    let Some((namespace, name)) = known.names(tables, TYPE_DEFS, row)? else {
        return Err(MetaKind::BadToken.at(TYPE_DEFS, row));
    };
    if !bases_end || !outers_end {
        return Err(MetaKind::CycleOfBases.at(TYPE_DEFS, row));
    }
    Ok(MetaType {
        namespace,
        name,
        flags: cell_of(tables, TYPE_DEFS, row, 0),
        base: base_token(cell_of(tables, TYPE_DEFS, row, 3)),
        first_field: cell_of(tables, TYPE_DEFS, row, 4),
        first_method: cell_of(tables, TYPE_DEFS, row, 5),
        outer,
    })
}

/// Reads the types of the assembly.
pub fn read_types<'a>(
    alloc: Global,
    tables: &Tables<'a>,
    known: &mut Known<'a>,
) -> Result<Vec<MetaType<'a>>, MetaFault>
    requires { IsKnown tables.now known.old }
    ensures types { IfOk result (λ types. AreRows IsType tables.now type_defs types.items) }
    ensures sound { OnOk result ((row : ℕ) → IsSound tables.now type_defs row) }
    ensures ends { OnOk result (AllEnd tables.now) }
    ensures known { OnOk result (IsKnown tables.now known.new) }
    ensures fault { IfErr result (BlamesTable tables.now type_defs) }
{
    let outers = outers_of(alloc, tables)?;
    let outers_end = ends_of(alloc, &outers)?;
    let bases = bases_of(alloc, tables)?;
    let bases_end = ends_of(alloc, &bases)?;
    let mut types = Vec::new(alloc);
    for n in 0..tables.rows(TYPE_DEFS) {
        let at = n as usize;
        let outer = outers[at];
        let ends = bases_end[at];
        let outer_ends = outers_end[at];
        let read = read_type(tables, known, n + 1, outer, ends, outer_ends)?;
        types.push(read)?;
    }
    Ok(types)
}
