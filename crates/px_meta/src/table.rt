// Rows, and what their cells name.
ghost use Rattle.std.specs.Prelude.{◌≡◌, ◌≢◌, ◌-◌, ◌≤◌, ◌<◌, ℕ, length, slice_index_or, IfSome, MatchOption};
ghost use Rattle.px_blobs.specs.Items.{IsStringAt};
ghost use Rattle.px_meta.specs.Faults.{HasNames};
ghost use Rattle.px_meta.specs.Chains.{base_in};
ghost use Rattle.px_meta.specs.Members.{list_end, list_start};
ghost use Rattle.px_meta.specs.Rows.{IsReadable, IsRow, cell, coded_token, row_by, some_row, token, type_def_or_ref, type_defs};
ghost use Rattle.px_meta.specs.Tokens.{Names, parent_by, row_in};

use px_blobs::string_at;
use px_tables::{Heap, Tables};

/// The number of the table TypeRef: Partition II, 22.38.
pub const TYPE_REFS: u8 = 0x01;

/// The number of the table TypeDef: Partition II, 22.37.
pub const TYPE_DEFS: u8 = 0x02;

/// The number of the table Field: Partition II, 22.15.
pub const FIELDS: u8 = 0x04;

/// The number of the table MethodDef: Partition II, 22.26.
pub const METHODS: u8 = 0x06;

/// The number of the table MemberRef: Partition II, 22.25.
pub const MEMBER_REFS: u8 = 0x0A;

/// The number of the table MethodImpl: Partition II, 22.27.
pub const METHOD_IMPLS: u8 = 0x19;

/// The number of the table TypeSpec: Partition II, 22.39.
pub const TYPE_SPECS: u8 = 0x1B;

/// The number of the table ModuleRef: Partition II, 22.31.
pub const MODULE_REFS: u8 = 0x1A;

/// The number of the table NestedClass: Partition II, 22.32.
pub const NESTED_CLASSES: u8 = 0x29;

/// The token of a row.
pub fn token_of(table: u8, row: u32) -> u32
    ensures { result ≡ token table row }
{
    (u32::from(table) << 24).wrapping_add(row)
}

/// The number in a column of a row.
pub fn cell_of(tables: &Tables, table: u8, row: u32, column: usize) -> u32
    requires row { IsRow tables.now table row }
    requires column { column < 9 }
    ensures { result ≡ cell tables.now table row column }
{
    tables.row(table, row).cells[column]
}

/// A number as a row of a table that has it.
pub fn some_row(tables: &Tables, table: u8, row: u32) -> Option<u32>
    ensures { result ≡ some_row tables.now table row }
{
    (1 <= row && row <= tables.rows(table)).then_some(row)
}

/// The row of the assembly's type that the base of a type is.
pub fn base_in(tables: &Tables, row: u32) -> Option<u32>
    requires { IsRow tables.now type_defs row }
    ensures base { result ≡ base_in tables.now row }
    ensures there { IfSome result (IsRow tables.now type_defs) }
{
    let index = cell_of(tables, TYPE_DEFS, row, 3);
    if index % 4 == 0 {
        some_row(tables, TYPE_DEFS, index / 4)
    } else {
        None
    }
}

/// The token of the base of a type.
pub fn base_token(index: u32) -> Option<u32>
    ensures { result ≡ coded_token type_def_or_ref 2 index }
{
    let table = match index % 4 {
        0 => TYPE_DEFS,
        1 => TYPE_REFS,
        _ => TYPE_SPECS,
    };
    if index / 4 == 0 {
        None
    } else {
        Some(token_of(table, index / 4))
    }
}

/// Where the list of a type's members begins, in a table of members.
pub fn list_start(tables: &Tables, table: u8, row: u32) -> u64
    requires { IsRow tables.now type_defs row }
    ensures { result ≡ list_start tables.now table row }
{
    u64::from(cell_of(tables, TYPE_DEFS, row, if table == FIELDS { 4 } else { 5 }))
}

/// Where the list of a type's members ends.
pub fn list_end(tables: &Tables, table: u8, row: u32) -> u64
    requires { IsRow tables.now type_defs row }
    ensures { result ≡ list_end tables.now table row }
{
    if row == tables.rows(TYPE_DEFS) {
        u64::from(tables.rows(table)) + 1
    } else {
        list_start(tables, table, row + 1)
    }
}

/// The text at a place of the strings.
pub fn text_of<'a>(tables: &Tables<'a>, at: u32) -> Option<&'a str>
    ensures { MatchOption result (IsReadable tables.now at → ⊥) (λ text. IsStringAt tables.now.strings at text.now) }
{
    string_at(tables.heap(Heap::Strings), at)
}

/// The namespace and the name of a TypeRef or TypeDef.
pub fn names_of<'a>(tables: &Tables<'a>, table: u8, row: u32) -> Option<(&'a str, &'a str)>
    requires { IsRow tables.now table row }
    ensures { MatchOption result (HasNames tables.now table row → ⊥) (λ names. IsStringAt tables.now.strings (cell tables.now table row 2) names.0.now × IsStringAt tables.now.strings (cell tables.now table row 1) names.1.now) }
{
    let name = text_of(tables, cell_of(tables, table, row, 1))?;
    let namespace = text_of(tables, cell_of(tables, table, row, 2))?;
    Some((namespace, name))
}

/// The token of the parent of a reference to a member.
pub fn parent_token(index: u32) -> u32
    ensures { result ≡ parent_by index }
{
    let table = match index % 8 {
        0 => TYPE_DEFS,
        1 => TYPE_REFS,
        2 => MODULE_REFS,
        3 => METHODS,
        _ => TYPE_SPECS,
    };
    token_of(table, index / 8)
}

/// The row that a token names, where it names one of the table.
pub fn row_named(tables: &Tables, table: u8, token: u32) -> Option<u32>
    ensures { MatchOption result (Names tables.now table token → ⊥) (λ row. (row ≡ row_in token) × Names tables.now table token) }
{
    if token / 0x100_0000 == u32::from(table) {
        some_row(tables, table, token % 0x100_0000)
    } else {
        None
    }
}

/// Sets what is kept for a row, where there is such a row.
pub fn set_row(kept: &mut [Option<u32>], row: usize, value: Option<u32>)
    ensures named { 1 ≤ row → row ≤ length kept.old → slice_index_or kept.new (row - 1) None ≡ value }
    ensures others { (other : ℕ) → 1 ≤ other → other ≢ row → slice_index_or kept.new (other - 1) None ≡ slice_index_or kept.old (other - 1) None }
{
    if 1 <= row && row <= kept.len() {
        kept[row - 1] = value;
    }
}
