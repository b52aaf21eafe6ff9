// Rows of the tables, and what their cells name.
ghost use Rattle.std.specs.Prelude.{◌≡◌, ◌==◌, not, ◌/◌, ◌%◌, ◌<◌, take_while, length, position, IfSome};
ghost use Rattle.px_meta.specs.Members.{list_end, list_start};
ghost use Rattle.px_meta.specs.Rows.{IsRow, cell, fields, some_row, text_at, type_defs, type_refs};
ghost use Rattle.px_link_types.specs.Keys.{base_index};

use px_meta::{FIELDS, TYPE_DEFS, cell_of};
use px_tables::{Heap, Tables};

// The place of the first zero byte.
fn first_zero(bytes: &[u8]) -> Option<usize>
    ensures place { result ≡ position (λ byte. byte == 0) bytes.now }
    ensures within { IfSome result (λ end. end < length bytes.now) }
{
    bytes.iter().position(|byte| *byte == 0)
}

// The bytes up to the first zero byte, or to the end where there is none.
fn up_to_zero(bytes: &[u8]) -> &[u8]
    ensures { result.now ≡ take_while (λ byte. not (byte == 0)) bytes.now }
{
    match first_zero(bytes) {
        Some(end) => &bytes[..end],
        None => bytes,
    }
}

/// The bytes of the text at a place of the strings.
pub fn text_at<'a>(tables: &Tables<'a>, at: u32) -> &'a [u8]
    ensures { result.now ≡ text_at tables.now at }
{
    up_to_zero(tables.heap(Heap::Strings).get(at as usize..).unwrap_or(&[]))
}

/// The coded index of a type's base. Where its row isn't 0, there is such a row.
pub fn base_index(tables: &Tables, row: u32) -> u32
    requires { IsRow tables.now type_defs row }
    ensures index { result ≡ base_index tables.now row }
    ensures defined { 0 < result / 4 → result % 4 ≡ 0 → IsRow tables.now type_defs (result / 4) }
    ensures named { 0 < result / 4 → result % 4 ≡ 1 → IsRow tables.now type_refs (result / 4) }
{
    tables.row(TYPE_DEFS, row).cells[3]
}

/// Where the list of a type's fields begins.
pub fn list_start(tables: &Tables, row: u32) -> u64
    requires { IsRow tables.now type_defs row }
    ensures { result ≡ list_start tables.now fields row }
{
    u64::from(cell_of(tables, TYPE_DEFS, row, 4))
}

/// Where the list of a type's fields ends: where that of the next type begins, or behind the last field.
pub fn list_end(tables: &Tables, row: u32) -> u64
    requires { IsRow tables.now type_defs row }
    ensures { result ≡ list_end tables.now fields row }
{
    if row == tables.rows(TYPE_DEFS) {
        u64::from(tables.rows(FIELDS)) + 1
    } else {
        list_start(tables, row + 1)
    }
}
