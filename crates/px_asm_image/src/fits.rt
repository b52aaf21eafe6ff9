// The test of content that can be written.
ghost use Rattle.std.specs.Prelude.{◌≡◌, ℕ, ◌+◌, ◌<◌, ◌≤◌, ◌^◌, [], IsTrue, ◌↔◌, length, nat_lt, slice_index_or};
ghost use Rattle.px_tables.specs.Rows.{start_of};
ghost use Rattle.px_asm_image.specs.Fitting.{cell_fits, cells_fit, fits, has_few_rows, row_fits, rows_fit, table_fits, tables_fit};
ghost use Rattle.px_asm_image.specs.Layout.{Fits};

use crate::content::Content;
use crate::rows::counts_of;
use px_tables::{Counts, Row, columns, has_indexes_looked_at};
use sqlite_items::Items;

// The sizes of all parts together are less.
const SIZE_LIMIT: usize = 1 << 30;

// Whether a number fits in so many bytes.
fn fits_in(cell: u32, size: usize) -> bool
    requires { size ≤ 4 }
    ensures { result ≡ nat_lt cell (256 ^ size) }
{
    u64::from(cell) < 256u64.pow(size as u32)
}

// Whether a cell fits its column, and names a row where it must. Behind the columns it is 0.
fn cell_fits(counts: &Counts, table: u8, cells: &[u32; 9], k: usize) -> bool
    requires { k < 9 }
    ensures { result ≡ cell_fits counts.now table cells.now k }
{
    let cell = cells[k];
    match columns(table).get(k) {
        Some(column) => {
            fits_in(cell, counts.column_size(*column))
                && !(has_indexes_looked_at(table) && counts.is_bad(*column, cell))
        }
        None => cell == 0,
    }
}

// Whether all of the cells fit.
fn cells_fit(counts: &Counts, table: u8, cells: &[u32; 9]) -> bool
    ensures { result ≡ cells_fit counts.now table cells.now }
{
    (0..9).all(|k| cell_fits(counts, table, cells, k))
}

// Whether a row fits.
fn row_fits(counts: &Counts, table: u8, row: &Row) -> bool
    ensures { result ≡ row_fits counts.now table row.now.cells }
{
    cells_fit(counts, table, &row.cells)
}

// Whether all rows of a table fit.
fn rows_fit(counts: &Counts, table: u8, rows: &[Row]) -> bool
    ensures { result ≡ rows_fit counts.now table rows.now }
{
    rows.iter().all(|row| row_fits(counts, table, row))
}

// Whether the table has no rows, or is known and all of its rows fit.
fn table_fits(counts: &Counts, table: u8, rows: &[Row]) -> bool
    ensures { result ≡ table_fits counts.now table rows.now }
{
    rows.is_empty() || (!columns(table).is_empty() && rows_fit(counts, table, rows))
}

// Whether all tables fit.
fn tables_fit(counts: &Counts, tables: &[Items<Row>]) -> bool
    requires { length tables.now ≤ 64 }
    ensures { result ≡ tables_fit counts.now 0 tables.now }
{
    for (table, rows) in tables.iter().enumerate() {
        if !table_fits(counts, table as u8, rows.as_slice()) {
            return false;
        }
    }
    true
}

// Whether the number of each row fits in a token.
fn has_few_rows(tables: &[Items<Row>]) -> bool
    ensures { result ≡ has_few_rows tables.now }
{
    tables.iter().all(|rows| rows.len() < 1 << 24)
}

// How many bytes the rows of all tables have.
fn rows_size(counts: &Counts) -> usize
    ensures { result ≡ start_of counts.now 64 }
{
    let mut size = 0;
    for table in 0..64u8 {
        size += counts.rows(table) as usize * counts.row_size(table);
    }
    size
}

// Whether the rows and the heaps are short.
fn is_short(rows: usize, content: &Content) -> bool
    ensures { result ≡ nat_lt (rows + length content.now.strings + length content.now.user_strings + length content.now.blob) (2 ^ 30) }
{
    rows.saturating_add(content.strings.len())
        .saturating_add(content.user_strings.len())
        .saturating_add(content.blob.len())
        < SIZE_LIMIT
}

// The test itself. Counts are made only of few tables with few rows.
#[tactic(auto, unfolding(crate::specs::Fitting::fits))]
fn content_fits(content: &Content) -> bool
    ensures { result ≡ fits content.now }
{
    let tables = content.rows.as_slice();
    if tables.len() > 64 || !has_few_rows(tables) {
        return false;
    }
    let counts = counts_of(tables);
    tables_fit(&counts, tables) && is_short(rows_size(&counts), content)
}

impl Content {
    /// Whether metadata can hold the content.
    pub fn fits(&self) -> bool
        ensures { IsTrue result ↔ Fits self.now }
    {
        content_fits(self)
    }
}
