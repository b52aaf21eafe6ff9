// How many rows the tables have, and what that decides: Partition II, 24.2.6.
ghost use Rattle.std.specs.Prelude.{◌≡◌, ◌+◌, ◌-◌, ◌≤◌, ◌<◌, ◌^◌, length, nat_lt, Some};
ghost use Rattle.std.specs.List.{list_all, sum_by};
ghost use Rattle.px_tables.specs.Counts.{coded_index_size, column_size, has_bit, has_few_rows, index_size, is_bad, is_past, row_index_size, row_size, rows_of};

use crate::column::{CodedIndex, Column, columns};

/// How many rows each table has, by its number, and by bits which heaps have wide indexes.
#[derive(Clone, Copy)]
pub struct Counts {
    pub heap_sizes: u8,
    pub rows: [u32; 64],
}

/// Whether a bit of a mask is set.
pub fn has_bit(mask: u64, n: u8) -> bool
    requires { n < 64 }
    ensures { result ≡ has_bit mask n }
{
    (mask >> n) % 2 == 1
}

// The size of an index.
fn index_size(is_wide: bool) -> usize
    ensures { result ≡ index_size is_wide }
{
    if is_wide { 4 } else { 2 }
}

impl Counts {
    /// How many rows a table has.
    pub fn rows(&self, table: u8) -> u32
        ensures { result ≡ rows_of self.now table }
    {
        self.rows.get(usize::from(table)).copied().unwrap_or(0)
    }

    // Whether the table has fewer rows than the limit.
    fn has_few_rows(&self, limit: u32, table: Option<u8>) -> bool
        ensures { result ≡ has_few_rows self.now limit table }
    {
        match table {
            Some(table) => self.rows(table) < limit,
            None => true,
        }
    }

    // The size of an index of a row of a table.
    fn row_index_size(&self, table: u8) -> usize
        ensures { result ≡ row_index_size self.now table }
    {
        index_size(!self.has_few_rows(1 << 16, Some(table)))
    }

    // Whether each of the tables has fewer rows than the limit.
    fn have_few_rows(&self, limit: u32, tables: &[Option<u8>]) -> bool
        ensures { result ≡ list_all (has_few_rows self.now limit) tables.now }
    {
        tables.iter().all(|table| self.has_few_rows(limit, *table))
    }

    // The size of a coded index.
    fn coded_index_size(&self, index: CodedIndex) -> usize
        ensures { result ≡ coded_index_size self.now index }
    {
        let limit = 1 << (16 - index.tag_bits());
        index_size(!self.have_few_rows(limit, index.tables()))
    }

    /// The size of a column.
    pub fn column_size(&self, column: Column) -> usize
        ensures size { result ≡ column_size self.now column }
        ensures some { 1 ≤ result }
        ensures few { result ≤ 4 }
    {
        match column {
            Column::U8 => 1,
            Column::U16 => 2,
            Column::U32 => 4,
            Column::StringIndex => index_size(has_bit(self.heap_sizes.into(), 0)),
            Column::GuidIndex => index_size(has_bit(self.heap_sizes.into(), 1)),
            Column::BlobIndex => index_size(has_bit(self.heap_sizes.into(), 2)),
            Column::Row(table) | Column::Members(table) => self.row_index_size(table),
            Column::Coded(index) => self.coded_index_size(index),
        }
    }

    // The size of all of these columns.
    fn size_of(&self, columns: &[Column]) -> usize
        requires { length columns.now ≤ 9 }
        ensures { result ≡ sum_by (column_size self.now) columns.now }
    {
        columns.iter().map(|column| self.column_size(*column)).sum()
    }

    /// The size of a row of a table.
    #[tactic(auto, unfolding(crate::specs::Counts::row_size))]
    pub fn row_size(&self, table: u8) -> usize
        ensures size { result ≡ row_size self.now table }
        ensures few { result ≤ 36 }
    {
        self.size_of(columns(table))
    }

    // Whether there is no such table, or no such row in it; row 0 is passed.
    fn is_past(&self, table: Option<u8>, row: u32) -> bool
        ensures { result ≡ is_past self.now table row }
    {
        match table {
            Some(table) => self.rows(table) < row,
            None => true,
        }
    }

    /// Whether the number in a column names no row though it should.
    pub fn is_bad(&self, column: Column, cell: u32) -> bool
        ensures { result ≡ is_bad self.now column cell }
    {
        match column {
            Column::Row(table) => self.is_past(Some(table), cell),
            Column::Members(table) => self.is_past(Some(table), cell.saturating_sub(1)),
            Column::Coded(index) => {
                let tags = 1 << index.tag_bits();
                self.is_past(index.table_named(cell % tags), cell / tags)
            }
            _ => false,
        }
    }
}
