// The rows of the tables: Partition II, 24.2.6.
ghost use Rattle.std.specs.Prelude.{◌≡◌, ◌+◌, ◌≤◌, ◌<◌, ◌^◌, drop, length, All, IfErr, IfOk, IfSome, MatchResult, None, Some};
ghost use Rattle.std.specs.List.{sum_by};
ghost use Rattle.byteorder.specs.Endian.{little_number};
ghost use Rattle.px_tables.specs.Counts.{column_size, rows_of};
ghost use Rattle.px_tables.specs.Rows.{bad_in_columns, bad_in_rows, bad_in_tables, cell_at, cut_of, first_bad, has_indexes_looked_at, row_of, start_of};

use crate::column::{Column, columns};
use crate::counts::Counts;
use byteorder::{ByteOrder, LittleEndian};
use std::marker::Model;

// The tables whose indexes are looked at.
static LOOKED_AT: [u8; 9] = [0x01, 0x02, 0x04, 0x06, 0x0A, 0x11, 0x19, 0x1B, 0x29];

/// Whether the indexes in a table are looked at when the tables are read.
pub fn has_indexes_looked_at(table: u8) -> bool
    ensures { result ≡ has_indexes_looked_at table }
{
    LOOKED_AT.iter().any(|looked| *looked == table)
}

/// The rows of all tables, one table after the other. They lie whole within the bytes.
#[derive(Drop)]
pub struct Rows<'a> {
    counts: Counts,
    starts: [usize; 64],
    bytes: &'a [u8],
}

impl<'a> Model for Rows<'a> {
    ghost use Rattle.px_tables.specs.Rows.{Rows};

    ghost Value = { Rows };

    ghost use Rattle.px_tables.specs.Laws.{IsLaidOut};

    ghost view = { λ r. record { counts = r.counts; bytes = r.bytes.now } };

    ghost invariant = { λ r. IsLaidOut r.counts r.starts r.bytes.now };
}

// The number in one to four bytes, the low byte first.
fn number(bytes: &[u8], size: usize) -> u32
    requires some { 1 ≤ size }
    requires few { size ≤ 4 }
    requires inside { size ≤ length bytes.now }
    ensures { result ≡ little_number size bytes.now }
{
    LittleEndian::read_uint(bytes, size) as u32
}

impl<'a> Rows<'a> {
    /// The rows that stand in the bytes. Where one doesn't lie whole within them, the place of the first such row.
    pub fn new(counts: Counts, bytes: &'a [u8]) -> Result<Rows<'a>, usize>
        requires { length bytes.now < 2 ^ 31 }
        ensures exact { MatchResult result
            (λ rows. (cut_of counts (length bytes.now) ≡ None) × (rows ≡ record { counts = counts; bytes = bytes.now }))
            (λ at. cut_of counts (length bytes.now) ≡ Some at) }
        ensures whole { IfOk result (λ rows. start_of counts 64 ≤ length bytes.now) }
        ensures inside { IfErr result (λ at. at ≤ length bytes.now) }
    {
        let mut starts = [0; 64];
        let mut end = 0;
        for table in 0..64u8 {
            let size = counts.row_size(table);
            let next = end + counts.rows(table) as usize * size;
            if bytes.len() < next {
                return Err(end + size * ((bytes.len() - end) / size));
            }
            starts[usize::from(table)] = end;
            end = next;
        }
        Ok(Rows {
            counts,
            starts,
            bytes,
        })
    }

    /// How many rows a table has.
    pub fn count(&self, table: u8) -> u32
        ensures { result ≡ rows_of self.now.counts table }
    {
        self.counts.rows(table)
    }

    // The number in a column at a place.
    fn cell(&self, at: usize, column: Column) -> u32
        requires { at + column_size self.now.counts column ≤ length self.now.bytes }
        ensures { result ≡ cell_at self.now.counts self.now.bytes at column }
    {
        number(&self.bytes[at..], self.counts.column_size(column))
    }

    /// The cells of a row, which counts from 1, and zeros up to nine.
    pub fn cells(&self, table: u8, n: u32) -> [u32; 9]
        requires from_one { 0 < n }
        requires there { n ≤ rows_of self.now.counts table }
        ensures { result ≡ row_of self.now.counts self.now.bytes table n }
    {
        let mut cells = [0; 9];
        let columns = columns(table);
        let before = n as usize - 1;
        let mut at = self.starts[usize::from(table)] + before * self.counts.row_size(table);
        for (k, column) in columns.iter().enumerate() {
            cells[k] = self.cell(at, *column);
            at += self.counts.column_size(*column);
        }
        cells
    }

    // Where the first index that names no row stands in columns of which the first stands at a place.
    fn bad_in_columns(&self, mut at: usize, columns: &[Column]) -> Option<usize>
        requires { at + sum_by (column_size self.now.counts) columns.now ≤ length self.now.bytes }
        ensures bad { result ≡ bad_in_columns self.now.counts self.now.bytes at columns.now }
        ensures inside { IfSome result (λ at. at ≤ length self.now.bytes) }
    {
        for column in columns {
            if self.counts.is_bad(*column, self.cell(at, *column)) {
                return Some(at);
            }
            at += self.counts.column_size(*column);
        }
        None
    }

    // The same in all rows of a table.
    fn bad_in_rows(&self, table: u8) -> Option<usize>
        requires { table < 64 }
        ensures bad { result ≡ bad_in_rows self.now.counts self.now.bytes table (start_of self.now.counts table) (rows_of self.now.counts table) }
        ensures inside { IfSome result (λ at. at ≤ length self.now.bytes) }
    {
        let columns = columns(table);
        let size = self.counts.row_size(table);
        let mut at = self.starts[usize::from(table)];
        for _row in 0..self.count(table) {
            let bad = self.bad_in_columns(at, columns);
            if bad.is_some() {
                return bad;
            }
            at += size;
        }
        None
    }

    // The same in all of these tables.
    fn bad_in_tables(&self, tables: &[u8]) -> Option<usize>
        requires { All (λ table. table < 64) tables.now }
        ensures bad { result ≡ bad_in_tables self.now.counts self.now.bytes tables.now }
        ensures inside { IfSome result (λ at. at ≤ length self.now.bytes) }
    {
        for table in tables {
            let bad = self.bad_in_rows(*table);
            if bad.is_some() {
                return bad;
            }
        }
        None
    }

    /// Where the first index that is looked at and names no row stands.
    #[tactic(auto, unfolding(crate::specs::Rows::first_bad))]
    pub fn first_bad(&self) -> Option<usize>
        ensures bad { result ≡ first_bad self.now.counts self.now.bytes }
        ensures inside { IfSome result (λ at. at ≤ length self.now.bytes) }
    {
        self.bad_in_tables(&LOOKED_AT)
    }
}
