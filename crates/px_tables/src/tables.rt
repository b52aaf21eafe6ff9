// The tables and heaps of metadata: Partition II, 22 and 24.
ghost use Rattle.std.specs.Prelude.{◌≡◌, ◌≤◌, ◌<◌, ◌^◌, length, IfOk, None};
ghost use Rattle.px_tables.specs.Counts.{rows_of};
ghost use Rattle.px_tables.specs.Metadata.{heap_of, metadata_of, rows_in, IsSound};
ghost use Rattle.px_tables.specs.Rows.{first_bad, row_of, start_of};

use crate::column::Heap;
use crate::fault::{TableFault, TableKind};
use crate::header::Header;
use crate::part::Part;
use crate::rows::Rows;
use crate::streams::{Found, root_of};
use std::marker::Model;

/// A row of a table: the numbers in its columns as they stand, and zeros up to nine.
#[derive(Clone, Copy, PartialEq, Eq)]
pub struct Row {
    pub cells: [u32; 9],
}

/// The tables and heaps of metadata. Nothing is copied. A heap that is missing is empty.
#[derive(Drop)]
pub struct Tables<'a> {
    rows: Rows<'a>,
    strings: &'a [u8],
    user_strings: &'a [u8],
    guid: &'a [u8],
    blob: &'a [u8],
}

impl<'a> Model for Tables<'a> {
    ghost use Rattle.px_tables.specs.Metadata.{View};

    ghost Value = { View };

    ghost use Rattle.px_tables.specs.Metadata.{IsSound};

    ghost view = { λ t. record { counts = t.rows.counts; rows = t.rows.bytes; strings = t.strings.now; user_strings = t.user_strings.now; guid = t.guid.now; blob = t.blob.now } };

    ghost invariant = { λ t. IsSound (record { counts = t.rows.counts; rows = t.rows.bytes; strings = t.strings.now; user_strings = t.user_strings.now; guid = t.guid.now; blob = t.blob.now }) };
}

impl<'a> Tables<'a> {
    /// How many rows a table has; none where it isn't there.
    pub fn rows(&self, table: u8) -> u32
        ensures rows { result ≡ rows_of self.now.counts table }
        ensures sound { IsSound self.now }
    {
        self.rows.count(table)
    }

    /// A row of a table by its number, which counts from 1.
    pub fn row(&self, table: u8, n: u32) -> Row
        requires from_one { 0 < n }
        requires there { n ≤ rows_of self.now.counts table }
        ensures cells { result.cells ≡ row_of self.now.counts self.now.rows table n }
        ensures sound { IsSound self.now }
    {
        Row {
            cells: self.rows.cells(table, n),
        }
    }

    /// The bytes of a heap.
    pub fn heap(&self, heap: Heap) -> &'a [u8]
        ensures bytes { result.now ≡ heap_of self.now heap }
        ensures sound { IsSound self.now }
    {
        match heap {
            Heap::Strings => self.strings,
            Heap::UserStrings => self.user_strings,
            Heap::Guid => self.guid,
            Heap::Blob => self.blob,
        }
    }
}

// The rows behind the header of the tables. Neither is a row of them cut, nor an index that is looked at bad.
#[tactic(auto, unfolding(crate::specs::Metadata::rows_in))]
fn rows_in<'a>(part: &Part<'a>, header: &Header) -> Result<Rows<'a>, TableFault>
    requires { header.now.behind ≤ length part.now.bytes }
    ensures exact { result ≡ rows_in part.now header.now }
    ensures good { IfOk result (λ rows. first_bad rows.counts rows.bytes ≡ None) }
    ensures short { IfOk result (λ rows. length rows.bytes < 2 ^ 31) }
    ensures whole { IfOk result (λ rows. start_of rows.counts 64 ≤ length rows.bytes) }
{
    if header.has_unknown() {
        return Err(TableKind::UnknownTable.at(part.start() + 8));
    }
    let start = part.start() + header.behind;
    let rows = match Rows::new(header.counts, &part.bytes()[header.behind..]) {
        Ok(rows) => rows,
        Err(at) => return Err(TableKind::Cut.at(start + at)),
    };
    match rows.first_bad() {
        Some(at) => Err(TableKind::BadIndex.at(start + at)),
        None => Ok(rows),
    }
}

/// Reads the root, the streams and the header of the tables, and sees that each row and each index that later calls follow is there. It takes no memory.
/// The fault is the first one in the order of the parts: the root, the streams by their headers, the header of the tables, the rows, the indexes.
#[tactic(auto, unfolding(crate::specs::Metadata::metadata_of))]
pub fn read_tables<'a>(metadata: &'a [u8]) -> Result<Tables<'a>, TableFault>
    requires { length metadata.now < 2 ^ 31 }
    ensures exact { result ≡ metadata_of metadata.now }
    ensures sound { IfOk result IsSound }
{
    let root = root_of(metadata)?;
    let streams = Found::read(metadata, root)?.streams(root.first)?;
    let header = Header::read(&streams.tables)?;
    let rows = rows_in(&streams.tables, &header)?;
    Ok(Tables {
        rows,
        strings: streams.strings.bytes(),
        user_strings: streams.user_strings.bytes(),
        guid: streams.guid.bytes(),
        blob: streams.blob.bytes(),
    })
}
