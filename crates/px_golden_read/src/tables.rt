// Answers about the tables of metadata.
ghost use Rattle.std.specs.Prelude.{◌<◌, ◌^◌, length};

use crate::pieces::Piece::Number;
use crate::pieces::{put_fault, put_list, put_pieces};
use crate::question::Question;
use px_tables::{Heap, TableFault, TableKind, Tables, read_tables};
use std::alloc::AllocError;

fn kind_text(kind: TableKind) -> &'static str {
    match kind {
        TableKind::BadRoot => "BadRoot",
        TableKind::NoStream => "NoStream",
        TableKind::BadVersion => "BadVersion",
        TableKind::UnknownTable => "UnknownTable",
        TableKind::Cut => "Cut",
        TableKind::BadIndex => "BadIndex",
    }
}

/// Writes why the tables aren't read.
pub fn put_table_fault(text: &mut String, fault: TableFault) -> Result<(), AllocError> {
    put_fault(text, kind_text(fault.kind), fault.at)
}

// The number of a table; one that is too great for a table becomes one that none has.
fn table_of(number: u32) -> u8 {
    number.min(0xFF) as u8
}

// Writes the cells of a row.
fn put_row(text: &mut String, tables: &Tables, table: u8, n: u32) -> Result<(), AllocError> {
    if n == 0 || tables.rows(table) < n {
        return text.push_str("none");
    }
    put_list(text, &tables.row(table, n).cells)
}

fn put_heap(text: &mut String, tables: &Tables, heap: Heap) -> Result<(), AllocError> {
    let bytes = tables.heap(heap);
    write!(text, "{bytes:?}")
}

/// Answers a question about tables.
pub fn put_of(text: &mut String, tables: &Tables, question: Question) -> Result<(), AllocError> {
    let table = table_of(question.first);
    match question.word {
        "copy" => text.push_str("read"),
        "rows" => put_pieces(text, &[Number(tables.rows(table))]),
        "row" => put_row(text, tables, table, question.second),
        "strings" => put_heap(text, tables, Heap::Strings),
        "texts" => put_heap(text, tables, Heap::UserStrings),
        "guids" => put_heap(text, tables, Heap::Guid),
        "blobs" => put_heap(text, tables, Heap::Blob),
        _ => text.push_str("no question"),
    }
}

/// Writes that the tables are read; or for `rows TABLE` how many a table has, for `row TABLE NUMBER` the cells of a row,
/// and for `strings`, `texts`, `guids` and `blobs` the bytes of a heap.
pub fn put_answer(text: &mut String, bytes: &[u8], question: Question) -> Result<(), AllocError>
    requires { length bytes.now < 2 ^ 31 }
{
    match read_tables(bytes) {
        Ok(tables) => put_of(text, &tables, question),
        Err(fault) => put_table_fault(text, fault),
    }
}
