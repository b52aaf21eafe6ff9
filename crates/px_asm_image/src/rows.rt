// The stream of the tables: Partition II, 24.2.6.
ghost use Rattle.std.specs.Prelude.{◌≡◌, ℕ, ◌+◌, ◌<◌, ◌≤◌, ◌++◌, ◌^◌, [], IfOk, OnOk, length, slice_index_or};
ghost use Rattle.px_asm_image.specs.Layout.{counts_of};
ghost use Rattle.px_asm_image.specs.Metadata.{count_bytes, count_of, mask_of, row_bytes, table_bytes, tables_stream};

use crate::columns::push_row;
use crate::part::push_number;
use px_tables::{Counts, Row};
use sqlite_items::Items;
use std::alloc::{AllocError, Global};

// Version 2.0, and all indexes of heaps are wide.
static HEAD: [u8; 8] = [0, 0, 0, 0, 2, 0, 7, 1];

/// What the header says of the tables.
pub fn counts_of(tables: &[Items<Row>]) -> Counts
    requires tables { length tables.now ≤ 64 }
    requires rows { (table : ℕ) → length (slice_index_or tables.now table []) < 2 ^ 24 }
    ensures { result ≡ counts_of tables.now }
{
    let mut rows = [0; 64];
    for (table, listed) in tables.iter().enumerate() {
        rows[table] = listed.len() as u32;
    }
    Counts {
        heap_sizes: 7,
        rows,
    }
}

// The mask of the tables that have rows.
fn mask_of(tables: &[Items<Row>]) -> u64
    requires { length tables.now ≤ 64 }
    ensures { result ≡ mask_of tables.now }
{
    let mut mask = 0;
    for (table, rows) in tables.iter().enumerate() {
        mask += u64::from(!rows.is_empty()) << table;
    }
    mask
}

// The count of a table, if it has rows.
fn push_count(out: &mut Vec<u8>, rows: &[Row]) -> Result<(), AllocError>
    requires { length rows.now < 2 ^ 24 }
    ensures { OnOk result (out.new.items ≡ out.old.items ++ count_of rows.now) }
{
    if rows.is_empty() {
        return Ok(());
    }
    push_number(out, 4, rows.len() as u32)
}

// The counts of the tables that have rows.
fn push_counts(out: &mut Vec<u8>, tables: &[Items<Row>]) -> Result<(), AllocError>
    requires { (table : ℕ) → length (slice_index_or tables.now table []) < 2 ^ 24 }
    ensures { OnOk result (out.new.items ≡ out.old.items ++ count_bytes tables.now) }
{
    for rows in tables {
        push_count(out, rows.as_slice())?;
    }
    Ok(())
}

// The rows of a table.
fn push_rows(out: &mut Vec<u8>, counts: &Counts, table: u8, rows: &[Row]) -> Result<(), AllocError>
    ensures { OnOk result (out.new.items ≡ out.old.items ++ row_bytes counts.now table rows.now) }
{
    for row in rows {
        push_row(out, counts, table, row)?;
    }
    Ok(())
}

// The rows of all tables.
fn push_tables(out: &mut Vec<u8>, counts: &Counts, tables: &[Items<Row>]) -> Result<(), AllocError>
    requires { length tables.now ≤ 64 }
    ensures { OnOk result (out.new.items ≡ out.old.items ++ table_bytes counts.now 0 tables.now) }
{
    for (table, rows) in tables.iter().enumerate() {
        push_rows(out, counts, table as u8, rows.as_slice())?;
    }
    Ok(())
}

/// The stream of the tables: its header, the counts and the rows.
pub fn tables_stream(alloc: Global, tables: &[Items<Row>]) -> Result<Vec<u8>, AllocError>
    requires tables { length tables.now ≤ 64 }
    requires rows { (table : ℕ) → length (slice_index_or tables.now table []) < 2 ^ 24 }
    ensures { IfOk result (λ bytes. bytes.items ≡ tables_stream tables.now) }
{
    let mut out = Vec::from_slice(alloc, &HEAD)?;
    out.extend_from_slice(&mask_of(tables).to_le_bytes())?;
    out.extend_from_slice(&[0; 8])?;
    push_counts(&mut out, tables)?;
    push_tables(&mut out, &counts_of(tables), tables)?;
    Ok(out)
}
