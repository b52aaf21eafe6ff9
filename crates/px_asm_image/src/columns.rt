// The cells of rows, as wide as their columns: Partition II, 24.2.6.
ghost use Rattle.std.specs.Prelude.{◌≡◌, ◌++◌, OnOk};
ghost use Rattle.px_tables.specs.Columns.{columns_of};
ghost use Rattle.px_asm_image.specs.Metadata.{cell_bytes};

use crate::part::push_number;
use px_tables::{Counts, Row, columns};
use std::alloc::AllocError;

/// A row of a table.
pub fn push_row(out: &mut Vec<u8>, counts: &Counts, table: u8, row: &Row) -> Result<(), AllocError>
    ensures { OnOk result (out.new.items ≡ out.old.items ++ cell_bytes counts.now (columns_of table) row.now.cells) }
{
    let columns = columns(table);
    for (k, column) in columns.iter().enumerate() {
        push_number(out, counts.column_size(*column), row.cells[k])?;
    }
    Ok(())
}
