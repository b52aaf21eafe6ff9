// The rows of MethodImpl: Partition II, 22.27.
ghost use Rattle.std.specs.Prelude.{◌<◌, IfOk, length, slice_get};
ghost use Rattle.std.specs.List.{AllByRecursion, AllZip, flat_map};
ghost use Rattle.px_asm_law_written.specs.Holds.{IsImplRow, pair_of};

use px_asm_store::Rows;
use px_tables::Row;
use std::alloc::{AllocError, Global};

// The row that says that a method overrides another.
fn impl_row(rows: &Rows, number: u32, over: u32) -> Row
    requires there { number < length rows.now.methods }
    requires over { over < length rows.now.methods }
    ensures { IsImplRow rows.now (number, over) result }
{
    let owner = rows.program().methods.as_slice()[number as usize].owner;
    let class = rows.type_row(owner);
    let body = 2 * rows.method_row(number);
    let declaration = 2 * rows.method_row(over);
    Row {
        cells: [class, body, declaration, 0, 0, 0, 0, 0, 0],
    }
}

/// The rows of those of some methods that override one.
pub fn impl_rows(alloc: Global, rows: &Rows, numbers: &[u32]) -> Result<Vec<Row>, AllocError>
    requires { AllByRecursion (λ number. number < length rows.now.methods) numbers.now }
    ensures { IfOk result (λ made. AllZip (IsImplRow rows.now) (flat_map (λ number. pair_of number (slice_get rows.now.layout.slots number)) numbers.now) made.items) }
{
    let slots = rows.program().layout.slots.as_slice();
    let mut made = Vec::new(alloc);
    for number in numbers {
        if let Some(over) = slots[*number as usize].overridden {
            made.push(impl_row(rows, *number, over))?;
        }
    }
    Ok(made)
}
