// The rows of Field: Partition II, 22.15.
ghost use Rattle.std.specs.Prelude.{◌≡◌, ◌<◌, ◌++◌, IfOk, OnOk, length, map, slice_get};
ghost use Rattle.std.specs.List.{AllByRecursion, AllZip, flat_map};
ghost use Rattle.px_program.specs.Formed.{FitsPlace};
ghost use Rattle.px_asm_described.specs.Writable.{IsText};
ghost use Rattle.px_asm_law_written.specs.Holds.{IsFieldDef};
ghost use Rattle.px_asm_law_written.specs.Store.{StoreGrows};
ghost use Rattle.px_asm_law_written.specs.Tokens.{fields_in, fields_of};

use itoa::Buffer;
use px_asm_store::{Rows, Store, type_of};
use px_program::{Place, TypeInfo};
use px_tables::Row;
use std::alloc::{AllocError, Global};

// A field that others see: Partition II, 23.1.5.
const PUBLIC: u32 = 0x0006;

// A field that is static.
const STATIC: u32 = 0x0010;

// The fields of some types, one type after the other, each with whether it is static: those of instances first, and then the static ones.
fn fields_of(
    alloc: Global,
    types: &[TypeInfo],
    numbers: &[u32],
) -> Result<Vec<(bool, Place)>, AllocError>
    requires { AllByRecursion (λ number. number < length types.now) numbers.now }
    ensures { IfOk result (λ fields. fields.items ≡ flat_map (λ number. fields_in (slice_get types.now number)) numbers.now) }
{
    let mut fields = Vec::new(alloc);
    for number in numbers {
        let info = &types[*number as usize];
        push_fields(&mut fields, false, info.fields.as_slice())?;
        push_fields(&mut fields, true, info.statics.as_slice())?;
    }
    Ok(fields)
}

// Adds fields that are all static or all not.
fn push_fields(
    fields: &mut Vec<(bool, Place)>,
    is_static: bool,
    places: &[Place],
) -> Result<(), AllocError>
    ensures { OnOk result (fields.new.items ≡ fields.old.items ++ map (λ place. (is_static, place)) places.now) }
{
    for place in places {
        fields.push((is_static, *place))?;
    }
    Ok(())
}

// The name of the field of a number.
fn field_name(alloc: Global, number: usize) -> Result<Vec<u8>, AllocError>
    ensures { IfOk result (λ name. IsText name.items) }
{
    let mut buffer = Buffer::new();
    let mut name = Vec::from_slice(alloc, b"f")?;
    name.extend_from_slice(buffer.format(number).as_bytes())?;
    Ok(name)
}

// The row of a field, which has a number for a name.
fn field_row(
    alloc: Global,
    rows: &Rows,
    store: &mut Store,
    field: (bool, Place),
    number: usize,
) -> Result<Row, AllocError>
    requires { FitsPlace rows.now.types field.1 }
    ensures row { IfOk result (IsFieldDef rows.now store.new field) }
    ensures grows { OnOk result (StoreGrows store.old store.new) }
{
    let (is_static, place) = field;
    let name = field_name(alloc, number)?;
    let name = store.name(&name)?;
    let item = type_of(rows, place);
    let sig = store.field_sig(&item)?;
    let flags = if is_static { PUBLIC + STATIC } else { PUBLIC };
    Ok(Row {
        cells: [flags, name, sig, 0, 0, 0, 0, 0, 0],
    })
}

// The rows of fields.
fn field_rows(
    alloc: Global,
    rows: &Rows,
    store: &mut Store,
    fields: &[(bool, Place)],
) -> Result<Vec<Row>, AllocError>
    requires { AllByRecursion (λ field. FitsPlace rows.now.types field.1) fields.now }
    ensures are { IfOk result (λ made. AllZip (IsFieldDef rows.now store.new) fields.now made.items) }
    ensures grows { OnOk result (StoreGrows store.old store.new) }
{
    let mut made = Vec::new(alloc);
    for (number, field) in fields.iter().enumerate() {
        made.push(field_row(alloc, rows, store, *field, number)?)?;
    }
    Ok(made)
}

/// The rows of the fields of the types of the assembly.
pub fn field_defs(alloc: Global, rows: &Rows, store: &mut Store) -> Result<Vec<Row>, AllocError>
    ensures are { IfOk result (λ made. AllZip (IsFieldDef rows.now store.new) (fields_of rows.now rows.now.layout.types) made.items) }
    ensures grows { OnOk result (StoreGrows store.old store.new) }
{
    let program = rows.program();
    let fields = fields_of(
        alloc,
        program.types.as_slice(),
        program.layout.types.as_slice(),
    )?;
    field_rows(alloc, rows, store, &fields)
}
