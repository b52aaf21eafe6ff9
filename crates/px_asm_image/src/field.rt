// Fields of headers, which are written one after the other.
ghost use Rattle.std.specs.Prelude.{◌≡◌, ◌++◌, IfOk};
ghost use Rattle.std.specs.List.{flat_map};
ghost use Rattle.px_asm_image.specs.Parts.{field_bytes};

use std::alloc::AllocError;

/// A field of a header, or fields that are zero.
#[derive(Clone, Copy)]
pub enum Field {
    Mark([u8; 4]),
    U16(u16),
    U32(u32),
    Zeros(u16),
}

// Appends the bytes of a field.
fn push_field(file: &mut Vec<u8>, field: Field) -> Result<(), AllocError>
    ensures { IfOk result (λ _. file.new.items ≡ file.old.items ++ field_bytes field) }
{
    match field {
        Field::Mark(mark) => file.extend_from_slice(&mark),
        Field::U16(number) => file.extend_from_slice(&number.to_le_bytes()),
        Field::U32(number) => file.extend_from_slice(&number.to_le_bytes()),
        Field::Zeros(count) => file.resize(file.len() + usize::from(count), 0),
    }
}

/// Appends the bytes of fields.
pub fn push_fields(file: &mut Vec<u8>, fields: &[Field]) -> Result<(), AllocError>
    ensures { IfOk result (λ _. file.new.items ≡ file.old.items ++ flat_map field_bytes fields.now) }
{
    for field in fields {
        push_field(file, *field)?;
    }
    Ok(())
}
