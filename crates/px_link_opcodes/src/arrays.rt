// Elements of arrays.
ghost use Rattle.std.specs.Prelude.{◌≡◌, true, false, Option, Some, None};
ghost use Rattle.px_link_opcodes.specs.Opcodes as spec;
ghost use Rattle.px_link_opcodes.specs.Opcodes.{◌orelse◌};

use px_program::{Code, ElementForm, IntegerType};

// What `ldelem` says of the elements.
#[tactic(auto, unfolding(crate::specs::Opcodes::loaded))]
fn loaded(opcode: u16) -> Option<ElementForm>
    ensures { result ≡ spec.loaded opcode }
{
    Some(match opcode {
        0x90 => ElementForm::Integer(IntegerType::I1),
        0x91 => ElementForm::Integer(IntegerType::U1),
        0x92 => ElementForm::Integer(IntegerType::I2),
        0x93 => ElementForm::Integer(IntegerType::U2),
        0x94 => ElementForm::Integer(IntegerType::I4),
        0x95 => ElementForm::Integer(IntegerType::U4),
        0x96 => ElementForm::Integer(IntegerType::I8),
        0x97 => ElementForm::Integer(IntegerType::N),
        0x9A => ElementForm::Reference,
        _ => return None,
    })
}

// What `stelem` says of the elements.
#[tactic(auto, unfolding(crate::specs::Opcodes::stored))]
fn stored(opcode: u16) -> Option<ElementForm>
    ensures { result ≡ spec.stored opcode }
{
    Some(match opcode {
        0x9B => ElementForm::Integer(IntegerType::N),
        0x9C => ElementForm::Integer(IntegerType::I1),
        0x9D => ElementForm::Integer(IntegerType::I2),
        0x9E => ElementForm::Integer(IntegerType::I4),
        0x9F => ElementForm::Integer(IntegerType::I8),
        0xA2 => ElementForm::Reference,
        _ => return None,
    })
}

/// What reads or writes an element without a token.
pub fn element_code(opcode: u16) -> Option<Code>
    ensures { result ≡ spec.reaches false (spec.loaded opcode) orelse spec.reaches true (spec.stored opcode) }
{
    if let Some(form) = loaded(opcode) {
        return Some(Code::Element { store: false, form });
    }
    let form = stored(opcode)?;
    Some(Code::Element { store: true, form })
}
