// Elements of arrays.
ghost use Rattle.std.specs.Prelude.{◌≡◌};
ghost use Rattle.px_asm_opcodes.specs.Choosing as spec;

use px_program::{ElementForm, IntegerType};

// `ldelem` of an integer type.
fn loaded_opcode(integer: IntegerType) -> u16
    ensures { result ≡ spec.loaded_opcode integer }
{
    match integer {
        IntegerType::I1 => 0x90,
        IntegerType::U1 => 0x91,
        IntegerType::I2 => 0x92,
        IntegerType::U2 => 0x93,
        IntegerType::I4 => 0x94,
        IntegerType::U4 => 0x95,
        IntegerType::I8 => 0x96,
        IntegerType::N => 0x97,
        IntegerType::U8 | IntegerType::UN => 0,
    }
}

// `stelem` of an integer type.
fn stored_opcode(integer: IntegerType) -> u16
    ensures { result ≡ spec.stored_opcode integer }
{
    match integer {
        IntegerType::N => 0x9B,
        IntegerType::I1 => 0x9C,
        IntegerType::I2 => 0x9D,
        IntegerType::I4 => 0x9E,
        IntegerType::I8 => 0x9F,
        IntegerType::U1 | IntegerType::U2 | IntegerType::U4 | IntegerType::U8 | IntegerType::UN =>
            0,
    }
}

/// What reads or writes an element without a token.
pub fn element_opcode(store: bool, form: ElementForm) -> u16
    ensures { result ≡ spec.element_opcode store form }
{
    match form {
        ElementForm::Integer(integer) if store => stored_opcode(integer),
        ElementForm::Integer(integer) => loaded_opcode(integer),
        ElementForm::Reference if store => 0xA2,
        ElementForm::Reference => 0x9A,
        ElementForm::Typed(_) => 0,
    }
}
