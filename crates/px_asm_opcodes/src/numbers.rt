// Arithmetic, comparisons and conversions.
ghost use Rattle.std.specs.Prelude.{◌≡◌};
ghost use Rattle.px_asm_opcodes.specs.Choosing as spec;

use px_program::{Arithmetic, Checked, Division, IntegerType, Shift, Test, Unary};

/// Arithmetic that wraps.
pub fn arithmetic_opcode(operation: Arithmetic) -> u16
    ensures { result ≡ spec.arithmetic_opcode operation }
{
    match operation {
        Arithmetic::Add => 0x58,
        Arithmetic::Sub => 0x59,
        Arithmetic::Mul => 0x5A,
        Arithmetic::And => 0x5F,
        Arithmetic::Or => 0x60,
        Arithmetic::Xor => 0x61,
    }
}

/// Divisions of signed numbers.
pub fn division_opcode(part: Division) -> u16
    ensures { result ≡ spec.division_opcode part }
{
    match part {
        Division::Quotient => 0x5B,
        Division::Remainder => 0x5D,
    }
}

/// Divisions of unsigned numbers.
pub fn unsigned_division_opcode(part: Division) -> u16
    ensures { result ≡ spec.unsigned_division_opcode part }
{
    match part {
        Division::Quotient => 0x5C,
        Division::Remainder => 0x5E,
    }
}

/// Shifts.
pub fn shift_opcode(way: Shift) -> u16
    ensures { result ≡ spec.shift_opcode way }
{
    match way {
        Shift::Left => 0x62,
        Shift::Right => 0x63,
        Shift::RightUnsigned => 0x64,
    }
}

/// `neg` and `not`.
pub fn unary_opcode(operation: Unary) -> u16
    ensures { result ≡ spec.unary_opcode operation }
{
    match operation {
        Unary::Negate => 0x65,
        Unary::Complement => 0x66,
    }
}

// One opcode for signed numbers, and one for unsigned numbers.
fn by_sign(is_signed: bool, signed: u16, unsigned: u16) -> u16
    ensures { result ≡ spec.by_sign is_signed signed unsigned }
{
    if is_signed { signed } else { unsigned }
}

/// Operations that throw where the result is out of range.
pub fn checked_opcode(operation: Checked, signed: bool) -> u16
    ensures { result ≡ spec.checked_opcode operation signed }
{
    match operation {
        Checked::Add => by_sign(signed, 0xD6, 0xD7),
        Checked::Mul => by_sign(signed, 0xD8, 0xD9),
        Checked::Sub => by_sign(signed, 0xDA, 0xDB),
    }
}

/// Comparisons, of which there are three.
pub fn compare_opcode(test: Test, signed: bool) -> u16
    ensures { result ≡ spec.compare_opcode test signed }
{
    match test {
        Test::Eq => 0xFE01,
        Test::Gt => by_sign(signed, 0xFE02, 0xFE03),
        Test::Lt => by_sign(signed, 0xFE04, 0xFE05),
        Test::Ne | Test::Ge | Test::Le => 0,
    }
}

/// Conversions that keep the low bits.
pub fn converted_opcode(to: IntegerType) -> u16
    ensures { result ≡ spec.converted_opcode to }
{
    match to {
        IntegerType::I1 => 0x67,
        IntegerType::I2 => 0x68,
        IntegerType::I4 => 0x69,
        IntegerType::I8 => 0x6A,
        IntegerType::U4 => 0x6D,
        IntegerType::U8 => 0x6E,
        IntegerType::U2 => 0xD1,
        IntegerType::U1 => 0xD2,
        IntegerType::N => 0xD3,
        IntegerType::UN => 0xE0,
    }
}

// Conversions that throw, of numbers that are read signed.
fn signed_opcode(to: IntegerType) -> u16
    ensures { result ≡ spec.signed_opcode to }
{
    match to {
        IntegerType::I1 => 0xB3,
        IntegerType::U1 => 0xB4,
        IntegerType::I2 => 0xB5,
        IntegerType::U2 => 0xB6,
        IntegerType::I4 => 0xB7,
        IntegerType::U4 => 0xB8,
        IntegerType::I8 => 0xB9,
        IntegerType::U8 => 0xBA,
        IntegerType::N => 0xD4,
        IntegerType::UN => 0xD5,
    }
}

// Conversions that throw, of numbers that are read unsigned.
fn unsigned_opcode(to: IntegerType) -> u16
    ensures { result ≡ spec.unsigned_opcode to }
{
    match to {
        IntegerType::I1 => 0x82,
        IntegerType::I2 => 0x83,
        IntegerType::I4 => 0x84,
        IntegerType::I8 => 0x85,
        IntegerType::U1 => 0x86,
        IntegerType::U2 => 0x87,
        IntegerType::U4 => 0x88,
        IntegerType::U8 => 0x89,
        IntegerType::N => 0x8A,
        IntegerType::UN => 0x8B,
    }
}

/// Conversions that throw where the result is out of range.
pub fn converted_checked_opcode(to: IntegerType, signed: bool) -> u16
    ensures { result ≡ spec.converted_checked_opcode to signed }
{
    if signed {
        signed_opcode(to)
    } else {
        unsigned_opcode(to)
    }
}
