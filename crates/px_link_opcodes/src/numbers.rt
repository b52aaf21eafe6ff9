// Arithmetic, comparisons and conversions.
ghost use Rattle.std.specs.Prelude.{◌≡◌, true, false, Option, Some, None};
ghost use Rattle.px_link_opcodes.specs.Opcodes as spec;
ghost use Rattle.px_link_opcodes.specs.Opcodes.{◌orelse◌};

use px_program::{Arithmetic, Checked, Code, Division, IntegerType, Shift, Test, Unary};

/// Arithmetic that wraps, divisions, shifts, and `neg` and `not`.
#[tactic(auto, unfolding(crate::specs::Opcodes::arithmetic_code))]
pub fn arithmetic_code(opcode: u16) -> Option<Code>
    ensures { result ≡ spec.arithmetic_code opcode }
{
    Some(match opcode {
        0x58 => Code::Arithmetic(Arithmetic::Add),
        0x59 => Code::Arithmetic(Arithmetic::Sub),
        0x5A => Code::Arithmetic(Arithmetic::Mul),
        0x5B => Code::Divide(Division::Quotient),
        0x5C => Code::DivideUnsigned(Division::Quotient),
        0x5D => Code::Divide(Division::Remainder),
        0x5E => Code::DivideUnsigned(Division::Remainder),
        0x5F => Code::Arithmetic(Arithmetic::And),
        0x60 => Code::Arithmetic(Arithmetic::Or),
        0x61 => Code::Arithmetic(Arithmetic::Xor),
        0x62 => Code::Shift(Shift::Left),
        0x63 => Code::Shift(Shift::Right),
        0x64 => Code::Shift(Shift::RightUnsigned),
        0x65 => Code::Unary(Unary::Negate),
        0x66 => Code::Unary(Unary::Complement),
        _ => return None,
    })
}

// An operation that throws where the result is out of range.
fn checked(operation: Checked, signed: bool) -> Code
    ensures { result ≡ Code.Checked operation signed }
{
    Code::Checked { operation, signed }
}

fn compare(test: Test, signed: bool) -> Code
    ensures { result ≡ Code.Compare test signed }
{
    Code::Compare { test, signed }
}

/// Operations that throw where the result is out of range, and comparisons.
#[tactic(auto, unfolding(crate::specs::Opcodes::checked_code))]
pub fn checked_code(opcode: u16) -> Option<Code>
    ensures { result ≡ spec.checked_code opcode }
{
    Some(match opcode {
        0xD6 => checked(Checked::Add, true),
        0xD7 => checked(Checked::Add, false),
        0xD8 => checked(Checked::Mul, true),
        0xD9 => checked(Checked::Mul, false),
        0xDA => checked(Checked::Sub, true),
        0xDB => checked(Checked::Sub, false),
        0xFE01 => compare(Test::Eq, true),
        0xFE02 => compare(Test::Gt, true),
        0xFE03 => compare(Test::Gt, false),
        0xFE04 => compare(Test::Lt, true),
        0xFE05 => compare(Test::Lt, false),
        _ => return None,
    })
}

// The type that `conv` leads to.
#[tactic(auto, unfolding(crate::specs::Opcodes::converted))]
fn converted(opcode: u16) -> Option<IntegerType>
    ensures { result ≡ spec.converted opcode }
{
    Some(match opcode {
        0x67 => IntegerType::I1,
        0x68 => IntegerType::I2,
        0x69 => IntegerType::I4,
        0x6A => IntegerType::I8,
        0x6D => IntegerType::U4,
        0x6E => IntegerType::U8,
        0xD1 => IntegerType::U2,
        0xD2 => IntegerType::U1,
        0xD3 => IntegerType::N,
        0xE0 => IntegerType::UN,
        _ => return None,
    })
}

// The type that `conv.ovf` leads to.
#[tactic(auto, unfolding(crate::specs::Opcodes::converted_checked))]
fn converted_checked(opcode: u16) -> Option<IntegerType>
    ensures { result ≡ spec.converted_checked opcode }
{
    Some(match opcode {
        0xB3 => IntegerType::I1,
        0xB4 => IntegerType::U1,
        0xB5 => IntegerType::I2,
        0xB6 => IntegerType::U2,
        0xB7 => IntegerType::I4,
        0xB8 => IntegerType::U4,
        0xB9 => IntegerType::I8,
        0xBA => IntegerType::U8,
        0xD4 => IntegerType::N,
        0xD5 => IntegerType::UN,
        _ => return None,
    })
}

// The type that `conv.ovf` with `.un` leads to.
#[tactic(auto, unfolding(crate::specs::Opcodes::converted_unsigned))]
fn converted_unsigned(opcode: u16) -> Option<IntegerType>
    ensures { result ≡ spec.converted_unsigned opcode }
{
    Some(match opcode {
        0x82 => IntegerType::I1,
        0x83 => IntegerType::I2,
        0x84 => IntegerType::I4,
        0x85 => IntegerType::I8,
        0x86 => IntegerType::U1,
        0x87 => IntegerType::U2,
        0x88 => IntegerType::U4,
        0x89 => IntegerType::U8,
        0x8A => IntegerType::N,
        0x8B => IntegerType::UN,
        _ => return None,
    })
}

/// Conversions to an integer type.
pub fn conversion_code(opcode: u16) -> Option<Code>
    ensures { result ≡ spec.converts (spec.converted opcode) orelse spec.converts_checked true (spec.converted_checked opcode) orelse spec.converts_checked false (spec.converted_unsigned opcode) }
{
    if let Some(to) = converted(opcode) {
        return Some(Code::Convert(to));
    }
    if let Some(to) = converted_checked(opcode) {
        return Some(Code::ConvertChecked { to, signed: true });
    }
    let to = converted_unsigned(opcode)?;
    Some(Code::ConvertChecked { to, signed: false })
}
