// The opcode of an instruction without a token, and its operand.
ghost use Rattle.std.specs.Prelude.{◌≡◌};
ghost use Rattle.px_asm_opcodes.specs.Choosing as spec;

use crate::arrays::element_opcode;
use crate::flow::{branch_opcode, compared_branch, leave_opcode, truth_opcode};
use crate::moves::{move_opcode, move_operand};
use crate::numbers::{
    arithmetic_opcode, checked_opcode, compare_opcode, converted_checked_opcode, converted_opcode,
    division_opcode, shift_opcode, unary_opcode, unsigned_division_opcode,
};
use px_program::Code;

// `nop` and `break`.
fn break_opcode(is_break: bool) -> u16
    ensures { result ≡ spec.break_opcode is_break }
{
    if is_break { 0x01 } else { 0x00 }
}

// `throw` and `rethrow`.
fn throw_opcode(again: bool) -> u16
    ensures { result ≡ spec.throw_opcode again }
{
    if again { 0xFE1A } else { 0x7A }
}

/// The opcode, by what the instruction does and by its size in bytes; 0 where no opcode does that.
pub fn opcode_by(code: &Code, size: u32) -> u16
    ensures { result ≡ spec.opcode_by code.now size }
{
    match code {
        Code::Nop { is_break } => break_opcode(*is_break),
        Code::Move(step) => move_opcode(step, size),
        Code::Arithmetic(operation) => arithmetic_opcode(*operation),
        Code::Divide(part) => division_opcode(*part),
        Code::DivideUnsigned(part) => unsigned_division_opcode(*part),
        Code::Checked { operation, signed } => checked_opcode(*operation, *signed),
        Code::Shift(way) => shift_opcode(*way),
        Code::Unary(operation) => unary_opcode(*operation),
        Code::Convert(to) => converted_opcode(*to),
        Code::ConvertChecked { to, signed } => converted_checked_opcode(*to, *signed),
        Code::Compare { test, signed } => compare_opcode(*test, *signed),
        Code::Branch(_) => branch_opcode(0x2B, size),
        Code::BranchTruth { when, .. } => branch_opcode(truth_opcode(*when), size),
        Code::BranchCompare { test, signed, .. } => branch_opcode(
            compared_branch(*test, *signed),
            size,
        ),
        Code::Switch(_) => 0x45,
        Code::Length => 0x8E,
        Code::Element { store, form } => element_opcode(*store, *form),
        Code::Return => 0x2A,
        Code::Throw { again } => throw_opcode(*again),
        Code::Leave(_) => leave_opcode(size),
        Code::EndFinally => 0xDC,
        _ => 0,
    }
}

/// The operand; 0 where there is none.
pub fn operand_by(code: &Code, size: u32) -> u64
    ensures { result ≡ spec.operand_by code.now size }
{
    match code {
        Code::Move(step) => move_operand(step, size),
        _ => 0,
    }
}
