// What instructions without a token do, by their opcodes.
ghost use Rattle.std.specs.Prelude.{◌≡◌, ◌<◌, true, false, length, slice_index, IfOk, Option, Some, None};
ghost use Rattle.px_link_opcodes.specs.Opcodes as spec;
ghost use Rattle.px_link_opcodes.specs.Opcodes.{◌orelse◌};

use crate::arrays::element_code;
use crate::flow::flow_code;
use crate::naming::outside;
use crate::numbers::{arithmetic_code, checked_code, conversion_code};
use px_code::RawInstr;
use px_program::{Code, Move};
use std::alloc::{AllocError, Global};

// A byte with its sign, as a pattern of 32 bits.
fn signed_byte(byte: u32) -> u32
    requires { byte < 256 }
    ensures { result ≡ spec.signed_byte byte }
{
    if byte < 128 { byte } else { byte + 0xFFFF_FF00 }
}

// A move from or to a slot, whose number stands in the opcode, in one byte or in two.
#[tactic(auto, unfolding(crate::specs::Opcodes::slot_move))]
fn slot_move(opcode: u16, operand: u64) -> Option<Move>
    ensures { result ≡ spec.slot_move opcode operand }
{
    let small = (operand % (1 << 8)) as u32;
    let large = (operand % (1 << 16)) as u32;
    Some(match opcode {
        0x02..=0x05 => Move::Argument(u32::from(opcode) - 0x02),
        0x06..=0x09 => Move::Local(u32::from(opcode) - 0x06),
        0x0A..=0x0D => Move::SetLocal(u32::from(opcode) - 0x0A),
        0x0E => Move::Argument(small),
        0x10 => Move::SetArgument(small),
        0x11 => Move::Local(small),
        0x13 => Move::SetLocal(small),
        0xFE09 => Move::Argument(large),
        0xFE0B => Move::SetArgument(large),
        0xFE0C => Move::Local(large),
        0xFE0E => Move::SetLocal(large),
        _ => return None,
    })
}

// A constant, or what moves on the stack alone.
#[tactic(auto, unfolding(crate::specs::Opcodes::stack_move))]
fn stack_move(opcode: u16, operand: u64) -> Option<Move>
    ensures { result ≡ spec.stack_move opcode operand }
{
    Some(match opcode {
        0x14 => Move::Null,
        0x15 => Move::Constant32(0xFFFF_FFFF),
        0x16..=0x1E => Move::Constant32(u32::from(opcode) - 0x16),
        0x1F => Move::Constant32(signed_byte((operand % (1 << 8)) as u32)),
        0x20 => Move::Constant32((operand % (1 << 32)) as u32),
        0x21 => Move::Constant64(operand),
        0x25 => Move::Duplicate,
        0x26 => Move::Pop,
        _ => return None,
    })
}

// What moves values between slots and the stack, or on the stack alone.
fn move_code(opcode: u16, operand: u64) -> Option<Code>
    ensures { result ≡ spec.moves (spec.slot_move opcode operand) orelse spec.moves (spec.stack_move opcode operand) }
{
    if let Some(step) = slot_move(opcode, operand) {
        return Some(Code::Move(step));
    }
    Some(Code::Move(stack_move(opcode, operand)?))
}

// What belongs to no other family.
#[tactic(auto, unfolding(crate::specs::Opcodes::other_code))]
fn other_code(opcode: u16) -> Option<Code>
    ensures { result ≡ spec.other_code opcode }
{
    Some(match opcode {
        0x00 => Code::Nop { is_break: false },
        0x01 => Code::Nop { is_break: true },
        0x2A => Code::Return,
        0x7A => Code::Throw { again: false },
        0x8E => Code::Length,
        0xDC => Code::EndFinally,
        0xFE1A => Code::Throw { again: true },
        _ => return None,
    })
}

// Moves, arithmetic, comparisons and conversions.
fn simple_code(opcode: u16, operand: u64) -> Option<Code>
    ensures { result ≡ (spec.moves (spec.slot_move opcode operand) orelse spec.moves (spec.stack_move opcode operand))
        orelse spec.arithmetic_code opcode orelse spec.checked_code opcode
        orelse (spec.converts (spec.converted opcode) orelse spec.converts_checked true (spec.converted_checked opcode) orelse spec.converts_checked false (spec.converted_unsigned opcode)) }
{
    move_code(opcode, operand)
        .or(arithmetic_code(opcode))
        .or(checked_code(opcode))
        .or(conversion_code(opcode))
}

// Elements of arrays, and what belongs to no other family.
fn late_code(opcode: u16) -> Option<Code>
    ensures { result ≡ (spec.reaches false (spec.loaded opcode) orelse spec.reaches true (spec.stored opcode)) orelse spec.other_code opcode }
{
    element_code(opcode).or(other_code(opcode))
}

/// What an instruction without a token does, where it is one that is known.
pub fn plain_code(alloc: Global, raw: &RawInstr) -> Result<Option<Code>, AllocError>
    ensures { IfOk result (λ code. code ≡ spec.plain_code raw.now) }
{
    let opcode = raw.opcode;
    if let Some(code) = simple_code(opcode, raw.operand) {
        return Ok(Some(code));
    }
    if let Some(code) = flow_code(alloc, opcode, raw.targets.as_slice())? {
        return Ok(Some(code));
    }
    Ok(late_code(opcode))
}

/// What an instruction does, as long as no token is known; one with a token, or that isn't known, is outside.
pub fn code_of(alloc: Global, raw: &RawInstr) -> Result<Code, AllocError>
    ensures { IfOk result (λ code. code ≡ spec.known_or_outside raw.now.opcode (spec.plain_code raw.now)) }
{
    match plain_code(alloc, raw)? {
        Some(code) => Ok(code),
        None => outside(alloc, raw.opcode),
    }
}
