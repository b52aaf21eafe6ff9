// What moves values between slots and the stack, or on the stack alone.
ghost use Rattle.std.specs.Prelude.{◌≡◌, ◌<◌};
ghost use Rattle.px_asm_opcodes.specs.Choosing as spec;

use px_program::Move;

// The opcode of a slot's number of one byte or of two.
fn wide_slot(short: u16, long: u16, size: u32) -> u16
    ensures { result ≡ spec.wide_slot short long size }
{
    if size == 2 { short } else { long }
}

// The opcode of a slot, where the numbers 0 to 3 can stand in it.
fn slot_opcode(first: u16, short: u16, long: u16, number: u32, size: u32) -> u16
    requires { first < 0x100 }
    ensures { result ≡ spec.slot_opcode first short long number size }
{
    if size == 1 && number <= 3 {
        first + number as u16
    } else {
        wide_slot(short, long, size)
    }
}

// The opcode of a constant of 32 bits.
fn constant_opcode(pattern: u32, size: u32) -> u16
    ensures { result ≡ spec.constant_opcode pattern size }
{
    match size {
        2 => 0x1F,
        5 => 0x20,
        _ if pattern <= 8 => 0x16 + pattern as u16,
        _ => 0x15,
    }
}

/// The opcode of a move.
pub fn move_opcode(step: &Move, size: u32) -> u16
    ensures { result ≡ spec.move_opcode step.now size }
{
    match step {
        Move::Argument(number) => slot_opcode(0x02, 0x0E, 0xFE09, *number, size),
        Move::SetArgument(_) => wide_slot(0x10, 0xFE0B, size),
        Move::Local(number) => slot_opcode(0x06, 0x11, 0xFE0C, *number, size),
        Move::SetLocal(number) => slot_opcode(0x0A, 0x13, 0xFE0E, *number, size),
        Move::Constant32(pattern) => constant_opcode(*pattern, size),
        Move::Constant64(_) => 0x21,
        Move::Null => 0x14,
        Move::Text(_) => 0,
        Move::Duplicate => 0x25,
        Move::Pop => 0x26,
    }
}

// A slot's number, where it doesn't stand in the opcode.
fn slot_operand(number: u32, size: u32) -> u64
    ensures { result ≡ spec.slot_operand number size }
{
    if size == 1 { 0 } else { u64::from(number) }
}

// What follows the opcode of a constant of 32 bits: nothing, its low byte, or the whole.
fn constant_operand(pattern: u32, size: u32) -> u64
    ensures { result ≡ spec.constant_operand pattern size }
{
    match size {
        1 => 0,
        2 => u64::from(pattern % (1 << 8)),
        _ => u64::from(pattern),
    }
}

/// The operand of a move.
pub fn move_operand(step: &Move, size: u32) -> u64
    ensures { result ≡ spec.move_operand step.now size }
{
    match step {
        Move::Argument(number) | Move::SetArgument(number) => slot_operand(*number, size),
        Move::Local(number) | Move::SetLocal(number) => slot_operand(*number, size),
        Move::Constant32(pattern) => constant_operand(*pattern, size),
        Move::Constant64(pattern) => *pattern,
        Move::Null | Move::Text(_) | Move::Duplicate | Move::Pop => 0,
    }
}
