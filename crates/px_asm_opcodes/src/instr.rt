// Instructions.
ghost use Rattle.std.specs.Prelude.{◌≡◌, Some, IfOk};
ghost use Rattle.px_asm_opcodes.specs.Recoding.{HasRaw, HasToken, IsPlacedAs, IsPlain, IsRawOf, token_opcode};
ghost use Rattle.px_asm_bodies.specs.Encoding.{IsEncodable};
ghost use Rattle.px_link_opcodes.specs.Opcodes.{plain_code};

use crate::flow::targets_of;
use crate::opcode::{opcode_by, operand_by};
use crate::token::token_opcode;
use px_code::RawInstr;
use px_program::Instr;
use sqlite_items::Items;
use std::alloc::{AllocError, Global};

// The instruction with an opcode and a token.
fn with_token(alloc: Global, instr: &Instr, opcode: u16, token: u32) -> RawInstr
    ensures placed { IsPlacedAs instr.now result }
    ensures token { HasToken opcode token result }
{
    RawInstr {
        offset: instr.offset,
        next: instr.next,
        opcode,
        operand: u64::from(token),
        targets: Items::new(alloc),
    }
}

// The instruction without a token.
fn plain(alloc: Global, instr: &Instr) -> Result<RawInstr, AllocError>
    requires { IsPlain instr.now }
    ensures encodable { IfOk result IsEncodable }
    ensures placed { IfOk result (IsPlacedAs instr.now) }
    ensures does { IfOk result (λ raw. plain_code raw ≡ Some instr.now.code) }
{
    let size = instr.next - instr.offset;
    let targets = targets_of(alloc, &instr.code)?;
    Ok(RawInstr {
        offset: instr.offset,
        next: instr.next,
        opcode: opcode_by(&instr.code, size),
        operand: operand_by(&instr.code, size),
        targets,
    })
}

/// The instruction of an assembly that does what one of a program does, in as many bytes, with its token where it has one. There is one, since the
/// program's own was read from one.
pub fn raw_of(alloc: Global, instr: &Instr, token: u32) -> Result<RawInstr, AllocError>
    requires { HasRaw (token_opcode instr.now.code) instr.now }
    ensures { IfOk result (IsRawOf instr.now token) }
{
    match token_opcode(&instr.code) {
        Some(opcode) => Ok(with_token(alloc, instr, opcode, token)),
        None => plain(alloc, instr),
    }
}
