// What instructions name.
ghost use Rattle.std.specs.Prelude.{◌≡◌, ◌%◌, ◌^◌, IfOk, IfSome};
ghost use Rattle.px_link_tokens.specs.Operands.{operand_of};
ghost use Rattle.px_link_reach.specs.Met.{operand_at};
ghost use Rattle.px_link_methods.specs.Parts.{IsNamed};

use px_code::RawInstr;
use px_link_tokens::{Operand, Tokens};
use std::alloc::AllocError;

/// The low 32 bits of an instruction's operand, which are its token where it has one.
pub fn token_of(raw: &RawInstr) -> u32
    ensures { result ≡ raw.now.operand % 2 ^ 32 }
{
    (raw.operand % (1 << 32)) as u32
}

/// What the token of an instruction names.
pub fn operand_at(tokens: &Tokens, raw: &RawInstr) -> Result<Option<Operand>, AllocError>
    ensures operand { IfOk result (λ operand. operand ≡ operand_at tokens.now raw.now) }
    ensures named { IfOk result (λ operand. IfSome operand (IsNamed tokens.now raw.now.opcode)) }
{
    tokens.operand(raw.opcode, token_of(raw))
}
