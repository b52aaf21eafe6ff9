// The instructions of a body.
ghost use Rattle.std.specs.Prelude.{◌≡◌, ◌++◌, ◌%◌, OnOk, length};
ghost use Rattle.std.specs.List.{flat_map, AllByRecursion};
ghost use Rattle.px_code.specs.Body.{end_of};
ghost use Rattle.px_asm_bodies.specs.Bytes.{instr_bytes, code_bytes};
ghost use Rattle.px_asm_bodies.specs.Encoding.{IsEncodable};

use crate::bytes::push_zeros;
use crate::instr::push_instr;
use px_code::RawInstr;
use std::alloc::AllocError;

/// The offset behind the last instruction.
pub fn end_of(instrs: &[RawInstr]) -> u32
    ensures { result ≡ end_of instrs.now }
{
    match instrs.last() {
        None => 0,
        Some(instr) => instr.next,
    }
}

// The bytes of all instructions.
fn push_instrs(out: &mut Vec<u8>, instrs: &[RawInstr]) -> Result<(), AllocError>
    requires { AllByRecursion IsEncodable instrs.now }
    ensures { OnOk result (out.new.items ≡ out.old.items ++ flat_map instr_bytes instrs.now) }
{
    for instr in instrs {
        push_instr(out, instr)?;
    }
    Ok(())
}

/// The bytes of all instructions, and zeros up to a multiple of 4, behind what ends at a multiple of 4.
#[tactic(auto, unfolding(crate::specs::Bytes::code_bytes))]
pub fn push_code(out: &mut Vec<u8>, instrs: &[RawInstr]) -> Result<(), AllocError>
    requires code { AllByRecursion IsEncodable instrs.now }
    requires aligned { length out.old.items % 4 ≡ 0 }
    ensures { OnOk result (out.new.items ≡ out.old.items ++ code_bytes instrs.now) }
{
    push_instrs(out, instrs)?;
    push_zeros(out)
}
