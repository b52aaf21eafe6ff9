// An instruction of a body: Partition III.
ghost use Rattle.std.specs.Prelude.{◌≡◌, ◌≤◌, ◌++◌, true, OnOk};
ghost use Rattle.px_asm_bodies.specs.Bytes.{distances_bytes, distance, instr_bytes, little_bytes, opcode_bytes, operand_bytes};
ghost use Rattle.px_asm_bodies.specs.Encoding.{is_opcode, opcode_size, IsEncodable};
ghost use Rattle.px_code.specs.Body.{operand_of};

use crate::bytes::push_number;
use px_code::RawInstr;
use std::alloc::AllocError;

// The opcode with a count of targets, and these.
const SWITCH: u16 = 0x45;

// How many bytes an opcode has.
fn opcode_size(opcode: u16) -> u32
    ensures { result ≡ opcode_size opcode }
{
    if opcode < 0x100 { 1 } else { 2 }
}

// One byte, or 0xFE and the second one.
fn push_opcode(out: &mut Vec<u8>, opcode: u16) -> Result<(), AllocError>
    requires { is_opcode opcode ≡ true }
    ensures { OnOk result (out.new.items ≡ out.old.items ++ opcode_bytes opcode) }
{
    if opcode < 0x100 {
        out.push(opcode as u8)?;
    } else {
        out.extend_from_slice(&[0xFE, (opcode % 0x100) as u8])?;
    }
    Ok(())
}

// How far it is from an offset to a target, modulo 2^32, in so many low bytes.
fn push_distance(out: &mut Vec<u8>, next: u32, size: usize, target: u32) -> Result<(), AllocError>
    requires { size ≤ 8 }
    ensures { OnOk result (out.new.items ≡ out.old.items ++ little_bytes size (distance next target)) }
{
    push_number(out, size, u64::from(target.wrapping_sub(next)))
}

// The distances to some targets.
#[tactic(auto, unfolding(crate::specs::Bytes::distances_bytes))]
fn push_distances(
    out: &mut Vec<u8>,
    next: u32,
    size: usize,
    targets: &[u32],
) -> Result<(), AllocError>
    requires { size ≤ 8 }
    ensures { OnOk result (out.new.items ≡ out.old.items ++ distances_bytes next size targets.now) }
{
    for target in targets {
        push_distance(out, next, size, *target)?;
    }
    Ok(())
}

// A number or a target in the bytes behind the opcode, or for a switch the count of its targets, and these.
fn push_operand(out: &mut Vec<u8>, raw: &RawInstr) -> Result<(), AllocError>
    requires { IsEncodable raw.now }
    ensures { OnOk result (out.new.items ≡ out.old.items ++ operand_bytes (operand_of raw.now.opcode) raw.now) }
{
    let targets = raw.targets.as_slice();
    if raw.opcode == SWITCH {
        push_number(out, 4, targets.len() as u64)?;
        return push_distances(out, raw.next, 4, targets);
    }
    let size = (raw.next - raw.offset - opcode_size(raw.opcode)) as usize;
    if targets.is_empty() {
        push_number(out, size, raw.operand)
    } else {
        push_distances(out, raw.next, size, targets)
    }
}

/// The bytes of an instruction.
#[tactic(auto, unfolding(crate::specs::Bytes::instr_bytes))]
pub fn push_instr(out: &mut Vec<u8>, raw: &RawInstr) -> Result<(), AllocError>
    requires { IsEncodable raw.now }
    ensures { OnOk result (out.new.items ≡ out.old.items ++ instr_bytes raw.now) }
{
    push_opcode(out, raw.opcode)?;
    push_operand(out, raw)
}
