// An instruction of a body: Partition III.
ghost use Rattle.std.specs.Prelude.{◌≡◌, ◌+◌, ◌*◌, ◌<◌, ◌≤◌, ◌^◌, length, IfErr, IfOk, IfSome, OnErr};
ghost use Rattle.px_code.specs.Reading.{Gives};
ghost use Rattle.px_code.specs.Body.{instr_at, instr_of, number_at, operand_of, target_of, targets_at};
ghost use Rattle.px_code.specs.Parts.{position_of, IsInside, IsInstrAt};

use crate::body::{BodyFault, BodyKind, Operand, RawInstr};
use crate::bytes::number_at;
use crate::opcode::operand_of;
use sqlite_items::Items;
use std::alloc::{AllocError, Global};

// The offset that a branch leads to: that of the next instruction and the operand with its sign.
fn target_of(next: u32, size: u32, operand: u64) -> u32
    requires next { next < 2 ^ 31 }
    requires some { 0 < size }
    requires size { size ≤ 4 }
    requires operand { operand < 2 ^ (8 * size) }
    ensures { result ≡ target_of next size operand }
{
    let span = 1u64 << (8 * size);
    let moved = if operand < span / 2 {
        u64::from(next) + operand
    } else {
        u64::from(next) + operand + (1 << 32) - span
    };
    (moved % (1 << 32)) as u32
}

// So many offsets that a switch leads to, from their place in the code on.
fn targets_at(
    alloc: Global,
    next: u32,
    code: &[u8],
    from: usize,
    count: usize,
) -> Result<Items<u32>, AllocError>
    requires next { next < 2 ^ 31 }
    requires inside { from + 4 * count ≤ length code.now }
    ensures { IfOk result (λ targets. targets ≡ targets_at next code.now from count) }
{
    let mut targets = Items::new(alloc);
    for index in 0..count {
        let operand = number_at(code, from + 4 * index, 4);
        targets.push(target_of(next, 4, operand))?;
    }
    Ok(targets)
}

// Where an instruction stands in its body: the code begins `base` bytes after the header, and the opcode has `size` bytes.
#[derive(Clone, Copy)]
struct Position {
    base: u32,
    at: u32,
    opcode: u16,
    size: u32,
}

impl Position {
    // The bytes behind the opcode, as a number.
    fn operand_at(self, code: &[u8], size: u32) -> Result<u64, BodyFault>
        requires inside { IsInside self code.now }
        requires few { size ≤ 8 }
        ensures inside { IfOk result (λ _. self.at + self.size + size ≤ length code.now) }
        ensures number { IfOk result (λ operand. operand ≡ number_at code.now (self.at + self.size) size) }
        ensures bound { IfOk result (λ operand. operand < 2 ^ (8 * size)) }
        ensures cut { IfErr result (λ fault. fault ≡ BodyFault.Bad BodyKind.Cut (self.base + (self.at + self.size))) }
        ensures outside { OnErr result (length code.now < self.at + self.size + size) }
    {
        let behind = self.at + self.size;
        if code.len() < (behind + size) as usize {
            Err(BodyKind::Cut.at(self.base + behind))
        } else {
            Ok(number_at(code, behind as usize, size as usize))
        }
    }

    // The instruction with an operand that is a number.
    fn with_number(self, alloc: Global, code: &[u8], size: u32) -> Result<RawInstr, BodyFault>
        requires inside { IsInside self code.now }
        requires few { size ≤ 8 }
        ensures gives { Gives (λ instr. instr) result (instr_of (Some (Operand.Number size)) (position_of self) code.now) }
        ensures stands { IfOk result (IsInstrAt self.at code.now) }
    {
        let operand = self.operand_at(code, size)?;
        Ok(RawInstr {
            offset: self.at,
            next: self.at + self.size + size,
            opcode: self.opcode,
            operand,
            targets: Items::new(alloc),
        })
    }

    // The instruction with an operand that says how far it leads.
    fn with_target(self, alloc: Global, code: &[u8], size: u32) -> Result<RawInstr, BodyFault>
        requires inside { IsInside self code.now }
        requires some { 0 < size }
        requires few { size ≤ 4 }
        ensures gives { Gives (λ instr. instr) result (instr_of (Some (Operand.Target size)) (position_of self) code.now) }
        ensures stands { IfOk result (IsInstrAt self.at code.now) }
    {
        let operand = self.operand_at(code, size)?;
        let next = self.at + self.size + size;
        let mut targets = Items::new(alloc);
        targets.push(target_of(next, size, operand))?;
        Ok(RawInstr {
            offset: self.at,
            next,
            opcode: self.opcode,
            operand: 0,
            targets,
        })
    }

    // The instruction with a count of targets, and these.
    fn with_targets(self, alloc: Global, code: &[u8]) -> Result<RawInstr, BodyFault>
        requires { IsInside self code.now }
        ensures gives { Gives (λ instr. instr) result (instr_of (Some Operand.Switch) (position_of self) code.now) }
        ensures stands { IfOk result (IsInstrAt self.at code.now) }
    {
        let count = self.operand_at(code, 4)?;
        let behind = self.at + self.size;
        let end = u64::from(behind) + 4 + 4 * count;
        if (code.len() as u64) < end {
            return Err(BodyKind::Cut.at(self.base + behind));
        }
        let next = end as u32;
        let targets = targets_at(alloc, next, code, behind as usize + 4, count as usize)?;
        Ok(RawInstr {
            offset: self.at,
            next,
            opcode: self.opcode,
            operand: 0,
            targets,
        })
    }

    // The instruction, by what follows its opcode.
    fn instr(self, alloc: Global, code: &[u8]) -> Result<RawInstr, BodyFault>
        requires inside { IsInside self code.now }
        ensures gives { Gives (λ instr. instr) result (instr_of (operand_of self.opcode) (position_of self) code.now) }
        ensures stands { IfOk result (IsInstrAt self.at code.now) }
    {
        match operand_of(self.opcode) {
            None => Err(BodyKind::BadOpcode.at(self.base + self.at + (self.size - 1))),
            Some(Operand::Number(size)) => self.with_number(alloc, code, size),
            Some(Operand::Target(size)) => self.with_target(alloc, code, size),
            Some(Operand::Switch) => self.with_targets(alloc, code),
        }
    }
}

/// The instruction at an offset of the code, which begins `base` bytes after the header.
#[tactic(auto, unfolding(crate::specs::Body::instr_at))]
pub fn instr_at(alloc: Global, base: u32, code: &[u8], at: usize) -> Result<RawInstr, BodyFault>
    requires within { at < length code.now }
    requires short { base + length code.now < 2 ^ 31 }
    ensures gives { Gives (λ instr. instr) result (instr_at base code.now at) }
    ensures stands { IfOk result (IsInstrAt at code.now) }
{
    let offset = at as u32;
    let first = code[at];
    if first != 0xFE {
        let position = Position {
            base,
            at: offset,
            opcode: u16::from(first),
            size: 1,
        };
        position.instr(alloc, code)
    } else if code.len() <= at + 1 {
        Err(BodyKind::Cut.at(base + offset + 1))
    } else {
        let position = Position {
            base,
            at: offset,
            opcode: 0xFE00 + u16::from(code[at + 1]),
            size: 2,
        };
        position.instr(alloc, code)
    }
}
