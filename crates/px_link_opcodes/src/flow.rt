// Branches and what else leads away.
ghost use Rattle.std.specs.Prelude.{◌≡◌, true, false, length, slice_index, IfOk, Option, Some, None};
ghost use Rattle.px_link_opcodes.specs.Opcodes as spec;

use px_program::{Code, Test};
use sqlite_items::Items;
use std::alloc::{AllocError, Global};

// The short form of a branch with a long target.
fn short_form(opcode: u16) -> u16
    ensures { result ≡ spec.short_form opcode }
{
    match opcode {
        0x38..=0x44 => opcode - 0x0D,
        _ => opcode,
    }
}

// What a branch from `beq` to `blt.un` compares by.
fn test_of(opcode: u16) -> Test
    ensures { result ≡ spec.test_of opcode }
{
    match opcode {
        0x2E => Test::Eq,
        0x33 => Test::Ne,
        0x2F | 0x34 => Test::Ge,
        0x30 | 0x35 => Test::Gt,
        0x31 | 0x36 => Test::Le,
        _ => Test::Lt,
    }
}

// A branch that compares two values.
fn compare(opcode: u16, signed: bool, target: u32) -> Code
    ensures { result ≡ Code.BranchCompare (spec.test_of opcode) signed target }
{
    Code::BranchCompare {
        test: test_of(opcode),
        signed,
        target,
    }
}

// A branch on one value.
fn branch_truth(when: bool, target: u32) -> Code
    ensures { result ≡ Code.BranchTruth when target }
{
    Code::BranchTruth { when, target }
}

// A branch in its short form.
#[tactic(auto, unfolding(crate::specs::Opcodes::branch_by))]
fn branch_by(opcode: u16, target: u32) -> Option<Code>
    ensures { result ≡ spec.branch_by opcode target }
{
    Some(match opcode {
        0x2B => Code::Branch(target),
        0x2C => branch_truth(false, target),
        0x2D => branch_truth(true, target),
        0x2E..=0x32 => compare(opcode, true, target),
        0x33..=0x37 => compare(opcode, false, target),
        _ => return None,
    })
}

/// Branches, switches of at most 128 targets, and `leave`.
#[tactic(auto, unfolding(crate::specs::Opcodes::flow_code))]
pub fn flow_code(alloc: Global, opcode: u16, targets: &[u32]) -> Result<Option<Code>, AllocError>
    ensures { IfOk result (λ code. code ≡ spec.flow_code opcode targets.now) }
{
    let target = targets.first().copied().unwrap_or(0);
    Ok(match opcode {
        0x45 if targets.len() <= 128 => Some(Code::Switch(Items::from_slice(alloc, targets)?)),
        0x45 => None,
        0xDD | 0xDE => Some(Code::Leave(target)),
        _ => branch_by(short_form(opcode), target),
    })
}
