// Branches and what else leads away.
ghost use Rattle.std.specs.Prelude.{◌≡◌, ◌<◌, IfOk};
ghost use Rattle.px_program.specs.Formed.{targets_of};
ghost use Rattle.px_asm_opcodes.specs.Choosing as spec;

use px_program::{Code, Test};
use sqlite_items::Items;
use std::alloc::{AllocError, Global};

/// A branch by its short form: with its target in one byte, or in four.
pub fn branch_opcode(short: u16, size: u32) -> u16
    requires { short < 0x100 }
    ensures { result ≡ spec.branch_opcode short size }
{
    if size == 2 { short } else { short + 0x0D }
}

/// A branch on one value, in its short form.
pub fn truth_opcode(when: bool) -> u16
    ensures small { result < 0x100 }
    ensures value { result ≡ spec.truth_opcode when }
{
    if when { 0x2D } else { 0x2C }
}

// A branch on two values that reads them signed, in its short form.
fn signed_branch(test: Test) -> u16
    ensures small { result < 0x100 }
    ensures value { result ≡ spec.signed_branch test }
{
    match test {
        Test::Eq => 0x2E,
        Test::Ge => 0x2F,
        Test::Gt => 0x30,
        Test::Le => 0x31,
        Test::Lt => 0x32,
        Test::Ne => 0,
    }
}

// And one that reads them unsigned.
fn unsigned_branch(test: Test) -> u16
    ensures small { result < 0x100 }
    ensures value { result ≡ spec.unsigned_branch test }
{
    match test {
        Test::Ne => 0x33,
        Test::Ge => 0x34,
        Test::Gt => 0x35,
        Test::Le => 0x36,
        Test::Lt => 0x37,
        Test::Eq => 0,
    }
}

/// A branch on two values, in its short form.
pub fn compared_branch(test: Test, signed: bool) -> u16
    ensures small { result < 0x100 }
    ensures value { result ≡ spec.compared_branch test signed }
{
    if signed {
        signed_branch(test)
    } else {
        unsigned_branch(test)
    }
}

/// `leave` in its two forms.
pub fn leave_opcode(size: u32) -> u16
    ensures { result ≡ spec.leave_opcode size }
{
    if size == 2 { 0xDE } else { 0xDD }
}

/// Where an instruction may lead, beside the next one.
pub fn targets_of(alloc: Global, code: &Code) -> Result<Items<u32>, AllocError>
    ensures { IfOk result (λ targets. targets ≡ targets_of code.now) }
{
    match code {
        Code::Branch(target) | Code::Leave(target) => Items::from_slice(alloc, &[*target]),
        Code::BranchTruth { target, .. } => Items::from_slice(alloc, &[*target]),
        Code::BranchCompare { target, .. } => Items::from_slice(alloc, &[*target]),
        Code::Switch(targets) => Items::from_slice(alloc, targets.as_slice()),
        _ => Ok(Items::new(alloc)),
    }
}
