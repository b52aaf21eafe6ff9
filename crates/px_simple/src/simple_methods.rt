// The check of simple methods.
ghost use Rattle.std.specs.Prelude.{◌≡◌, ◌≤◌, None, IfOk, IsTrue, MatchResult};
ghost use Rattle.px_simple.specs.Search.{AreTargets};
ghost use Rattle.px_simple.specs.Simple.{Blames, after, fault_from, fault_of, is_fine, taken};

use crate::Simple;
use crate::accepted::entry_of;
use crate::offsets::{is_target, sorted_targets};
use crate::rows::{is_known, is_last, is_turn, left, taken};
use px_program::{Instr, Method};
use px_verify::Verified;
use std::alloc::{AllocError, Global};

/// Why a program isn't accepted: want of memory, or the first fault.
#[derive(Clone, Copy, PartialEq, Eq)]
pub enum SimpleFault {
    Memory,
    /// The offset of the entry's first instruction that may not stand there: one that isn't run, an `ldarg` of no int32
    /// parameter, an `ldc` that isn't of an int32, one that finds too few operands, leaves more than 8 (the most that
    /// are accepted so far) or leaves some after a branch or a return, one with operands where a branch leads to, or a
    /// last one that goes on.
    At(u32),
}

impl From<AllocError> for SimpleFault {
    ghost use Rattle.px_simple.specs.declared.simple_methods.SimpleFault.TheVariants.{Memory};

    ghost from_gives = { λ _ e. e ≡ Memory };

    fn from(_: AllocError) -> Self {
        SimpleFault::Memory
    }
}

// The most operands that may be on the stack at once.
const MOST_OPERANDS: usize = 8;

// Whether the instruction may stand where so many operands are, with more instructions after it or not.
#[tactic(auto, unfolding(crate::specs::Simple::is_fine))]
fn is_fine(method: &Method, targets: &[u32], instr: &Instr, depth: usize, more: bool) -> bool
    requires targets { AreTargets method.now.code targets.now }
    requires depth { depth ≤ MOST_OPERANDS }
    ensures is { result ≡ is_fine method.now instr.now depth more }
    ensures operands { IsTrue result → taken instr.now.code ≤ depth }
    ensures room { IsTrue result → after depth instr.now.code ≤ MOST_OPERANDS }
{
    let code = &instr.code;
    if !is_known(method, code) || depth < taken(code) {
        return false;
    }
    let after = depth - taken(code) + left(code);
    if after > MOST_OPERANDS || (is_turn(code) && after != 0) || !(more || is_last(code)) {
        return false;
    }
    depth == 0 || !is_target(method.code.as_slice(), targets, instr.offset)
}

// The offset of the method's first instruction that may not stand there.
fn fault_of(alloc: Global, method: &Method) -> Result<Option<u32>, AllocError>
    ensures { IfOk result (λ fault. fault ≡ fault_from method.now 0 method.now.code) }
{
    let code = method.code.as_slice();
    let targets = sorted_targets(alloc, code)?;
    let mut depth = 0;
    for (k, instr) in code.iter().enumerate() {
        if !is_fine(method, &targets, instr, depth, k + 1 < code.len()) {
            return Ok(Some(instr.offset));
        }
        depth = depth - taken(&instr.code) + left(&instr.code);
    }
    Ok(None)
}

/// Accepts a verified program whose entry is simple: a walk through its code in order, which counts the operands on the stack,
/// meets no fault. Else the error is the first fault. It takes time n log n for n instructions.
pub fn simple(alloc: Global, verified: Verified) -> Result<Simple, SimpleFault>
    ensures accepted { IfOk result (λ s. s ≡ verified) }
    ensures exact { MatchResult result (λ _. fault_of verified ≡ None) (Blames verified) }
{
    match fault_of(alloc, entry_of(verified.program()))? {
        Some(at) => Err(SimpleFault::At(at)),
        None => Ok(Simple { verified }),
    }
}
