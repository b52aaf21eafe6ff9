// What starts at an offset of a method's code, and what leads there.
ghost use Rattle.std.specs.Prelude.{◌≡◌, ◌++◌, IfOk, OnOk};
ghost use Rattle.std.specs.Option.{option_copied};
ghost use Rattle.px_program.specs.Formed.{Follow, instr_at, targets_of};
ghost use Rattle.px_simple.specs.Search.{AreTargets, all_targets};
ghost use Rattle.px_simple.specs.Simple.{is_target};

use px_program::{Code, Instr, Method};
use std::alloc::{AllocError, Global};

/// The instruction of a method that starts at an offset, where one does.
pub fn instr_at(method: &Method, at: u32) -> Option<&Instr>
    requires { Follow 0 method.now.code }
    ensures { option_copied result ≡ instr_at method.now.code at }
{
    let code = method.code.as_slice();
    match code.binary_search_by_key(&at, |instr| instr.offset) {
        Ok(index) => method.code.get(index),
        Err(_) => None,
    }
}

// Adds the targets of an instruction.
fn push_targets(targets: &mut Vec<u32>, code: &Code) -> Result<(), AllocError>
    ensures { OnOk result (targets.new.items ≡ targets.old.items ++ targets_of code.now) }
{
    match code {
        Code::Branch(target) | Code::Leave(target) => targets.push(*target)?,
        Code::BranchTruth { target, .. } => targets.push(*target)?,
        Code::BranchCompare { target, .. } => targets.push(*target)?,
        Code::Switch(others) => targets.extend_from_slice(others.as_slice())?,
        _ => {}
    }
    Ok(())
}

// The targets of all branches, in the order of the code.
fn all_targets(alloc: Global, code: &[Instr]) -> Result<Vec<u32>, AllocError>
    ensures { IfOk result (λ targets. targets.items ≡ all_targets code.now) }
{
    let mut targets = Vec::new(alloc);
    for instr in code {
        push_targets(&mut targets, &instr.code)?;
    }
    Ok(targets)
}

// The same in rising order.
pub(crate) fn sorted_targets(alloc: Global, code: &[Instr]) -> Result<Vec<u32>, AllocError>
    ensures { IfOk result (λ targets. AreTargets code.now targets.items) }
{
    let mut targets = all_targets(alloc, code)?;
    targets.sort_unstable();
    Ok(targets)
}

// Whether some branch of the code leads to the offset, by the targets of all.
pub(crate) fn is_target(code: &[Instr], targets: &[u32], at: u32) -> bool
    requires { AreTargets code.now targets.now }
    ensures { result ≡ is_target code.now at }
{
    targets.binary_search(&at).is_ok()
}
