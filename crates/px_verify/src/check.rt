// The check of all methods.
ghost use Rattle.std.specs.Prelude.{◌≡◌, IfOk, MatchResult, Some};
ghost use Rattle.px_program.specs.Formed.{IsWellFormed, method_at};
ghost use Rattle.px_verify.specs.Judged.{AreTypedBelow, IsMethodFault};
ghost use Rattle.px_verify.specs.Verdict.{IsFault, IsTyped, IsTypedMethod, IsVerdict};
ghost use Rattle.px_verify.specs.declared.fault.VerifyFault.TheVariants.{Memory};

use crate::judge::check_method;
use crate::numbering::tables_of;
use crate::{Verified, VerifyFault};
use px_program::{Method, Program};
use std::alloc::Global;

// Checks a method. One that is like an earlier one is typed as that one is.
fn check_next(
    alloc: Global,
    program: &Program,
    number: u32,
    method: &Method,
) -> Result<(), VerifyFault>
    requires formed { IsWellFormed program.now }
    requires at { method_at program.now number ≡ Some method.now }
    requires below { AreTypedBelow program.now number }
    ensures { MatchResult result (λ _. IsTypedMethod program.now method.now) (IsMethodFault program.now number method.now) }
{
    if program.methods.first_like(number) == number {
        check_method(alloc, program, number, method)
    } else {
        Ok(())
    }
}

// Checks the methods in order.
fn check_all(alloc: Global, program: &Program) -> Result<(), VerifyFault>
    requires { IsWellFormed program.now }
    ensures { MatchResult result (λ _. IsTyped program.now) (IsFault program.now) }
{
    for (number, method) in program.methods.as_slice().iter().enumerate() {
        check_next(alloc, program, number as u32, method)?;
    }
    Ok(())
}

// A program that was checked.
fn accepted(alloc: Global, program: Program) -> Result<Verified, VerifyFault>
    requires formed { IsWellFormed program }
    requires typed { IsTyped program }
    ensures { MatchResult result (λ v. v ≡ program) (λ fault. fault ≡ Memory) }
{
    let tables = tables_of(alloc, &program)?;
    Ok(Verified { program, tables })
}

/// Accepts a program where each instruction of its methods finds a stack that it may find. Else the error is the first fault.
pub fn verify(alloc: Global, program: Program) -> Result<Verified, VerifyFault>
    requires { IsWellFormed program }
    ensures accepted { IfOk result (λ v. v ≡ program) }
    ensures exact { IsVerdict program result }
{
    check_all(alloc, &program)?;
    accepted(alloc, program)
}
