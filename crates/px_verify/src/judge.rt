// The first fault of a method.
ghost use Rattle.std.specs.Prelude.{◌≡◌, ◌≢◌, IfOk, IsSome, List, MatchResult, Option, Some, []};
ghost use Rattle.px_program.specs.Formed.{AreTypes, IsWellFormed, method_at};
ghost use Rattle.px_verify_kinds.specs.declared.stacks.Cell.{Cell};
ghost use Rattle.px_verify_flow.specs.Outcome.{Outcome};
ghost use Rattle.px_verify_rounds.specs.Table.{IsTable, stack_at};
ghost use Rattle.px_verify_rounds.specs.Typings.{GivesAs, IsValid, table_of};
ghost use Rattle.px_verify.specs.Judged.{IsBadAt, IsMethodFault, first_where, is_at};
ghost use Rattle.px_verify.specs.Verdict.{IsTypedMethod, fault_in};

use crate::VerifyFault;
use crate::clashes::least_clash;
use px_program::{Method, Program};
use px_verify_flow::VerifyKind;
use px_verify_rounds::{Given, Typing, typing_of};
use std::alloc::{AllocError, Global};

fn is_at(least: Option<u32>, at: u32) -> bool
    ensures { result ≡ is_at least at }
{
    match least {
        Some(least) => least == at,
        None => false,
    }
}

// The first fault of an instruction.
fn fault_of(given: Given, bad_merge: bool) -> Option<VerifyKind>
    ensures { (cells : List Cell) (outcome : Option Outcome) → GivesAs cells given outcome → result ≡ fault_in bad_merge outcome }
{
    match given {
        Given::Nothing => None,
        Given::Fault(kind) => Some(kind),
        Given::Stack(_) => {
            if bad_merge {
                Some(VerifyKind::BadMerge)
            } else {
                None
            }
        }
    }
}

// The first instruction that has a fault, where the least offset with a bad merge is known.
fn first_where(
    program: &Program,
    method: &Method,
    typing: &mut Typing,
    least: Option<u32>,
) -> Result<Option<(u32, VerifyKind)>, AllocError>
    requires types { AreTypes program.now.types }
    requires valid { IsValid typing.old }
    ensures first { IfOk result (λ first. first ≡ first_where program.now method.now (table_of typing.old) least method.now.code) }
    ensures same { table_of typing.new ≡ table_of typing.old }
    ensures valid { IsValid typing.new }
{
    for instr in method.code.as_slice() {
        let given = typing.outcome(program, method, instr)?;
        if let Some(kind) = fault_of(given, is_at(least, instr.offset)) {
            return Ok(Some((instr.offset, kind)));
        }
    }
    Ok(None)
}

// The refusal of an instruction.
fn refusal(
    alloc: Global,
    typing: &Typing,
    method: u32,
    offset: u32,
    kind: VerifyKind,
) -> VerifyFault
    requires valid { IsValid typing.now }
    requires finds { IsSome (stack_at (table_of typing.now) offset) }
    ensures { IsBadAt (table_of typing.now) method offset kind result }
{
    match typing.kinds_at(alloc, offset) {
        Ok(Some(stack)) => VerifyFault::Bad {
            method,
            offset,
            stack,
            kind,
        },
        Ok(None) => unreachable!(),
        Err(AllocError) => VerifyFault::Memory,
    }
}

// Checks a method by its typing.
fn check_by(
    alloc: Global,
    program: &Program,
    number: u32,
    method: &Method,
    typing: &mut Typing,
) -> Result<(), VerifyFault>
    requires formed { IsWellFormed program.now }
    requires at { method_at program.now number ≡ Some method.now }
    requires code { method.now.code ≢ [] }
    requires table { IsTable program.now method.now (table_of typing.old) }
    requires valid { IsValid typing.old }
    ensures { MatchResult result (λ _. IsTypedMethod program.now method.now) (IsMethodFault program.now number method.now) }
{
    let least = least_clash(alloc, program, method, typing)?;
    match first_where(program, method, typing, least)? {
        Some((offset, kind)) => Err(refusal(alloc, typing, number, offset, kind)),
        None => Ok(()),
    }
}

/// Checks a method; one without instructions has nothing to refuse.
pub(crate) fn check_method(
    alloc: Global,
    program: &Program,
    number: u32,
    method: &Method,
) -> Result<(), VerifyFault>
    requires formed { IsWellFormed program.now }
    requires at { method_at program.now number ≡ Some method.now }
    ensures { MatchResult result (λ _. IsTypedMethod program.now method.now) (IsMethodFault program.now number method.now) }
{
    if method.code.as_slice().is_empty() {
        return Ok(());
    }
    let mut typing = typing_of(alloc, program, method)?;
    check_by(alloc, program, number, method, &mut typing)
}
