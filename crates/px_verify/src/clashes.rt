// The least offset to which a stack comes that doesn't merge with the one that stands there.
ghost use Rattle.std.specs.Prelude.{◌≡◌, IfOk, None, Some, []};
ghost use Rattle.px_program.specs.Formed.{AreTypes};
ghost use Rattle.px_verify_kinds.specs.Stacks.{IsStack, kinds_of};
ghost use Rattle.px_verify_flow.specs.Leaving.{successors};
ghost use Rattle.px_verify_rounds.specs.Table.{class_start, clashes, outcome_at, start_of};
ghost use Rattle.px_verify_rounds.specs.Typings.{IsValid, table_of};
ghost use Rattle.px_verify.specs.Clashes.{earlier, least_clash, noted, noted_all, noted_clauses, noted_outcome, noted_starts};

use px_program::{Clause, ClauseKind, Instr, Method, Program};
use px_verify_flow::successors;
use px_verify_kinds::Stack;
use px_verify_rounds::{Given, Typing};
use std::alloc::{AllocError, Global};

fn earlier(least: Option<u32>, at: u32) -> u32
    ensures { Some result ≡ earlier least at }
{
    match least {
        Some(least) if least <= at => least,
        _ => at,
    }
}

fn noted(clash: bool, least: Option<u32>, at: u32) -> Option<u32>
    ensures { result ≡ noted clash least at }
{
    if clash {
        Some(earlier(least, at))
    } else {
        least
    }
}

// Notes an offset where a stack that starts there clashes.
fn note_start(
    alloc: Global,
    program: &Program,
    typing: &mut Typing,
    least: Option<u32>,
    at: u32,
    given: Stack,
) -> Result<Option<u32>, AllocError>
    requires types { AreTypes program.now.types }
    requires given { IsStack typing.old.stacks given }
    requires valid { IsValid typing.old }
    ensures noted { IfOk result (λ l. l ≡ noted (clashes program.now.types (table_of typing.old) at (kinds_of typing.old.stacks given)) least at) }
    ensures same { table_of typing.new ≡ table_of typing.old }
    ensures valid { IsValid typing.new }
{
    let clash = typing.clashes(alloc, program, at, given)?;
    Ok(noted(clash, least, at))
}

// Notes the start of a block where what it catches clashes.
fn note_catch(
    alloc: Global,
    program: &Program,
    typing: &mut Typing,
    least: Option<u32>,
    at: u32,
    class: Option<u32>,
) -> Result<Option<u32>, AllocError>
    requires types { AreTypes program.now.types }
    requires valid { IsValid typing.old }
    ensures noted { IfOk result (λ l. l ≡ noted_starts program.now.types (table_of typing.old) least (class_start at class)) }
    ensures same { table_of typing.new ≡ table_of typing.old }
    ensures valid { IsValid typing.new }
{
    match class {
        None => Ok(least),
        Some(class) => {
            let caught = typing.caught(class)?;
            note_start(alloc, program, typing, least, at, caught)
        }
    }
}

fn note_clause(
    alloc: Global,
    program: &Program,
    typing: &mut Typing,
    least: Option<u32>,
    clause: &Clause,
) -> Result<Option<u32>, AllocError>
    requires types { AreTypes program.now.types }
    requires valid { IsValid typing.old }
    ensures noted { IfOk result (λ l. l ≡ noted_starts program.now.types (table_of typing.old) least (start_of clause.now)) }
    ensures same { table_of typing.new ≡ table_of typing.old }
    ensures valid { IsValid typing.new }
{
    match clause.kind {
        ClauseKind::Catch => note_catch(alloc, program, typing, least, clause.start, clause.class),
        ClauseKind::Filter => Ok(least),
        ClauseKind::Finally | ClauseKind::Fault => {
            note_start(alloc, program, typing, least, clause.start, Stack::empty())
        }
    }
}

// Notes the starts of the method and of its blocks.
fn note_starts(
    alloc: Global,
    program: &Program,
    method: &Method,
    typing: &mut Typing,
) -> Result<Option<u32>, AllocError>
    requires types { AreTypes program.now.types }
    requires valid { IsValid typing.old }
    ensures noted { IfOk result (λ l. l ≡ noted_clauses program.now.types (table_of typing.old) (noted (clashes program.now.types (table_of typing.old) 0 []) None 0) method.now.clauses) }
    ensures same { table_of typing.new ≡ table_of typing.old }
    ensures valid { IsValid typing.new }
{
    let mut least = note_start(alloc, program, typing, None, 0, Stack::empty())?;
    for clause in method.clauses.as_slice() {
        least = note_clause(alloc, program, typing, least, clause)?;
    }
    Ok(least)
}

// Notes the offsets where a stack clashes.
fn note_all(
    alloc: Global,
    program: &Program,
    typing: &mut Typing,
    given: Stack,
    mut least: Option<u32>,
    to: &[u32],
) -> Result<Option<u32>, AllocError>
    requires types { AreTypes program.now.types }
    requires given { IsStack typing.old.stacks given }
    requires valid { IsValid typing.old }
    ensures noted { IfOk result (λ l. l ≡ noted_all program.now.types (table_of typing.old) (kinds_of typing.old.stacks given) least to.now) }
    ensures same { table_of typing.new ≡ table_of typing.old }
    ensures valid { IsValid typing.new }
{
    for at in to {
        let clash = typing.clashes(alloc, program, *at, given)?;
        least = noted(clash, least, *at);
    }
    Ok(least)
}

// Notes what an instruction gives where it clashes.
fn note_outcome(
    alloc: Global,
    program: &Program,
    method: &Method,
    typing: &mut Typing,
    least: Option<u32>,
    instr: &Instr,
) -> Result<Option<u32>, AllocError>
    requires types { AreTypes program.now.types }
    requires valid { IsValid typing.old }
    ensures noted { IfOk result (λ l. l ≡ noted_outcome program.now.types (table_of typing.old) (successors instr.now) least (outcome_at program.now method.now (table_of typing.old) instr.now)) }
    ensures same { table_of typing.new ≡ table_of typing.old }
    ensures valid { IsValid typing.new }
{
    match typing.outcome(program, method, instr)? {
        Given::Stack(given) => {
            let to = successors(alloc, instr)?;
            note_all(alloc, program, typing, given, least, &to)
        }
        Given::Fault(_) | Given::Nothing => Ok(least),
    }
}

/// The least offset to which a start or an instruction brings a stack that doesn't merge.
pub(crate) fn least_clash(
    alloc: Global,
    program: &Program,
    method: &Method,
    typing: &mut Typing,
) -> Result<Option<u32>, AllocError>
    requires types { AreTypes program.now.types }
    requires valid { IsValid typing.old }
    ensures least { IfOk result (λ l. l ≡ least_clash program.now method.now (table_of typing.old)) }
    ensures same { table_of typing.new ≡ table_of typing.old }
    ensures valid { IsValid typing.new }
{
    let mut least = note_starts(alloc, program, method, typing)?;
    for instr in method.code.as_slice() {
        least = note_outcome(alloc, program, method, typing, least, instr)?;
    }
    Ok(least)
}
