// The search for a method's typing: rounds, each of which visits only the instructions whose stacks changed.
ghost use Rattle.std.specs.Prelude.{◌≡◌, ◌∷◌, [], ◌<◌, replicate, None, IfOk, OnOk};
ghost use Rattle.px_program.specs.Formed.{AreTypes, Follow, IsFormed, end_of};
ghost use Rattle.px_verify_kinds.specs.Heights.{most_height};
ghost use Rattle.px_verify_kinds.specs.Stacks.{Extends, IsStack, kinds_of};
ghost use Rattle.px_verify_rounds.specs.Rounds.{Begins, Begun, Between, Gives, Rounds, Spreads, Visits};
ghost use Rattle.px_verify_rounds.specs.Table.{IsTable, class_start, start_of, starts_of, untyped};
ghost use Rattle.px_verify_rounds.specs.Typings.{IsValid, table_of};

use crate::offsets::{end_of, instr_at};
use crate::typing::{Given, Typing};
use crate::worklist::{Worklist, add};
use px_program::{Clause, ClauseKind, Instr, Method, Program};
use px_verify_flow::successors;
use px_verify_kinds::{Stack, Stacks};
use std::alloc::{AllocError, Global};
use std::collections::BTreeSet;
use std::mem;

// Gives a stack to one offset, which then waits if that changed what stands there.
fn give_one(
    alloc: Global,
    program: &Program,
    typing: &mut Typing,
    work: &mut Worklist,
    given: Stack,
    from: u32,
    to: u32,
) -> Result<(), AllocError>
    requires types { AreTypes program.now.types }
    requires given { IsStack typing.old.stacks given }
    requires valid { IsValid typing.old }
    ensures spreads { OnOk result (Spreads program.now.types from (kinds_of typing.old.stacks given) (to ∷ []) (table_of typing.old) work.old (table_of typing.new) work.new) }
    ensures kept { Extends typing.old.stacks typing.new.stacks }
    ensures valid { IsValid typing.new }
{
    if typing.give(alloc, program, given, to)? {
        work.put(from, to)
    } else {
        Ok(())
    }
}

// Gives a stack to each of these offsets.
fn give_all(
    alloc: Global,
    program: &Program,
    typing: &mut Typing,
    work: &mut Worklist,
    given: Stack,
    from: u32,
    to: &[u32],
) -> Result<(), AllocError>
    requires types { AreTypes program.now.types }
    requires given { IsStack typing.old.stacks given }
    requires valid { IsValid typing.old }
    ensures spreads { OnOk result (Spreads program.now.types from (kinds_of typing.old.stacks given) to.now (table_of typing.old) work.old (table_of typing.new) work.new) }
    ensures kept { Extends typing.old.stacks typing.new.stacks }
    ensures valid { IsValid typing.new }
{
    for next in to {
        give_one(alloc, program, typing, work, given, from, *next)?;
    }
    Ok(())
}

// Lets an instruction give what it makes of the stack that it finds.
fn give_outcome(
    alloc: Global,
    program: &Program,
    method: &Method,
    typing: &mut Typing,
    work: &mut Worklist,
    instr: &Instr,
) -> Result<(), AllocError>
    requires types { AreTypes program.now.types }
    requires valid { IsValid typing.old }
    ensures gives { OnOk result (Gives program.now method.now instr.now (table_of typing.old) work.old (table_of typing.new) work.new) }
    ensures valid { IsValid typing.new }
{
    match typing.outcome(program, method, instr)? {
        Given::Stack(given) => {
            let to = successors(alloc, instr)?;
            give_all(alloc, program, typing, work, given, instr.offset, &to)
        }
        Given::Fault(_) | Given::Nothing => Ok(()),
    }
}

// Visits an offset.
fn visit(
    alloc: Global,
    program: &Program,
    method: &Method,
    typing: &mut Typing,
    work: &mut Worklist,
    at: u32,
) -> Result<(), AllocError>
    requires types { AreTypes program.now.types }
    requires follow { Follow 0 method.now.code }
    requires valid { IsValid typing.old }
    ensures visits { OnOk result (Visits program.now method.now at (table_of typing.old) work.old (table_of typing.new) work.new) }
    ensures valid { IsValid typing.new }
{
    match instr_at(method, at) {
        Some(instr) => give_outcome(alloc, program, method, typing, work, instr),
        None => Ok(()),
    }
}

// A round: visits all that waits, and what comes to it meanwhile.
fn round(
    alloc: Global,
    program: &Program,
    method: &Method,
    typing: &mut Typing,
    work: &mut Worklist,
) -> Result<(), AllocError>
    requires types { AreTypes program.now.types }
    requires follow { Follow 0 method.now.code }
    requires valid { IsValid typing.old }
    requires begins { Begun program.now method.now (table_of typing.old) work.old }
    ensures rounds { OnOk result (Rounds program.now method.now (table_of typing.old) work.old (table_of typing.new) work.new) }
    ensures valid { IsValid typing.new }
{
    loop {
        match work.next() {
            None => return Ok(()),
            Some(at) => visit(alloc, program, method, typing, work, at)?,
        }
    }
}

// A stack comes to the start of the method or of a block, which then waits if that changed what stands there.
fn begin_one(
    alloc: Global,
    program: &Program,
    typing: &mut Typing,
    set: &mut BTreeSet<u32>,
    given: Stack,
    start: u32,
) -> Result<(), AllocError>
    requires types { AreTypes program.now.types }
    requires given { IsStack typing.old.stacks given }
    requires valid { IsValid typing.old }
    ensures begins { OnOk result (Begins program.now.types ((start, kinds_of typing.old.stacks given) ∷ []) (table_of typing.old) set.old (table_of typing.new) set.new) }
    ensures valid { IsValid typing.new }
{
    if typing.give(alloc, program, given, start)? {
        add(set, start)
    } else {
        Ok(())
    }
}

// What is caught comes to the start of a block.
fn begin_catch(
    alloc: Global,
    program: &Program,
    typing: &mut Typing,
    set: &mut BTreeSet<u32>,
    start: u32,
    class: Option<u32>,
) -> Result<(), AllocError>
    requires types { AreTypes program.now.types }
    requires valid { IsValid typing.old }
    ensures begins { OnOk result (Begins program.now.types (class_start start class) (table_of typing.old) set.old (table_of typing.new) set.new) }
    ensures valid { IsValid typing.new }
{
    match class {
        None => Ok(()),
        Some(class) => {
            let caught = typing.caught(class)?;
            begin_one(alloc, program, typing, set, caught, start)
        }
    }
}

// What a block starts with comes to its start.
fn begin_block(
    alloc: Global,
    program: &Program,
    typing: &mut Typing,
    set: &mut BTreeSet<u32>,
    clause: &Clause,
) -> Result<(), AllocError>
    requires types { AreTypes program.now.types }
    requires valid { IsValid typing.old }
    ensures begins { OnOk result (Begins program.now.types (start_of clause.now) (table_of typing.old) set.old (table_of typing.new) set.new) }
    ensures valid { IsValid typing.new }
{
    match clause.kind {
        ClauseKind::Catch => begin_catch(alloc, program, typing, set, clause.start, clause.class),
        ClauseKind::Filter => Ok(()),
        ClauseKind::Finally | ClauseKind::Fault => {
            begin_one(alloc, program, typing, set, Stack::empty(), clause.start)
        }
    }
}

// The starts, of the method and of its blocks.
fn begin(
    alloc: Global,
    program: &Program,
    method: &Method,
    typing: &mut Typing,
    set: &mut BTreeSet<u32>,
) -> Result<(), AllocError>
    requires types { AreTypes program.now.types }
    requires valid { IsValid typing.old }
    ensures begins { OnOk result (Begins program.now.types (starts_of method.now) (table_of typing.old) set.old (table_of typing.new) set.new) }
    ensures valid { IsValid typing.new }
{
    begin_one(alloc, program, typing, set, Stack::empty(), 0)?;
    for clause in method.clauses.as_slice() {
        begin_block(alloc, program, typing, set, clause)?;
    }
    Ok(())
}

// A typing without stacks.
fn untyped(alloc: Global, method: &Method) -> Result<Typing, AllocError>
    ensures table { IfOk result (λ t. table_of t ≡ untyped method.now) }
    ensures valid { IfOk result IsValid }
{
    let mut entries = Vec::new(alloc);
    for _ in 0..end_of(method.code.as_slice()) {
        entries.push(None)?;
    }
    Ok(Typing {
        stacks: Stacks::new(alloc),
        entries,
    })
}

// Rounds until nothing waits.
fn settle(
    alloc: Global,
    program: &Program,
    method: &Method,
    typing: &mut Typing,
    work: &mut Worklist,
) -> Result<(), AllocError>
    requires types { AreTypes program.now.types }
    requires follow { Follow 0 method.now.code }
    requires valid { IsValid typing.old }
    requires between { Between program.now method.now (table_of typing.old) work.old }
    ensures table { OnOk result (IsTable program.now method.now (table_of typing.new)) }
    ensures valid { IsValid typing.new }
{
    'rounds: while !work.later.is_empty() {
        mem::swap(&mut work.now, &mut work.later);
        round(alloc, program, method, typing, work)?;
    }
    Ok(())
}

// The typing of a method, with a worklist without offsets.
fn settle_from(
    alloc: Global,
    program: &Program,
    method: &Method,
    typing: &mut Typing,
) -> Result<(), AllocError>
    requires types { AreTypes program.now.types }
    requires formed { IsFormed method.now }
    requires valid { IsValid typing.old }
    requires untyped { table_of typing.old ≡ untyped method.now }
    ensures table { OnOk result (IsTable program.now method.now (table_of typing.new)) }
    ensures valid { IsValid typing.new }
{
    let mut later = BTreeSet::new(alloc);
    begin(alloc, program, method, typing, &mut later)?;
    let now = BTreeSet::new(alloc);
    let mut work = Worklist { now, later };
    settle(alloc, program, method, typing, &mut work)
}

/// The typing of a method: for each offset the stack that the instruction there finds.
pub fn typing_of(alloc: Global, program: &Program, method: &Method) -> Result<Typing, AllocError>
    requires types { AreTypes program.now.types }
    requires formed { IsFormed method.now }
    ensures table { IfOk result (λ t. IsTable program.now method.now (table_of t)) }
    ensures valid { IfOk result IsValid }
{
    let mut typing = untyped(alloc, method)?;
    settle_from(alloc, program, method, &mut typing)?;
    Ok(typing)
}
