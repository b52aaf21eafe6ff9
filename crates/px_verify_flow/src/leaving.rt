// How instructions lead to others, and go into protected ranges and handler blocks and out of them.
ghost use Rattle.std.specs.Prelude.{◌≡◌, IfOk};
ghost use Rattle.std.specs.List.{list_any};
ghost use Rattle.px_program.specs.Formed.{targets_of};
ghost use Rattle.px_verify_flow.specs.Leaving.{any_strays, block_width, differ, ends_finally, goes_on, has_kind, in_block, in_range, innermost, is_around, is_bad_leave, is_catch, leave_strays, shorter, strays, successors};

use px_program::{Clause, ClauseKind, Code, Instr};
use std::alloc::{AllocError, Global};

/// Whether an instruction may go on with the next one.
pub fn goes_on(code: &Code) -> bool
    ensures { result ≡ goes_on code.now }
{
    !matches!(
        code,
        Code::Branch(_)
            | Code::Return
            | Code::Throw { .. }
            | Code::Leave(_)
            | Code::EndFinally
            | Code::Outside(..)
    )
}

// The offsets to which it may lead beside the next one.
fn targets_of(code: &Code) -> &[u32]
    ensures { result.now ≡ targets_of code.now }
{
    match code {
        Code::Branch(target) | Code::Leave(target) => std::slice::from_ref(target),
        Code::BranchTruth { target, .. } | Code::BranchCompare { target, .. } => {
            std::slice::from_ref(target)
        }
        Code::Switch(targets) => targets.as_slice(),
        _ => &[],
    }
}

/// The offsets to which an instruction may lead, in order.
pub fn successors(alloc: Global, instr: &Instr) -> Result<Vec<u32>, AllocError>
    ensures { IfOk result (λ to. to.items ≡ successors instr.now) }
{
    let mut to = Vec::new(alloc);
    if goes_on(&instr.code) {
        to.push(instr.next)?;
    }
    to.extend_from_slice(targets_of(&instr.code))?;
    Ok(to)
}

fn in_range(at: u32, clause: &Clause) -> bool
    ensures { result ≡ in_range at clause.now }
{
    clause.from <= at && at < clause.to
}

fn in_block(at: u32, clause: &Clause) -> bool
    ensures { result ≡ in_block at clause.now }
{
    clause.start <= at && at < clause.stop
}

/// Whether an offset lies in a clause's range or in its block.
pub fn is_around(at: u32, clause: &Clause) -> bool
    ensures { result ≡ is_around at clause.now }
{
    in_range(at, clause) || in_block(at, clause)
}

// Whether a flow goes into the block or out of it.
fn crosses(at: u32, to: u32, clause: &Clause) -> bool
    ensures { result ≡ differ (in_block at clause.now) (in_block to clause.now) }
{
    in_block(at, clause) != in_block(to, clause)
}

// Whether a flow exits the range, or goes into the block or out of it.
fn strays(at: u32, to: u32, clause: &Clause) -> bool
    ensures { result ≡ strays at to clause.now }
{
    (in_range(at, clause) && !in_range(to, clause)) || crosses(at, to, clause)
}

fn is_catch(kind: ClauseKind) -> bool
    ensures { result ≡ is_catch kind }
{
    matches!(kind, ClauseKind::Catch)
}

// Whether a block of this kind ends by `endfinally`.
fn ends_finally(kind: ClauseKind) -> bool
    ensures { result ≡ ends_finally kind }
{
    matches!(kind, ClauseKind::Finally | ClauseKind::Fault)
}

// Whether a `leave` goes into a finally or fault block or out of it, or into a catch block.
fn leave_strays(at: u32, to: u32, clause: &Clause) -> bool
    ensures { result ≡ leave_strays at to clause.now }
{
    (ends_finally(clause.kind) && crosses(at, to, clause))
        || (is_catch(clause.kind) && in_block(to, clause) && !in_block(at, clause))
}

// Whether a `leave` strays from some clause.
fn any_leave_strays(at: u32, to: u32, clauses: &[Clause]) -> bool
    ensures { result ≡ list_any (leave_strays at to) clauses.now }
{
    for clause in clauses {
        if leave_strays(at, to, clause) {
            return true;
        }
    }
    false
}

// Whether a flow strays from some clause.
fn any_strays_to(at: u32, to: u32, clauses: &[Clause]) -> bool
    ensures { result ≡ list_any (strays at to) clauses.now }
{
    for clause in clauses {
        if strays(at, to, clause) {
            return true;
        }
    }
    false
}

// Whether a flow to some target strays.
fn any_strays(at: u32, targets: &[u32], clauses: &[Clause]) -> bool
    ensures { result ≡ any_strays at targets.now clauses.now }
{
    for target in targets {
        if any_strays_to(at, *target, clauses) {
            return true;
        }
    }
    false
}

// Whether the instruction, that is no `leave`, strays from some clause.
fn strays_away(instr: &Instr, clauses: &[Clause]) -> bool
    ensures { result ≡ any_strays instr.now.offset (successors instr.now) clauses.now }
{
    let at = instr.offset;
    (goes_on(&instr.code) && any_strays_to(at, instr.next, clauses))
        || any_strays(at, targets_of(&instr.code), clauses)
}

fn block_width(clause: Clause) -> u32
    ensures { result ≡ block_width clause }
{
    clause.stop.saturating_sub(clause.start)
}

// The one with the shorter block, the first where they are alike.
fn shorter(clause: Clause, other: Option<Clause>) -> Clause
    ensures { result ≡ shorter clause other }
{
    match other {
        None => clause,
        Some(other) => {
            if block_width(other) < block_width(clause) {
                other
            } else {
                clause
            }
        }
    }
}

// The clause with the shortest block around an offset, the first of those alike.
fn innermost(at: u32, clauses: &[Clause]) -> Option<Clause>
    ensures { result ≡ innermost at clauses.now }
{
    let mut found = None;
    for index in (0..clauses.len()).rev() {
        let clause = clauses[index];
        if in_block(at, &clause) {
            found = Some(shorter(clause, found));
        }
    }
    found
}

// Whether the innermost block around an offset ends by `endfinally`.
fn is_in_finally(at: u32, clauses: &[Clause]) -> bool
    ensures { result ≡ has_kind ends_finally (innermost at clauses.now) }
{
    match innermost(at, clauses) {
        None => false,
        Some(clause) => ends_finally(clause.kind),
    }
}

// Whether the innermost block around an offset catches.
fn is_in_catch(at: u32, clauses: &[Clause]) -> bool
    ensures { result ≡ has_kind is_catch (innermost at clauses.now) }
{
    match innermost(at, clauses) {
        None => false,
        Some(clause) => is_catch(clause.kind),
    }
}

/// Whether an instruction goes into a range or a block or out of it where it must not, or stands in no block of its kind.
pub fn is_bad_leave(instr: &Instr, clauses: &[Clause]) -> bool
    ensures { result ≡ is_bad_leave instr.now clauses.now }
{
    match &instr.code {
        Code::Leave(target) => any_leave_strays(instr.offset, *target, clauses),
        Code::EndFinally => !is_in_finally(instr.offset, clauses),
        Code::Throw { again } => {
            if *again {
                !is_in_catch(instr.offset, clauses)
            } else {
                strays_away(instr, clauses)
            }
        }
        _ => strays_away(instr, clauses),
    }
}

/// Whether an offset lies in the range or the block of some clause.
pub fn is_in_clause(at: u32, clauses: &[Clause]) -> bool
    ensures { result ≡ list_any (is_around at) clauses.now }
{
    for clause in clauses {
        if is_around(at, clause) {
            return true;
        }
    }
    false
}
