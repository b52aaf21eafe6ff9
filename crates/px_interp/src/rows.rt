// The rows of the table of instructions.
ghost use Rattle.std.specs.Prelude.{◌≡◌, ◌≤◌, ◌<◌, ◌^◌, ◌∷◌, IfOk, IsSome, List, Some, length};
ghost use Rattle.std.specs.List.{AllByRecursion};
ghost use Rattle.px_words.specs.Operator.{bits_of};
ghost use Rattle.px_interp.specs.Rows.{HasScalar, Needs, made, step_of};
ghost use Rattle.px_interp.specs.Table.{branch_event, branched, compare_of, condition, is_zero, landing, less, on_arithmetic, on_compare, on_move, on_return, on_truth, operator_of, row, truth_compare};

use crate::machine::Seen;
use crate::stack::Stack;
use px_cells::{Worded, apply_two, constant};
use px_program::{Arithmetic, Code, Compare, End, Event, Instr, Move, Site, SiteKind, Test, Value};
use px_rank::gap;
use px_words::Op;
use std::alloc::{AllocError, Global};

/// What a step leads to: an offset, perhaps after an event, or an end.
#[derive(Drop)]
pub enum Next<W> {
    Goes(u32),
    Chooses(Seen<W>, u32),
    Ends(End),
}

/// Where an instruction stands: the number of its method, its offset, and the offset after it.
#[derive(Clone, Copy)]
pub struct Position {
    pub method: u32,
    pub offset: u32,
    pub next: u32,
}

// The operator on 32 bits of an operation that has one.
fn operator_of(operation: Arithmetic) -> Op
    requires { IsSome (operator_of operation) }
    ensures { operator_of operation ≡ Some result }
{
    match operation {
        Arithmetic::Add => Op::Add { wide: false },
        Arithmetic::Sub => Op::Sub { wide: false },
        _ => unreachable!(),
    }
}

fn less(compare: Compare) -> Op
    ensures { result ≡ less compare }
{
    if compare.signed {
        Op::LtS { wide: compare.wide }
    } else {
        Op::LtU { wide: compare.wide }
    }
}

// What `brtrue` asks of its operand beside 0, or else `brfalse`.
fn truth_compare(when: bool) -> Compare
    ensures { result ≡ truth_compare when }
{
    compare_of(if when { Test::Ne } else { Test::Eq }, true)
}

fn compare_of(test: Test, signed: bool) -> Compare
    ensures { result ≡ compare_of test signed }
{
    Compare {
        test,
        signed,
        wide: false,
    }
}

// 1 where the scalar is 0, and else 0.
fn is_zero<W: Worded>(alloc: Global, pool: &mut W::Pool, x: W) -> Result<W, AllocError>
    requires pool { W.sound pool.old }
    requires scalar { W.stands pool.old 32 x }
    ensures { IfOk result (λ z. is_zero W.algebra (made x pool.old) ≡ made z pool.new) }
{
    let zero = constant(alloc, pool, false, 0)?;
    apply_two(alloc, pool, Op::Eq { wide: false }, x, zero)
}

// 1 where the comparison holds, and else 0.
fn condition<W: Worded>(
    alloc: Global,
    pool: &mut W::Pool,
    compare: Compare,
    x: W,
    y: W,
) -> Result<W, AllocError>
    requires pool { W.sound pool.old }
    requires left { W.stands pool.old (bits_of compare.wide) x }
    requires right { W.stands pool.old (bits_of compare.wide) y }
    ensures { IfOk result (λ z. condition W.algebra compare x y pool.old ≡ made z pool.new) }
{
    let equal = Op::Eq { wide: compare.wide };
    let less = less(compare);
    match compare.test {
        Test::Eq => apply_two(alloc, pool, equal, x, y),
        Test::Lt => apply_two(alloc, pool, less, x, y),
        Test::Gt => apply_two(alloc, pool, less, y, x),
        Test::Ne => {
            let holds = apply_two(alloc, pool, equal, x, y)?;
            is_zero(alloc, pool, holds)
        }
        Test::Ge => {
            let holds = apply_two(alloc, pool, less, x, y)?;
            is_zero(alloc, pool, holds)
        }
        Test::Le => {
            let holds = apply_two(alloc, pool, less, y, x)?;
            is_zero(alloc, pool, holds)
        }
    }
}

// A branch on a comparison, whatever is left on the stack.
fn branched<W: Worded>(
    alloc: Global,
    pool: &mut W::Pool,
    position: Position,
    target: u32,
    compare: Compare,
    x: W,
    y: W,
) -> Result<Next<W>, AllocError>
    requires pool { W.sound pool.old }
    requires left { W.stands pool.old (bits_of compare.wide) x }
    requires right { W.stands pool.old (bits_of compare.wide) y }
    ensures { IfOk result (λ next. (stack : List W) → step_of next stack pool.new ≡ branched W.algebra position.method position.offset position.next target stack compare x y pool.old) }
{
    let gap = gap(compare, x.word(), y.word());
    let condition = condition(alloc, pool, compare, x, y)?;
    let side = condition.word() as u32;
    let site = Site {
        method: position.method,
        offset: position.offset,
        kind: SiteKind::Branch,
        arity: 2,
    };
    let seen = Seen {
        event: Event { site, side },
        gap,
        side: condition,
    };
    Ok(Next::Chooses(seen, if side == 0 { position.next } else { target }))
}

fn on_move<W: Worded>(
    alloc: Global,
    pool: &mut W::Pool,
    value: &Move,
    next: u32,
    args: &[W],
    stack: &mut Stack<W>,
) -> Result<Next<W>, AllocError>
    requires pool { W.sound pool.old }
    requires value { HasScalar (length args.now) value.now }
    ensures { IfOk result (λ n. step_of n stack.new pool.new ≡ on_move W.algebra value.now args.now next stack.old pool.old) }
{
    match value {
        Move::Argument(n) => {
            stack.push(args[*n as usize])?;
            Ok(Next::Goes(next))
        }
        Move::Constant32(pattern) => {
            let x = constant(alloc, pool, false, u64::from(*pattern))?;
            stack.push(x)?;
            Ok(Next::Goes(next))
        }
        Move::Constant64(pattern) => {
            let x = constant(alloc, pool, true, *pattern)?;
            stack.push(x)?;
            Ok(Next::Goes(next))
        }
        _ => unreachable!(),
    }
}

fn on_arithmetic<W: Worded>(
    alloc: Global,
    pool: &mut W::Pool,
    operation: Arithmetic,
    next: u32,
    stack: &mut Stack<W>,
) -> Result<Next<W>, AllocError>
    requires known { IsSome (operator_of operation) }
    requires pool { W.sound pool.old }
    requires standing { AllByRecursion (W.stands pool.old 32) stack.old }
    requires deep { 2 ≤ length stack.old }
    ensures { IfOk result (λ n. step_of n stack.new pool.new ≡ on_arithmetic W.algebra (operator_of operation) next stack.old pool.old) }
{
    let y = stack.pop();
    let x = stack.pop();
    let z = apply_two(alloc, pool, operator_of(operation), x, y)?;
    stack.push(z)?;
    Ok(Next::Goes(next))
}

fn on_truth<W: Worded>(
    alloc: Global,
    pool: &mut W::Pool,
    position: Position,
    target: u32,
    when: bool,
    stack: &mut Stack<W>,
) -> Result<Next<W>, AllocError>
    requires pool { W.sound pool.old }
    requires standing { AllByRecursion (W.stands pool.old 32) stack.old }
    requires deep { 1 ≤ length stack.old }
    ensures { IfOk result (λ n. step_of n stack.new pool.new ≡ on_truth W.algebra position.method position.offset position.next target (truth_compare when) stack.old pool.old) }
{
    let x = stack.pop();
    let zero = constant(alloc, pool, false, 0)?;
    branched(alloc, pool, position, target, truth_compare(when), x, zero)
}

fn on_compare<W: Worded>(
    alloc: Global,
    pool: &mut W::Pool,
    position: Position,
    target: u32,
    compare: Compare,
    stack: &mut Stack<W>,
) -> Result<Next<W>, AllocError>
    requires pool { W.sound pool.old }
    requires standing { AllByRecursion (W.stands pool.old (bits_of compare.wide)) stack.old }
    requires deep { 2 ≤ length stack.old }
    ensures { IfOk result (λ n. step_of n stack.new pool.new ≡ on_compare W.algebra position.method position.offset position.next target compare stack.old pool.old) }
{
    let y = stack.pop();
    let x = stack.pop();
    branched(alloc, pool, position, target, compare, x, y)
}

fn on_return<W: Worded>(stack: &mut Stack<W>) -> Next<W>
    requires { 1 ≤ length stack.old }
    ensures { (pool : W.Pool) → step_of result stack.new pool ≡ on_return W.algebra stack.old pool }
{
    Next::Ends(End::Returned(Value::Number(stack.pop().word())))
}

/// Runs an instruction that finds what it needs.
pub fn act<W: Worded>(
    alloc: Global,
    instr: &Instr,
    method: u32,
    args: &[W],
    pool: &mut W::Pool,
    stack: &mut Stack<W>,
) -> Result<Next<W>, AllocError>
    requires needs { Needs (length args.now) (length stack.old) instr.now.code }
    requires pool { W.sound pool.old }
    requires standing { AllByRecursion (W.stands pool.old 32) stack.old }
    ensures { IfOk result (λ n. step_of n stack.new pool.new ≡ row W.algebra instr.now.code method instr.now.offset instr.now.next args.now stack.old pool.old) }
{
    let next = instr.next;
    let position = Position {
        method,
        offset: instr.offset,
        next,
    };
    match &instr.code {
        Code::Nop { .. } => Ok(Next::Goes(next)),
        Code::Move(value) => on_move(alloc, pool, value, next, args, stack),
        Code::Arithmetic(operation) => on_arithmetic(alloc, pool, *operation, next, stack),
        Code::Branch(target) => Ok(Next::Goes(*target)),
        Code::BranchTruth { when, target } => {
            on_truth(alloc, pool, position, *target, *when, stack)
        }
        Code::BranchCompare {
            test,
            signed,
            target,
        } => on_compare(
            alloc,
            pool,
            position,
            *target,
            compare_of(*test, *signed),
            stack,
        ),
        Code::Return => Ok(on_return(stack)),
        Code::Outside(_, _) => Ok(Next::Ends(End::Outside(method, instr.offset))),
        _ => unreachable!(),
    }
}
