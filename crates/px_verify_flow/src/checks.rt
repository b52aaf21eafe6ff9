// What goes on from an instruction, or its first fault.
ghost use Rattle.std.specs.Prelude.{◌≡◌};
ghost use Rattle.px_program.specs.Formed.{AreTypes, end_of};
ghost use Rattle.px_verify_flow.specs.Flow.{falls_off, flow, is_bad_return, is_deep, is_outside, is_returned, passed, returns};
ghost use Rattle.px_verify_flow.specs.Outcome.{Gives};
ghost use Rattle.px_verify_kinds.specs.Stacks.{Extends, IsStack, kinds_of};

use crate::effect::effect;
use crate::leaving::{goes_on, is_bad_leave, is_in_clause};
use crate::rows::steps::demand;
use crate::{Stop, VerifyKind};
use px_program::{Code, Instr, Method, Place, Program};
use px_verify_kinds::{Stack, Stacks, fits_kind, kind_of};

// Whether what is returned, and nothing else, is on the stack.
fn is_returned(stacks: &Stacks, program: &Program, ret: Option<Place>, stack: Stack) -> bool
    requires types { AreTypes program.now.types }
    requires stack { IsStack stacks.now stack }
    ensures { result ≡ is_returned program.now.types ret (kinds_of stacks.now stack) }
{
    match (ret, stacks.pop(stack)) {
        (None, None) => true,
        (Some(place), Some((kind, below))) => {
            stacks.pop(below).is_none() && fits_kind(program, kind, kind_of(place))
        }
        _ => false,
    }
}

fn returns(code: &Code) -> bool
    ensures { result ≡ returns code.now }
{
    matches!(code, Code::Return)
}

// Whether it is a `ret` in a clause's range or block, or on another stack than what is returned.
fn is_bad_return(
    stacks: &Stacks,
    program: &Program,
    method: &Method,
    instr: &Instr,
    stack: Stack,
) -> bool
    requires types { AreTypes program.now.types }
    requires stack { IsStack stacks.now stack }
    ensures { result ≡ is_bad_return program.now method.now instr.now (kinds_of stacks.now stack) }
{
    returns(&instr.code)
        && (!is_returned(stacks, program, method.ret, stack)
            || is_in_clause(instr.offset, method.clauses.as_slice()))
}

// Whether more values are on the stack than the method says.
fn is_deep(stacks: &Stacks, method: &Method, stack: Stack) -> bool
    requires { IsStack stacks.now stack }
    ensures { result ≡ is_deep method.now (kinds_of stacks.now stack) }
{
    u32::from(method.max_stack) < stacks.height(stack)
}

// The offset behind the last instruction.
fn end_of(instrs: &[Instr]) -> u32
    ensures { result ≡ end_of instrs.now }
{
    match instrs.last() {
        None => 0,
        Some(instr) => instr.next,
    }
}

// Whether the instruction goes on where the code ends.
fn falls_off(method: &Method, instr: &Instr) -> bool
    ensures { result ≡ falls_off method.now instr.now }
{
    goes_on(&instr.code) && end_of(method.code.as_slice()) <= instr.next
}

// The checks of an instruction behind its effect, in order.
fn passed(
    stacks: &Stacks,
    program: &Program,
    method: &Method,
    instr: &Instr,
    before: Stack,
    after: Stack,
) -> Result<Stack, Stop>
    requires types { AreTypes program.now.types }
    requires before { IsStack stacks.now before }
    requires after { IsStack stacks.now after }
    ensures { Gives stacks.now result (passed program.now method.now instr.now (kinds_of stacks.now before) (kinds_of stacks.now after)) }
{
    let is_bad = is_bad_return(stacks, program, method, instr, before);
    demand(!is_bad, VerifyKind::BadRet)?;
    let is_bad = is_bad_leave(instr, method.clauses.as_slice());
    demand(!is_bad, VerifyKind::BadLeave)?;
    let is_deep = is_deep(stacks, method, before) || is_deep(stacks, method, after);
    demand(!is_deep, VerifyKind::Depth)?;
    demand(!falls_off(method, instr), VerifyKind::FallsOff)?;
    Ok(after)
}

fn is_outside(code: &Code) -> bool
    ensures { result ≡ is_outside code.now }
{
    matches!(code, Code::Outside(..))
}

/// What goes on from an instruction that finds this stack, or its first fault but a bad merge. One that isn't run has none.
pub fn flow(
    program: &Program,
    method: &Method,
    instr: &Instr,
    stacks: &mut Stacks,
    stack: Stack,
) -> Result<Stack, Stop>
    requires types { AreTypes program.now.types }
    requires stack { IsStack stacks.old stack }
    ensures gives { Gives stacks.new result (flow program.now method.now instr.now (kinds_of stacks.old stack)) }
    ensures kept { Extends stacks.old stacks.new }
{
    if is_outside(&instr.code) {
        return Ok(stack);
    }
    let after = effect(program, method, &instr.code, stacks, stack)?;
    passed(stacks, program, method, instr, stack, after)
}
