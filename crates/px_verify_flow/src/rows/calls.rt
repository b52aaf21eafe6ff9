// Calls: the arguments are taken, and what comes back is pushed.
ghost use Rattle.std.specs.Prelude.{◌≡◌, [], ◌∷◌, ◌++◌, ◌<◌, ◌≤◌, length, nat_le};
ghost use Rattle.px_program.specs.Formed.{AreTypes, all_params, method_at};
ghost use Rattle.px_verify_flow.specs.Calls.{Takes, listed};
ghost use Rattle.px_verify_flow.specs.Outcome.{Gives};
ghost use Rattle.px_verify_flow.specs.Rows.{call_method_row, call_row, callee_row, make_row, return_kinds};
ghost use Rattle.px_verify_kinds.specs.Stacks.{Extends, IsStack, kinds_of};

use super::steps::{need, pop, push};
use crate::{Stop, VerifyKind};
use px_program::{Callee, Method, Place, Program};
use px_verify_kinds::{Kind, Stack, Stacks, fits_kind, kind_of};

// A value that fits a place is taken.
fn take_argument(
    stacks: &Stacks,
    program: &Program,
    place: Place,
    stack: Stack,
) -> Result<Stack, Stop>
    requires types { AreTypes program.now.types }
    requires stack { IsStack stacks.now stack }
    requires some { 0 < length (kinds_of stacks.now stack) }
    ensures { Takes program.now.types (place ∷ []) stacks.now stack result }
{
    let (kind, below) = pop(stacks, stack)?;
    need(fits_kind(program, kind, kind_of(place)))?;
    Ok(below)
}

// The arguments of these parameters are taken, the last one first.
fn take_arguments(
    stacks: &Stacks,
    program: &Program,
    params: &[Place],
    stack: Stack,
) -> Result<Stack, Stop>
    requires types { AreTypes program.now.types }
    requires stack { IsStack stacks.now stack }
    requires high { length params.now ≤ length (kinds_of stacks.now stack) }
    ensures { Takes program.now.types params.now stacks.now stack result }
{
    let mut rest = stack;
    for index in (0..params.len()).rev() {
        rest = take_argument(stacks, program, params[index], rest)?;
    }
    Ok(rest)
}

// The receiver is taken, where there is one.
fn take_receiver(
    stacks: &Stacks,
    program: &Program,
    receiver: Option<Place>,
    stack: Stack,
) -> Result<Stack, Stop>
    requires types { AreTypes program.now.types }
    requires stack { IsStack stacks.now stack }
    requires high { length (listed receiver) ≤ length (kinds_of stacks.now stack) }
    ensures { Takes program.now.types (listed receiver) stacks.now stack result }
{
    match receiver {
        None => Ok(stack),
        Some(place) => take_argument(stacks, program, place, stack),
    }
}

// Whether there are as many values as a call takes.
fn is_high(stacks: &Stacks, receiver: Option<Place>, params: &[Place], stack: Stack) -> bool
    requires { IsStack stacks.now stack }
    ensures { result ≡ nat_le (length (listed receiver ++ params.now)) (length (kinds_of stacks.now stack)) }
{
    let height = stacks.height(stack) as usize;
    match receiver {
        None => params.len() <= height,
        Some(_) => params.len() < height,
    }
}

// What a call takes is taken.
fn take_all(
    stacks: &Stacks,
    program: &Program,
    receiver: Option<Place>,
    params: &[Place],
    stack: Stack,
) -> Result<Stack, Stop>
    requires types { AreTypes program.now.types }
    requires stack { IsStack stacks.now stack }
    requires high { length (listed receiver ++ params.now) ≤ length (kinds_of stacks.now stack) }
    ensures { Takes program.now.types (listed receiver ++ params.now) stacks.now stack result }
{
    let rest = take_arguments(stacks, program, params, stack)?;
    take_receiver(stacks, program, receiver, rest)
}

// A call with these parameters, and the kind of what comes back.
fn call_row(
    stacks: &mut Stacks,
    program: &Program,
    receiver: Option<Place>,
    params: &[Place],
    back: Option<Kind>,
    stack: Stack,
) -> Result<Stack, Stop>
    requires types { AreTypes program.now.types }
    requires stack { IsStack stacks.old stack }
    ensures gives { Gives stacks.new result (call_row program.now.types (listed receiver ++ params.now) (listed back) (kinds_of stacks.old stack)) }
    ensures kept { Extends stacks.old stacks.new }
{
    if !is_high(stacks, receiver, params, stack) {
        return Err(Stop::Fault(VerifyKind::Underflow));
    }
    let below = take_all(stacks, program, receiver, params, stack)?;
    match back {
        None => Ok(below),
        Some(kind) => push(stacks, below, kind),
    }
}

// The receiver of a method, where it has one.
fn receiver_of(method: &Method) -> Option<Place>
    ensures { listed result ++ method.now.params ≡ all_params method.now }
{
    if method.is_static {
        None
    } else {
        Some(Place::Ref(method.owner))
    }
}

// What a return pushes.
fn return_kind(ret: Option<Place>) -> Option<Kind>
    ensures { listed result ≡ return_kinds ret }
{
    match ret {
        None => None,
        Some(place) => Some(kind_of(place)),
    }
}

/// A call of a method.
pub fn call_method_row(
    stacks: &mut Stacks,
    program: &Program,
    number: u32,
    stack: Stack,
) -> Result<Stack, Stop>
    requires types { AreTypes program.now.types }
    requires stack { IsStack stacks.old stack }
    ensures gives { Gives stacks.new result (call_method_row program.now.types (method_at program.now number) (kinds_of stacks.old stack)) }
    ensures kept { Extends stacks.old stacks.new }
{
    match program.methods.get(number as usize) {
        None => Err(Stop::Fault(VerifyKind::Mismatch)),
        Some(called) => {
            let (receiver, back) = (receiver_of(called), return_kind(called.ret));
            call_row(
                stacks,
                program,
                receiver,
                called.params.as_slice(),
                back,
                stack,
            )
        }
    }
}

/// A call.
pub fn callee_row(
    stacks: &mut Stacks,
    program: &Program,
    callee: &Callee,
    stack: Stack,
) -> Result<Stack, Stop>
    requires types { AreTypes program.now.types }
    requires stack { IsStack stacks.old stack }
    ensures gives { Gives stacks.new result (callee_row program.now callee.now (kinds_of stacks.old stack)) }
    ensures kept { Extends stacks.old stacks.new }
{
    match callee {
        Callee::Method(number) => call_method_row(stacks, program, *number, stack),
        Callee::Constructor { class, params } => {
            let receiver = Some(Place::Ref(*class));
            call_row(stacks, program, receiver, params.as_slice(), None, stack)
        }
    }
}

// A new object and a call of a method of the program as its constructor.
fn make_method_row(
    stacks: &mut Stacks,
    program: &Program,
    number: u32,
    stack: Stack,
) -> Result<Stack, Stop>
    requires types { AreTypes program.now.types }
    requires stack { IsStack stacks.old stack }
    ensures gives { Gives stacks.new result (make_row program.now (Callee.Method number) (kinds_of stacks.old stack)) }
    ensures kept { Extends stacks.old stacks.new }
{
    match program.methods.get(number as usize) {
        None => Err(Stop::Fault(VerifyKind::Mismatch)),
        Some(called) => {
            let made = Some(Kind::Ref(called.owner));
            call_row(stacks, program, None, called.params.as_slice(), made, stack)
        }
    }
}

/// A new object and a call of its constructor, which finds the object elsewhere than on the stack.
pub fn make_row(
    stacks: &mut Stacks,
    program: &Program,
    callee: &Callee,
    stack: Stack,
) -> Result<Stack, Stop>
    requires types { AreTypes program.now.types }
    requires stack { IsStack stacks.old stack }
    ensures gives { Gives stacks.new result (make_row program.now callee.now (kinds_of stacks.old stack)) }
    ensures kept { Extends stacks.old stacks.new }
{
    match callee {
        Callee::Method(number) => make_method_row(stacks, program, *number, stack),
        Callee::Constructor { class, params } => {
            let made = Some(Kind::Ref(*class));
            call_row(stacks, program, None, params.as_slice(), made, stack)
        }
    }
}
