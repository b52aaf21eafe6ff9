// Moves between the stack and arguments, locals and constants.
ghost use Rattle.std.specs.Prelude.{◌≡◌, ◌∷◌, Ok, slice_get};
ghost use Rattle.px_program.specs.Formed.{AreTypes};
ghost use Rattle.px_verify_flow.specs.Outcome.{Gives, on_pop};
ghost use Rattle.px_verify_flow.specs.Rows.{fits_place, load_row, move_row, store_row};
ghost use Rattle.px_verify_kinds.specs.Stacks.{Extends, IsStack, kinds_of};

use super::comparisons::drop_row;
use super::steps::{need, pop, push};
use crate::{Stop, VerifyKind};
use px_program::{Method, Move, Place, Program};
use px_verify_kinds::{Kind, Stack, Stacks, fits_kind, kind_of};

/// What a place that must be there holds is pushed.
pub fn load_row(stacks: &mut Stacks, place: Option<Place>, stack: Stack) -> Result<Stack, Stop>
    requires { IsStack stacks.old stack }
    ensures gives { Gives stacks.new result (load_row place (kinds_of stacks.old stack)) }
    ensures kept { Extends stacks.old stacks.new }
{
    match place {
        None => Err(Stop::Fault(VerifyKind::Mismatch)),
        Some(there) => push(stacks, stack, kind_of(there)),
    }
}

/// Whether the place is there and a value fits it.
pub fn fits_place(program: &Program, kind: Kind, place: Option<Place>) -> bool
    requires { AreTypes program.now.types }
    ensures { result ≡ fits_place program.now.types kind place }
{
    match place {
        None => false,
        Some(there) => fits_kind(program, kind, kind_of(there)),
    }
}

/// A value is taken that fits a place that must be there.
pub fn store_row(
    stacks: &Stacks,
    program: &Program,
    place: Option<Place>,
    stack: Stack,
) -> Result<Stack, Stop>
    requires types { AreTypes program.now.types }
    requires stack { IsStack stacks.now stack }
    ensures { Gives stacks.now result (store_row program.now.types place (kinds_of stacks.now stack)) }
{
    let (value, below) = pop(stacks, stack)?;
    need(fits_place(program, value, place))?;
    Ok(below)
}

// The top is pushed once more.
fn duplicate_row(stacks: &mut Stacks, stack: Stack) -> Result<Stack, Stop>
    requires { IsStack stacks.old stack }
    ensures gives { Gives stacks.new result (on_pop (kinds_of stacks.old stack) (λ value below. Ok (value ∷ value ∷ below))) }
    ensures kept { Extends stacks.old stacks.new }
{
    let (value, _) = pop(stacks, stack)?;
    push(stacks, stack, value)
}

/// What an instruction moves.
pub fn move_row(
    stacks: &mut Stacks,
    program: &Program,
    method: &Method,
    action: &Move,
    stack: Stack,
) -> Result<Stack, Stop>
    requires types { AreTypes program.now.types }
    requires stack { IsStack stacks.old stack }
    ensures gives { Gives stacks.new result (move_row program.now.types method.now action.now (kinds_of stacks.old stack)) }
    ensures kept { Extends stacks.old stacks.new }
{
    match action {
        Move::Argument(number) => load_row(stacks, method.param(*number), stack),
        Move::SetArgument(number) => store_row(stacks, program, method.param(*number), stack),
        Move::Local(number) => load_row(stacks, local_of(method, *number), stack),
        Move::SetLocal(number) => store_row(stacks, program, local_of(method, *number), stack),
        Move::Constant32(_) => push(stacks, stack, Kind::I),
        Move::Constant64(_) => push(stacks, stack, Kind::L),
        Move::Null => push(stacks, stack, Kind::Null),
        Move::Text(_) => push(stacks, stack, Kind::Ref(STRING)),
        Move::Duplicate => duplicate_row(stacks, stack),
        Move::Pop => drop_row(stacks, stack),
    }
}

// The number of the type `String`.
const STRING: u32 = 17;

// What the local of a number holds, where there is one.
fn local_of(method: &Method, number: u32) -> Option<Place>
    ensures { result ≡ slice_get method.now.locals number }
{
    method.locals.get(number as usize).copied()
}
