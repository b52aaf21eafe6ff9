// Casts of references, and what is thrown.
ghost use Rattle.std.specs.Prelude.{Ok, if◌then◌else◌};
ghost use Rattle.px_program.specs.Formed.{AreTypes};
ghost use Rattle.px_verify_flow.specs.Outcome.{Gives};
ghost use Rattle.px_verify_flow.specs.Rows.{cast_row, throw_row};
ghost use Rattle.px_verify_kinds.specs.Stacks.{Extends, IsStack, kinds_of};

use super::comparisons::is_reference;
use super::steps::{need, pop, push};
use crate::Stop;
use px_program::Program;
use px_verify_kinds::{Kind, Stack, Stacks, fits_kind};

/// A reference becomes one to a class.
pub fn cast_row(stacks: &mut Stacks, class: u32, stack: Stack) -> Result<Stack, Stop>
    requires { IsStack stacks.old stack }
    ensures gives { Gives stacks.new result (cast_row class (kinds_of stacks.old stack)) }
    ensures kept { Extends stacks.old stacks.new }
{
    let (object, below) = pop(stacks, stack)?;
    need(is_reference(object))?;
    push(stacks, below, Kind::Ref(class))
}

// The number of the type `Exception`.
const EXCEPTION: u32 = 1;

// An exception is taken.
fn throw_row(stacks: &Stacks, program: &Program, stack: Stack) -> Result<Stack, Stop>
    requires types { AreTypes program.now.types }
    requires stack { IsStack stacks.now stack }
    ensures { Gives stacks.now result (throw_row program.now.types (kinds_of stacks.now stack)) }
{
    let (thrown, below) = pop(stacks, stack)?;
    need(fits_kind(program, thrown, Kind::Ref(EXCEPTION)))?;
    Ok(below)
}

/// An exception is taken, or, where one that was caught is thrown again, nothing.
pub fn throw_or_again_row(
    stacks: &Stacks,
    program: &Program,
    again: bool,
    stack: Stack,
) -> Result<Stack, Stop>
    requires types { AreTypes program.now.types }
    requires stack { IsStack stacks.now stack }
    ensures { Gives stacks.now result (if again then Ok (kinds_of stacks.now stack) else throw_row program.now.types (kinds_of stacks.now stack)) }
{
    if again {
        Ok(stack)
    } else {
        throw_row(stacks, program, stack)
    }
}
