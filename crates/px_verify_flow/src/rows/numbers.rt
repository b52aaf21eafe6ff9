// Numbers: Partition III, 1.5.
ghost use Rattle.std.specs.Prelude.{◌≡◌};
ghost use Rattle.px_verify_flow.specs.Outcome.{Gives};
ghost use Rattle.px_verify_flow.specs.Rows.{binary_kind, binary_row, convert_row, is_count, is_number, kind_of_integer, shift_row, unary_row};
ghost use Rattle.px_verify_kinds.specs.Stacks.{Extends, IsStack, kinds_of};

use super::steps::{need, pop, push, some};
use crate::Stop;
use px_program::IntegerType;
use px_verify_kinds::{Kind, Stack, Stacks};

/// Whether it is a number.
pub fn is_number(kind: Kind) -> bool
    ensures { result ≡ is_number kind }
{
    matches!(kind, Kind::I | Kind::L | Kind::N)
}

/// Whether it is a number that counts: a length, a place in an array, or the width of a shift.
pub fn is_count(kind: Kind) -> bool
    ensures { result ≡ is_count kind }
{
    matches!(kind, Kind::I | Kind::N)
}

/// What a binary operation on two numbers gives.
pub fn binary_kind(first: Kind, second: Kind) -> Option<Kind>
    ensures { result ≡ binary_kind first second }
{
    match (first, second) {
        (Kind::I, Kind::I) => Some(Kind::I),
        (Kind::L, Kind::L) => Some(Kind::L),
        (Kind::N, Kind::N) | (Kind::I, Kind::N) | (Kind::N, Kind::I) => Some(Kind::N),
        _ => None,
    }
}

/// An operation on two numbers.
pub fn binary_row(stacks: &mut Stacks, stack: Stack) -> Result<Stack, Stop>
    requires { IsStack stacks.old stack }
    ensures gives { Gives stacks.new result (binary_row (kinds_of stacks.old stack)) }
    ensures kept { Extends stacks.old stacks.new }
{
    let (second, rest) = pop(stacks, stack)?;
    let (first, below) = pop(stacks, rest)?;
    let kind = some(binary_kind(first, second))?;
    push(stacks, below, kind)
}

/// A shift.
pub fn shift_row(stacks: &mut Stacks, stack: Stack) -> Result<Stack, Stop>
    requires { IsStack stacks.old stack }
    ensures gives { Gives stacks.new result (shift_row (kinds_of stacks.old stack)) }
    ensures kept { Extends stacks.old stacks.new }
{
    let (count, rest) = pop(stacks, stack)?;
    let (value, below) = pop(stacks, rest)?;
    need(is_number(value) && is_count(count))?;
    push(stacks, below, value)
}

/// An operation on one number.
pub fn unary_row(stacks: &mut Stacks, stack: Stack) -> Result<Stack, Stop>
    requires { IsStack stacks.old stack }
    ensures gives { Gives stacks.new result (unary_row (kinds_of stacks.old stack)) }
    ensures kept { Extends stacks.old stacks.new }
{
    let (value, below) = pop(stacks, stack)?;
    need(is_number(value))?;
    push(stacks, below, value)
}

/// The kind of an integer type.
pub fn kind_of_integer(integer: IntegerType) -> Kind
    ensures { result ≡ kind_of_integer integer }
{
    match integer {
        IntegerType::I8 | IntegerType::U8 => Kind::L,
        IntegerType::N | IntegerType::UN => Kind::N,
        _ => Kind::I,
    }
}

/// A conversion to an integer type.
pub fn convert_row(stacks: &mut Stacks, to: IntegerType, stack: Stack) -> Result<Stack, Stop>
    requires { IsStack stacks.old stack }
    ensures gives { Gives stacks.new result (convert_row to (kinds_of stacks.old stack)) }
    ensures kept { Extends stacks.old stacks.new }
{
    let (value, below) = pop(stacks, stack)?;
    need(is_number(value))?;
    push(stacks, below, kind_of_integer(to))
}
