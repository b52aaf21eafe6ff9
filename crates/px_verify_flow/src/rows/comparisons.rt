// Comparisons, and branches by what is on the stack: Partition III, 1.5.
ghost use Rattle.std.specs.Prelude.{◌≡◌};
ghost use Rattle.px_verify_flow.specs.Outcome.{Gives};
ghost use Rattle.px_verify_flow.specs.Rows.{branch_compare_row, drop_row, can_compare, compare_row, int32_row, is_above, is_equality, is_int32, is_reference};
ghost use Rattle.px_verify_kinds.specs.Stacks.{Extends, IsStack, kinds_of};

use super::numbers::binary_kind;
use super::steps::{need, pop, push};
use crate::Stop;
use px_program::Test;
use px_verify_kinds::{Kind, Stack, Stacks};

/// Whether it is a reference or null.
pub fn is_reference(kind: Kind) -> bool
    ensures { result ≡ is_reference kind }
{
    matches!(kind, Kind::Null | Kind::Ref(_))
}

fn is_int32(kind: Kind) -> bool
    ensures { result ≡ is_int32 kind }
{
    matches!(kind, Kind::I)
}

fn is_equality(test: Test) -> bool
    ensures { result ≡ is_equality test }
{
    matches!(test, Test::Eq | Test::Ne)
}

fn is_above(test: Test) -> bool
    ensures { result ≡ is_above test }
{
    matches!(test, Test::Gt)
}

// Whether they are numbers of one kind, a native one and an int32, or, where the test is one for them, references.
fn can_compare(references: bool, first: Kind, second: Kind) -> bool
    ensures { result ≡ can_compare references first second }
{
    match binary_kind(first, second) {
        Some(_) => true,
        None => references && is_reference(first) && is_reference(second),
    }
}

/// A comparison whose result is pushed.
pub fn compare_row(
    stacks: &mut Stacks,
    test: Test,
    signed: bool,
    stack: Stack,
) -> Result<Stack, Stop>
    requires { IsStack stacks.old stack }
    ensures gives { Gives stacks.new result (compare_row test signed (kinds_of stacks.old stack)) }
    ensures kept { Extends stacks.old stacks.new }
{
    let references = is_equality(test) || (is_above(test) && !signed);
    let (second, rest) = pop(stacks, stack)?;
    let (first, below) = pop(stacks, rest)?;
    need(can_compare(references, first, second))?;
    push(stacks, below, Kind::I)
}

/// A branch by a comparison.
pub fn branch_compare_row(stacks: &Stacks, test: Test, stack: Stack) -> Result<Stack, Stop>
    requires { IsStack stacks.now stack }
    ensures { Gives stacks.now result (branch_compare_row test (kinds_of stacks.now stack)) }
{
    let (second, rest) = pop(stacks, stack)?;
    let (first, below) = pop(stacks, rest)?;
    need(can_compare(is_equality(test), first, second))?;
    Ok(below)
}

/// A value is taken, as by `pop` or a branch by whether it is zero or null.
pub fn drop_row(stacks: &Stacks, stack: Stack) -> Result<Stack, Stop>
    requires { IsStack stacks.now stack }
    ensures { Gives stacks.now result (drop_row (kinds_of stacks.now stack)) }
{
    let (_, below) = pop(stacks, stack)?;
    Ok(below)
}

/// A number of 32 bits is taken.
pub fn int32_row(stacks: &Stacks, stack: Stack) -> Result<Stack, Stop>
    requires { IsStack stacks.now stack }
    ensures { Gives stacks.now result (int32_row (kinds_of stacks.now stack)) }
{
    let (value, below) = pop(stacks, stack)?;
    need(is_int32(value))?;
    Ok(below)
}
