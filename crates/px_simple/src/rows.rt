// What instructions take from the stack and leave on it.
ghost use Rattle.std.specs.Prelude.{◌≡◌, ◌≤◌, ◌==◌};
ghost use Rattle.std.specs.List.{list_any};
ghost use Rattle.px_program.specs.Formed.{targets_of};
ghost use Rattle.px_simple.specs.Simple.{has_value, is_int32, is_known, is_last, is_sum, is_turn, left, taken};

use px_program::{Arithmetic, Code, Method, Move, Place};

// How many operands an instruction takes, where it is one that may stand.
pub(crate) fn taken(code: &Code) -> usize
    ensures is { result ≡ taken code.now }
    ensures small { result ≤ 2 }
{
    match code {
        Code::BranchTruth { .. } | Code::Return => 1,
        Code::Arithmetic(_) | Code::BranchCompare { .. } => 2,
        _ => 0,
    }
}

// How many it leaves.
pub(crate) fn left(code: &Code) -> usize
    ensures is { result ≡ left code.now }
    ensures small { result ≤ 1 }
{
    match code {
        Code::Move(_) | Code::Arithmetic(_) => 1,
        _ => 0,
    }
}

// Whether it is a branch or a return.
pub(crate) fn is_turn(code: &Code) -> bool
    ensures { result ≡ is_turn code.now }
{
    match code {
        Code::Branch(_) | Code::BranchTruth { .. } | Code::BranchCompare { .. } => true,
        Code::Return => true,
        _ => false,
    }
}

// Whether it never goes on to the next instruction.
pub(crate) fn is_last(code: &Code) -> bool
    ensures { result ≡ is_last code.now }
{
    matches!(code, Code::Branch(_) | Code::Return)
}

// Whether there is a place, and it is that of an int32.
fn is_int32(place: Option<Place>) -> bool
    ensures { result ≡ is_int32 place }
{
    matches!(place, Some(Place::I4))
}

// Whether the value is that of an int32 parameter, or an int32 constant.
fn has_value(method: &Method, value: &Move) -> bool
    ensures { result ≡ has_value method.now value.now }
{
    match value {
        Move::Argument(n) => is_int32(method.param(*n)),
        Move::Constant32(pattern) => {
            // where a proof reads a number it knows that it fits its type
            let _pattern = *pattern;
            true
        }
        _ => false,
    }
}

// Whether it is `add` or `sub`.
fn is_sum(operation: Arithmetic) -> bool
    ensures { result ≡ is_sum operation }
{
    matches!(operation, Arithmetic::Add | Arithmetic::Sub)
}

// Whether the instruction is one that may stand, and names only what is there.
pub(crate) fn is_known(method: &Method, code: &Code) -> bool
    ensures { result ≡ is_known method.now code.now }
{
    match code {
        Code::Nop { is_break } => !*is_break,
        Code::Move(value) => has_value(method, value),
        Code::Arithmetic(operation) => is_sum(*operation),
        Code::Branch(_) | Code::BranchTruth { .. } => true,
        Code::BranchCompare { .. } | Code::Return => true,
        _ => false,
    }
}
