// The steps of which each row is made.
ghost use Rattle.std.specs.Prelude.{◌≡◌, ◌∷◌, [], Ok, true, false, MatchResult, Some, None};
ghost use Rattle.px_verify_flow.specs.Outcome.{Gives};
ghost use Rattle.px_verify_kinds.specs.Stacks.{Extends, IsStack, kinds_of};

use crate::{Stop, VerifyKind};
use px_verify_kinds::{Kind, Stack, Stacks};

/// The top of a stack, and the stack below it.
pub fn pop(stacks: &Stacks, stack: Stack) -> Result<(Kind, Stack), Stop>
    requires { IsStack stacks.now stack }
    ensures { MatchResult result (λ p. (kinds_of stacks.now stack ≡ p.0 ∷ kinds_of stacks.now p.1) × IsStack stacks.now p.1) (λ stop. (kinds_of stacks.now stack ≡ []) × (stop ≡ Stop.Fault VerifyKind.Underflow)) }
{
    match stacks.pop(stack) {
        None => Err(Stop::Fault(VerifyKind::Underflow)),
        Some(popped) => Ok(popped),
    }
}

/// A demand, and the fault where it isn't met.
pub fn demand(holds: bool, fault: VerifyKind) -> Result<(), Stop>
    ensures { MatchResult result (λ _. holds ≡ true) (λ stop. (holds ≡ false) × (stop ≡ Stop.Fault fault)) }
{
    if holds {
        Ok(())
    } else {
        Err(Stop::Fault(fault))
    }
}

/// A demand on what is there.
pub fn need(holds: bool) -> Result<(), Stop>
    ensures { MatchResult result (λ _. holds ≡ true) (λ stop. (holds ≡ false) × (stop ≡ Stop.Fault VerifyKind.Mismatch)) }
{
    demand(holds, VerifyKind::Mismatch)
}

/// The kind that must be there.
pub fn some(kind: Option<Kind>) -> Result<Kind, Stop>
    ensures { MatchResult result (λ there. kind ≡ Some there) (λ stop. (kind ≡ None) × (stop ≡ Stop.Fault VerifyKind.Mismatch)) }
{
    match kind {
        None => Err(Stop::Fault(VerifyKind::Mismatch)),
        Some(there) => Ok(there),
    }
}

/// The stack with one more kind on it.
pub fn push(stacks: &mut Stacks, below: Stack, kind: Kind) -> Result<Stack, Stop>
    requires { IsStack stacks.old below }
    ensures gives { Gives stacks.new result (Ok (kind ∷ kinds_of stacks.old below)) }
    ensures kept { Extends stacks.old stacks.new }
{
    Ok(stacks.push(below, kind)?)
}

/// The empty stack.
pub fn nothing(stacks: &Stacks) -> Result<Stack, Stop>
    ensures { Gives stacks.now result (Ok []) }
{
    Ok(Stack::empty())
}
