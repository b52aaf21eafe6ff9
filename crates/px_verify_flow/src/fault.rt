// Faults of an instruction.
ghost use Rattle.std.specs.Prelude.{◌≡◌};

use std::alloc::AllocError;

/// What is wrong with an instruction, in the order in which faults are looked for: Partition III, 1.8.
#[derive(Clone, Copy, PartialEq, Eq)]
pub enum VerifyKind {
    /// It finds too few values.
    Underflow,
    /// It finds a value of another kind than it takes, or names a place that isn't there.
    Mismatch,
    /// A `ret` with another stack than what the method returns, or in a protected range or a handler block.
    BadRet,
    /// A way into a protected range's block or out of it that isn't allowed, or an `endfinally` or `rethrow` in no block of its kind.
    BadLeave,
    /// There are more values on the stack than the method says.
    Depth,
    /// It goes on where the code ends.
    FallsOff,
    /// Stacks that come to it don't merge.
    BadMerge,
}

/// Why an instruction gives no stack: want of memory, or its first fault.
#[derive(Clone, Copy, PartialEq, Eq)]
pub enum Stop {
    Memory,
    Fault(VerifyKind),
}

impl From<AllocError> for Stop {
    ghost use Rattle.px_verify_flow.specs.declared.fault.Stop.TheVariants.{Memory};

    ghost from_gives = { λ _ e. e ≡ Memory };

    fn from(_: AllocError) -> Self {
        Stop::Memory
    }
}
