// Why a program isn't linked.
ghost use Rattle.std.specs.Prelude.{◌≡◌};

use px_code::BodyFault;
use std::alloc::{AllocError, AllocFailed};

/// Why a program isn't linked.
#[derive(Drop)]
pub enum LinkFault {
    Memory,
    /// No method has the name.
    NoMethod,
    /// More than one method has the name.
    Ambiguous,
    /// The method has no body, or its signature isn't plain.
    NoBody,
    /// A parameter, counted from 0, is neither an integer nor an array of integers, or is the seventeenth.
    BadParameter(u32),
    /// The method needs an object, and its class has no constructor that takes nothing and has a body.
    NoMaker,
    /// The body of a method, by its number in the program, isn't read.
    BadBody { fault: BodyFault, method: u32 },
}

/// Why the program of a raw body isn't made.
#[derive(Clone, Copy)]
pub enum RawFault {
    Memory,
    /// The body names a signature of locals, which only an assembly has.
    RawLocals,
}

impl From<AllocError> for LinkFault {
    ghost use Rattle.px_link.specs.declared.fault.LinkFault.TheVariants.{Memory};

    ghost from_gives = { λ _ e. e ≡ Memory };

    fn from(_: AllocError) -> Self {
        LinkFault::Memory
    }
}

impl<T: Drop> From<AllocFailed<T>> for LinkFault {
    ghost use Rattle.px_link.specs.declared.fault.LinkFault.TheVariants.{Memory};

    ghost from_gives = { λ _ e. e ≡ Memory };

    fn from(_: AllocFailed<T>) -> Self {
        LinkFault::Memory
    }
}

impl From<AllocError> for RawFault {
    ghost use Rattle.px_link.specs.declared.fault.RawFault.TheVariants.{Memory};

    ghost from_gives = { λ _ e. e ≡ Memory };

    fn from(_: AllocError) -> Self {
        RawFault::Memory
    }
}
