// Why a text is no domain, or no arguments.
ghost use Rattle.std.specs.Prelude.{◌≡◌};

use std::alloc::{AllocError, AllocFailed};

/// Why a text was not read as a domain.
#[derive(Clone, Copy, PartialEq, Eq)]
pub enum DomainFault {
    /// Memory ran out.
    Memory,
    /// The text is no domain: its first fault is at this byte, or at its length where something is missing.
    Bad { at: u32 },
}

impl From<AllocError> for DomainFault {
    ghost use Rattle.px_domain.specs.declared.fault.DomainFault.TheVariants.{Memory};

    ghost from_gives = { λ _ e. e ≡ Memory };

    fn from(_: AllocError) -> Self {
        DomainFault::Memory
    }
}

impl<T: Drop> From<AllocFailed<T>> for DomainFault {
    ghost use Rattle.px_domain.specs.declared.fault.DomainFault.TheVariants.{Memory};

    ghost from_gives = { λ _ e. e ≡ Memory };

    fn from(_: AllocFailed<T>) -> Self {
        DomainFault::Memory
    }
}

/// Why a text was not read as arguments in a domain.
#[derive(Clone, Copy, PartialEq, Eq)]
pub enum ArgsFault {
    /// Memory ran out.
    Memory,
    /// The text has no arguments in the domain: this is the first byte of the first group that is out of form or whose value the domain doesn't have, or of
    /// what follows the last group, or the text's length where a group is missing.
    Bad { at: u32 },
}

impl From<AllocError> for ArgsFault {
    ghost use Rattle.px_domain.specs.declared.fault.ArgsFault.TheVariants.{Memory};

    ghost from_gives = { λ _ e. e ≡ Memory };

    fn from(_: AllocError) -> Self {
        ArgsFault::Memory
    }
}
