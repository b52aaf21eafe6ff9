// Why a blob is no signature.
ghost use Rattle.std.specs.Prelude.{◌≡◌};

use std::alloc::{AllocError, AllocFailed};

/// Why a blob was not read as a signature.
#[derive(Clone, Copy, PartialEq, Eq)]
pub enum SigFault {
    /// Memory ran out.
    Memory,
    /// The blob is no signature: its first fault is at this byte. A number or token is at fault at its first byte, and what is missing at the blob's length.
    Bad { at: u32 },
}

impl From<AllocError> for SigFault {
    ghost use Rattle.px_sig.specs.declared.fault.SigFault.TheVariants.{Memory};

    ghost from_gives = { λ _ e. e ≡ Memory };

    fn from(_: AllocError) -> Self {
        SigFault::Memory
    }
}

impl<T: Drop> From<AllocFailed<T>> for SigFault {
    ghost use Rattle.px_sig.specs.declared.fault.SigFault.TheVariants.{Memory};

    ghost from_gives = { λ _ e. e ≡ Memory };

    fn from(_: AllocFailed<T>) -> Self {
        SigFault::Memory
    }
}
