// Why metadata isn't resolved.
ghost use Rattle.std.specs.Prelude.{◌≡◌};
ghost use Rattle.px_meta.specs.Rows.{token};

use crate::table::token_of;
use std::alloc::{AllocError, AllocFailed};

/// What is wrong with a row.
#[derive(Clone, Copy, PartialEq, Eq)]
pub enum MetaKind {
    /// The type's list of fields or of methods begins after that of the next type, or passes the end.
    BadList,
    /// A name or signature of the row can't be read.
    BadToken,
    /// The chain of bases, or of outer types, that begins at the type comes back to some type.
    CycleOfBases,
}

/// Why metadata isn't resolved: want of memory, or the first fault, by the token of its row and then in the order of the kinds.
#[derive(Clone, Copy, PartialEq, Eq)]
pub enum MetaFault {
    Memory,
    Bad { kind: MetaKind, token: u32 },
}

impl MetaKind {
    // The fault of a row.
    pub(crate) fn at(self, table: u8, row: u32) -> MetaFault
        ensures { result ≡ MetaFault.Bad self (token table row) }
    {
        MetaFault::Bad {
            kind: self,
            token: token_of(table, row),
        }
    }
}

impl From<AllocError> for MetaFault {
    ghost use Rattle.std.specs.Prelude.{◌≡◌};
    ghost use Rattle.px_meta.specs.declared.fault.MetaFault.TheVariants.{Memory};

    ghost from_gives = { λ _ fault. fault ≡ Memory };

    fn from(_: AllocError) -> MetaFault {
        MetaFault::Memory
    }
}

impl<T: Drop> From<AllocFailed<T>> for MetaFault {
    ghost use Rattle.std.specs.Prelude.{◌≡◌};
    ghost use Rattle.px_meta.specs.declared.fault.MetaFault.TheVariants.{Memory};

    ghost from_gives = { λ _ fault. fault ≡ Memory };

    fn from(_: AllocFailed<T>) -> MetaFault {
        MetaFault::Memory
    }
}
