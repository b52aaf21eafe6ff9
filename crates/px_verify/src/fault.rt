// Why a program isn't accepted.
ghost use Rattle.std.specs.Prelude.{◌≡◌};

use px_verify_flow::VerifyKind;
use px_verify_kinds::Kind;
use sqlite_items::Items;
use std::alloc::AllocError;

/// Want of memory, or the first fault: of the first method that is refused, the first instruction that has one, by its offset, with the stack that it finds,
/// its bottom first.
#[derive(Drop)]
pub enum VerifyFault {
    Memory,
    Bad {
        method: u32,
        offset: u32,
        stack: Items<Kind>,
        kind: VerifyKind,
    },
}

impl From<AllocError> for VerifyFault {
    ghost use Rattle.px_verify.specs.declared.fault.VerifyFault.TheVariants.{Memory};

    ghost from_gives = { λ _ e. e ≡ Memory };

    fn from(_: AllocError) -> Self {
        VerifyFault::Memory
    }
}
