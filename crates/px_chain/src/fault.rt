// What stops the check of a chain.
use crate::chain::Why;
use std::alloc::AllocError;

/// Want of memory, or what is wrong with the chain.
#[derive(Drop)]
pub enum Fault {
    Memory,
    Chain(Why),
}

impl From<AllocError> for Fault {
    ghost use Rattle.std.specs.Prelude.{◌≡◌};
    ghost use Rattle.px_chain.specs.declared.fault.Fault.TheVariants.{Memory};

    ghost from_gives = { λ _ fault. fault ≡ Memory };

    fn from(_: AllocError) -> Fault {
        Fault::Memory
    }
}
