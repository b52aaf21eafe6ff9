// Where files are fetched from.
ghost use Rattle.std.specs.Prelude.{◌≡◌, ◌≤◌, ℕ, Option, IfOk, IfErr};
ghost use Rattle.px_io.specs.Counts.{Rose};

use std::alloc::{AllocError, AllocFailed, Global};

/// What a fetch found.
#[derive(PartialEq, Eq, Drop)]
pub enum Fetched {
    /// The whole content of the file.
    Bytes(Vec<u8>),
    /// There is no such file.
    Absent,
    /// The file has more bytes than were asked for.
    TooLong,
}

/// Why a fetch couldn't tell what is there.
#[derive(Clone, Copy, PartialEq, Eq)]
pub enum FetchFault {
    /// There was no memory for the content.
    Memory,
    /// The device failed.
    Failed,
}

impl From<AllocError> for FetchFault {
    ghost use Rattle.px_io.specs.declared.shelf.FetchFault.TheVariants.{Memory};

    ghost from_gives = { λ _ e. e ≡ Memory };

    fn from(_: AllocError) -> Self {
        FetchFault::Memory
    }
}

impl<T: Drop> From<AllocFailed<T>> for FetchFault {
    ghost use Rattle.px_io.specs.declared.shelf.FetchFault.TheVariants.{Memory};

    ghost from_gives = { λ _ e. e ≡ Memory };

    fn from(_: AllocFailed<T>) -> Self {
        FetchFault::Memory
    }
}

/// What a shelf counts. A count that reaches the end of its type stays there.
#[derive(Clone, Copy, Default, PartialEq, Eq)]
pub struct FetchCounts {
    /// How many fetches failed.
    pub faults: u64,
    /// How many fetches found no file, or one that is too long.
    pub misses: u64,
}

impl FetchCounts {
    ghost use Rattle.px_io.specs.Files.{counts_after};

    /// Counts a fetch by its answer.
    pub fn count(&mut self, answer: &Result<Fetched, FetchFault>)
        ensures { self.new ≡ counts_after self.old answer.now }
    {
        match answer {
            Ok(Fetched::Bytes(_)) | Err(FetchFault::Memory) => {}
            Ok(Fetched::Absent | Fetched::TooLong) => self.misses = self.misses.saturating_add(1),
            Err(FetchFault::Failed) => self.faults = self.faults.saturating_add(1),
        }
    }
}

/// A place with named files.
pub trait Shelf {
    ghost use Rattle.px_io.specs.Files.{Files, GivesOf, IsMiss, IsWithin};

    /// The files, where the shelf tells them.
    ghost files: { Self → Option Files };

    /// How many fetches failed, up to the end of a `u64`.
    ghost faults: { Self → ℕ };

    /// How many fetches found no file, or one that is too long, up to the end of a `u64`.
    ghost misses: { Self → ℕ };

    /// The content of the file of this name, if it has at most `limit` bytes. It changes no file.
    /// `FetchFault::Memory` may come at any time.
    fn fetch(&mut self, alloc: Global, name: &str, limit: u32) -> Result<Fetched, FetchFault>
        ensures same { files self.new ≡ files self.old }
        ensures told { IfOk result (GivesOf (files self.old) name.now limit) }
        ensures within { IfOk result (IsWithin limit) }

        // Each answer but the content and want of memory has its cause in a count.
        ensures missed { IfOk result (λ found. IsMiss found → Rose (misses self.old) (misses self.new)) }
        ensures failed { IfErr result (λ e. e ≡ FetchFault.Failed → Rose (faults self.old) (faults self.new)) }
        ensures faults { faults self.old ≤ faults self.new }
        ensures misses { misses self.old ≤ misses self.new };
}
