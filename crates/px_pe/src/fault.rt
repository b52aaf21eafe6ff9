// Why a file isn't read.
ghost use Rattle.std.specs.Prelude.{◌≡◌};

/// What is wrong with a file.
#[derive(Clone, Copy, PartialEq, Eq)]
pub enum PeKind {
    /// One of the marks of an image isn't there.
    NotPe,
    /// A read passes the file's end.
    Cut,
    /// There is no CLI header, or it isn't in a section.
    NoCliHeader,
    /// A section's raw data passes the file's end.
    BadSections,
    /// The metadata isn't in a section.
    MetadataOutside,
}

/// The first thing that is wrong with a file, and the byte at which it is.
#[derive(Clone, Copy, PartialEq, Eq)]
pub struct PeFault {
    pub kind: PeKind,
    pub at: u32,
}

impl PeKind {
    // The fault of this kind at a byte.
    pub(crate) fn at(self, at: u32) -> PeFault
        ensures { result ≡ record { kind = self; at = at } }
    {
        PeFault { kind: self, at }
    }
}
