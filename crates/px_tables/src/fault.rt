// Why metadata isn't read.
ghost use Rattle.std.specs.Prelude.{◌≡◌, ◌<◌, ◌^◌};

/// What is wrong with metadata.
#[derive(Clone, Copy, PartialEq, Eq)]
pub enum TableKind {
    /// It doesn't begin with its signature.
    BadRoot,
    /// One of the streams of tables, strings and blobs is missing.
    NoStream,
    /// The version of the tables isn't known.
    BadVersion,
    /// A number that no table has is among the tables.
    UnknownTable,
    /// A read, a stream or a row passes the end.
    Cut,
    /// An index names no row.
    BadIndex,
}

/// The first thing that is wrong with metadata, and the byte of it at which it is.
#[derive(Clone, Copy, PartialEq, Eq)]
pub struct TableFault {
    pub kind: TableKind,
    pub at: u32,
}

impl TableKind {
    // The fault of this kind at a byte.
    pub(crate) fn at(self, at: usize) -> TableFault
        requires { at < 2 ^ 32 }
        ensures { result ≡ record { kind = self; at = at } }
    {
        TableFault {
            kind: self,
            at: at as u32,
        }
    }
}
