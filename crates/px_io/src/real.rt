// The files and the standard output of the system: the trusted edge, which tells no content.
ghost use Rattle.std.specs.Prelude.{◌≡◌, ◌<◌, ◌≤◌, Some, None, length, IfOk, IfSome, is_ok, if◌then◌else◌};
ghost use Rattle.px_io.specs.Counts.{next_count};
ghost use Rattle.px_io.specs.Files.{Gives, IsWithin, counts_after};

use crate::{Failed, FetchCounts, FetchFault, Fetched, Shelf, Sink};
use std::alloc::Global;
use std::io::{ErrorKind, Read, Write};
use std::marker::Model;
use std::rt::Files;
use std::{fs, io};

// How many bytes are read at a time.
const CHUNK: usize = 16384;

/// The files of the system, by their paths. What contracts see of it is what it counted.
#[derive(Drop)]
pub struct FileShelf<'r, R: Files> {
    rt: &'r R,
    counts: FetchCounts,
}

impl<'r, R: Files> Model for FileShelf<'r, R> {
    ghost use Rattle.px_io.specs.declared.shelf.FetchCounts.{FetchCounts};

    ghost Value = { FetchCounts };

    ghost view = { λ s. s.counts };
}

impl<'r, R: Files> FileShelf<'r, R> {
    /// A shelf that wasn't asked yet.
    pub fn new(rt: &'r R) -> FileShelf<'r, R>
        ensures { result ≡ record { faults = 0; misses = 0 } }
    {
        FileShelf {
            rt,
            counts: FetchCounts::default(),
        }
    }
}

impl<'r, R: Files> Shelf for FileShelf<'r, R> {
    ghost files = { λ _. None };

    ghost faults = { λ s. s.faults };

    ghost misses = { λ s. s.misses };

    fn fetch(&mut self, alloc: Global, name: &str, limit: u32) -> Result<Fetched, FetchFault>
        ensures within { IfOk result (IsWithin limit) }
        ensures after { self.new ≡ counts_after self.old result }
    {
        let answer = match fs::open(self.rt, name) {
            Ok(mut file) => read_all(alloc, &mut file, limit),
            Err(e) if e.kind() == ErrorKind::NotFound => Ok(Fetched::Absent),
            Err(_) => Err(FetchFault::Failed),
        };
        self.counts.count(&answer);
        answer
    }
}

// All that a reader has left, if that is at most `limit` bytes.
// There are at most `limit + 1` turns, since each but the last takes a byte.
fn read_all<F: Read>(alloc: Global, reader: &mut F, limit: u32) -> Result<Fetched, FetchFault>
    ensures within { IfOk result (IsWithin limit) }
    ensures told { IfSome (F.remaining reader.old) (λ bytes. IfOk result (Gives (Some bytes) limit)) }
{
    let mut bytes = Vec::new(alloc);
    let mut chunk = [0; CHUNK];
    loop {
        match reader.read(&mut chunk) {
            Ok(0) => return Ok(Fetched::Bytes(bytes)),
            Ok(n) if n > limit as usize - bytes.len() => return Ok(Fetched::TooLong),
            Ok(n) => bytes.extend_from_slice(&chunk[..n])?,
            Err(_) => return Err(FetchFault::Failed),
        }
    }
}

/// The standard output. What contracts see of it is how many writes failed.
#[derive(Drop)]
pub struct StdSink<'r, R: Print> {
    rt: &'r R,
    faults: u64,
}

impl<'r, R: Print> Model for StdSink<'r, R> {
    ghost use Rattle.std.specs.Prelude.{ℕ};

    ghost Value = { ℕ };

    ghost view = { λ s. s.faults };
}

impl<'r, R: Print> StdSink<'r, R> {
    /// A sink whose writes didn't fail yet.
    pub fn new(rt: &'r R) -> StdSink<'r, R>
        ensures { result ≡ 0 }
    {
        StdSink { rt, faults: 0 }
    }
}

impl<'r, R: Print> Sink for StdSink<'r, R> {
    ghost written = { λ _. None };

    ghost faults = { λ s. s };

    fn write(&mut self, piece: &[u8]) -> Result<usize, Failed>
        ensures within { IfOk result (λ n. n ≤ length piece.now) }
        ensures some { IfOk result (λ n. 0 < length piece.now → 0 < n) }
        ensures after { self.new ≡ (if is_ok result then self.old else next_count self.old) }
    {
        match io::writer(self.rt).write(piece) {
            Ok(n) if n > 0 || piece.is_empty() => Ok(n),
            _ => {
                self.faults = self.faults.saturating_add(1);
                Err(Failed)
            }
        }
    }
}
