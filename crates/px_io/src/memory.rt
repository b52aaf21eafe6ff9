// A shelf and a sink in memory, whose calls fail where they are told to.
ghost use Rattle.std.specs.Prelude.{◌≡◌, ◌<◌, ◌-◌, ◌↔◌, [], Some, Err, length, min, Contains, IfOk, IsErr, IsTrue, option_copied};
ghost use Rattle.px_io.specs.Files.{Gives, file_of};
ghost use Rattle.px_io.specs.Memory.{files_of, shelf_after, Refuses, sink_after};

use crate::{Failed, FetchCounts, FetchFault, Fetched, Shelf, Sink, Word};
use std::alloc::{AllocError, Global};
use std::marker::Model;

/// A shelf of files in memory, each a name with its content. Of two files of one name the first counts.
/// Fetches are numbered from 0, and those with the numbers in `failing` fail.
#[derive(Drop)]
pub struct MemShelf {
    files: Vec<(Word, Vec<u8>)>,
    failing: Vec<u32>,
    calls: u64,
    counts: FetchCounts,
}

impl Model for MemShelf {
    ghost use Rattle.px_io.specs.Memory.{ShelfState, files_of};

    ghost Value = { ShelfState };

    ghost view = { λ s. record {
      files = files_of s.files.items;
      failing = s.failing.items;
      calls = s.calls;
      counts = s.counts;
    } };
}

impl MemShelf {
    /// A shelf that wasn't asked yet.
    pub fn new(files: Vec<(Word, Vec<u8>)>, failing: Vec<u32>) -> MemShelf
        ensures { result ≡ record {
          files = files_of files.items;
          failing = failing.items;
          calls = 0;
          counts = record { faults = 0; misses = 0 };
        } }
    {
        MemShelf {
            files,
            failing,
            calls: 0,
            counts: FetchCounts::default(),
        }
    }

    /// What it counted so far.
    pub fn counts(&self) -> FetchCounts
        ensures { result ≡ self.now.counts }
    {
        self.counts
    }

    // What the next fetch answers.
    fn answer(&self, alloc: Global, name: &str, limit: u32) -> Result<Fetched, FetchFault>
        ensures told { IfOk result (Gives (file_of self.now.files name.now) limit) }
        ensures failed { (result ≡ Err FetchFault.Failed) ↔ Contains self.now.failing self.now.calls }
    {
        if is_failing(&self.failing, self.calls) {
            return Err(FetchFault::Failed);
        }
        match content_of(&self.files, name) {
            None => Ok(Fetched::Absent),
            Some(bytes) if bytes.len() > limit as usize => Ok(Fetched::TooLong),
            Some(bytes) => Ok(Fetched::Bytes(Vec::from_slice(alloc, bytes)?)),
        }
    }
}

impl Shelf for MemShelf {
    ghost files = { λ s. Some s.files };

    ghost faults = { λ s. s.counts.faults };

    ghost misses = { λ s. s.counts.misses };

    fn fetch(&mut self, alloc: Global, name: &str, limit: u32) -> Result<Fetched, FetchFault>
        ensures told { IfOk result (Gives (file_of self.old.files name.now) limit) }
        ensures failed { (result ≡ Err FetchFault.Failed) ↔ Contains self.old.failing self.old.calls }
        ensures after { self.new ≡ shelf_after self.old result }
    {
        let answer = self.answer(alloc, name, limit);
        self.calls = self.calls.saturating_add(1);
        self.counts.count(&answer);
        answer
    }
}

// Whether the call with this number is to fail.
fn is_failing(failing: &[u32], call: u64) -> bool
    ensures { IsTrue result ↔ Contains failing.now call }
{
    failing.iter().any(|n| u64::from(*n) == call)
}

// The content of the first file of the name.
fn content_of<'a>(files: &'a [(Word, Vec<u8>)], name: &str) -> Option<&'a [u8]>
    ensures { option_copied result ≡ file_of (files_of files.now) name.now }
{
    for file in files {
        if file.0.text() == name {
            return Some(file.1.as_slice());
        }
    }
    None
}

/// A sink in memory with room for `room` bytes. It takes what fits.
/// Writes are numbered from 0, and those with the numbers in `failing` fail.
#[derive(Drop)]
pub struct MemSink {
    bytes: Vec<u8>,
    room: u32,
    failing: Vec<u32>,
    calls: u64,
    faults: u64,
}

impl Model for MemSink {
    ghost use Rattle.std.specs.Prelude.{◌≤◌, vec_capacity, vec_len};
    ghost use Rattle.px_io.specs.Memory.{SinkState};

    ghost Value = { SinkState };

    ghost view = { λ s. record {
      bytes = s.bytes.items;
      room = s.room;
      failing = s.failing.items;
      calls = s.calls;
      faults = s.faults;
    } };

    ghost invariant = { λ s. (vec_len s.bytes ≤ s.room) × (s.room ≤ vec_capacity s.bytes) };
}

impl MemSink {
    /// An empty sink. All its memory is taken here.
    pub fn new(alloc: Global, room: u32, failing: Vec<u32>) -> Result<MemSink, AllocError>
        ensures { IfOk result (λ sink. sink ≡ record {
          bytes = [];
          room = room;
          failing = failing.items;
          calls = 0;
          faults = 0;
        }) }
    {
        Ok(MemSink {
            bytes: Vec::with_capacity(alloc, room as usize)?,
            room,
            failing,
            calls: 0,
            faults: 0,
        })
    }

    /// What was written.
    pub fn bytes(&self) -> &[u8]
        ensures { result.now ≡ self.now.bytes }
    {
        &self.bytes
    }

    /// How many writes failed, up to the end of the type.
    pub fn faults(&self) -> u64
        ensures { result ≡ self.now.faults }
    {
        self.faults
    }
}

impl Sink for MemSink {
    ghost written = { λ s. Some s.bytes };

    ghost faults = { λ s. s.faults };

    fn write(&mut self, piece: &[u8]) -> Result<usize, Failed>
        ensures taken { IfOk result (λ n. n ≡ min (length piece.now) (self.old.room - length self.old.bytes)) }
        ensures failed { IsErr result ↔ Refuses self.old piece.now }
        ensures after { self.new ≡ sink_after self.old piece.now result }
    {
        let call = self.calls;
        self.calls = call.saturating_add(1);
        let left = self.room as usize - self.bytes.len();
        if is_failing(&self.failing, call) || is_full(left, piece) {
            self.faults = self.faults.saturating_add(1);
            return Err(Failed);
        }
        let taken = piece.len().min(left);
        self.bytes.extend_from_slice(&piece[..taken]).unwrap();
        Ok(taken)
    }
}

// Whether nothing of a piece that isn't empty fits.
fn is_full(left: usize, piece: &[u8]) -> bool
    ensures { IsTrue result ↔ ((left ≡ 0) × (0 < length piece.now)) }
{
    left == 0 && !piece.is_empty()
}
