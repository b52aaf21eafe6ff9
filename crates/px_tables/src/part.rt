// Parts of the metadata, and reads in them.
ghost use Rattle.std.specs.Prelude.{◌≡◌, ◌+◌, ◌≤◌, ◌<◌, ◌^◌, length, IfOk, MatchResult, Ok, Err};
ghost use Rattle.px_tables.specs.Reading.{read_bytes, read_number, slice_of};

use crate::fault::{TableFault, TableKind};
use byteorder::{ByteOrder, LittleEndian};
use std::marker::Model;

/// A part of the metadata, and where in it the part begins.
#[derive(Drop)]
pub struct Part<'a> {
    start: usize,
    bytes: &'a [u8],
}

impl<'a> Model for Part<'a> {
    ghost use Rattle.std.specs.Prelude.{◌+◌, ◌<◌, ◌^◌, length};
    ghost use Rattle.px_tables.specs.Reading.{Part};

    ghost Value = { Part };

    ghost view = { λ p. record { start = p.start; bytes = p.bytes.now } };

    ghost invariant = { λ p. p.start + length p.bytes.now < 2 ^ 31 };
}

impl<'a> Part<'a> {
    /// All of the metadata.
    pub fn whole(metadata: &'a [u8]) -> Part<'a>
        requires { length metadata.now < 2 ^ 31 }
        ensures { result ≡ record { start = 0; bytes = metadata.now } }
    {
        Part {
            start: 0,
            bytes: metadata,
        }
    }

    /// The same part once more.
    pub fn again(&self) -> Part<'a>
        ensures { result ≡ self.now }
    {
        Part {
            start: self.start,
            bytes: self.bytes,
        }
    }

    /// Where the part begins.
    pub fn start(&self) -> usize
        ensures start { result ≡ self.now.start }
        ensures short { self.now.start + length self.now.bytes < 2 ^ 31 }
    {
        self.start
    }

    /// All bytes of the part.
    pub fn bytes(&self) -> &'a [u8]
        ensures bytes { result.now ≡ self.now.bytes }
        ensures short { self.now.start + length self.now.bytes < 2 ^ 31 }
    {
        self.bytes
    }

    /// So many bytes at a place, which are one read.
    #[tactic(auto, unfolding(crate::specs::Reading::read_bytes))]
    pub fn read(&self, at: usize, size: usize) -> Result<&'a [u8], TableFault>
        requires near { at < 2 ^ 31 }
        requires small { size < 2 ^ 33 }
        ensures exact { MatchResult result (λ bytes. read_bytes size self.now at ≡ Ok bytes.now) (λ fault. read_bytes size self.now at ≡ Err fault) }
        ensures inside { IfOk result (λ bytes. at + size ≤ length self.now.bytes) }
        ensures len { IfOk result (λ bytes. length bytes.now ≡ size) }
        ensures short { self.now.start + length self.now.bytes < 2 ^ 31 }
    {
        let end = at + size;
        if self.bytes.len() < end {
            Err(TableKind::Cut.at(self.start + at))
        } else {
            Ok(&self.bytes[at..end])
        }
    }

    /// A number of one byte.
    #[tactic(auto, unfolding(crate::specs::Reading::read_number))]
    pub fn read_u8(&self, at: usize) -> Result<u8, TableFault>
        requires { at < 2 ^ 31 }
        ensures exact { result ≡ read_number 1 self.now at }
        ensures inside { IfOk result (λ _. at + 1 ≤ length self.now.bytes) }
        ensures short { self.now.start + length self.now.bytes < 2 ^ 31 }
    {
        Ok(self.read(at, 1)?[0])
    }

    /// A number of two bytes.
    #[tactic(auto, unfolding(crate::specs::Reading::read_number))]
    pub fn read_u16(&self, at: usize) -> Result<u16, TableFault>
        requires { at < 2 ^ 31 }
        ensures exact { result ≡ read_number 2 self.now at }
        ensures inside { IfOk result (λ _. at + 2 ≤ length self.now.bytes) }
        ensures short { self.now.start + length self.now.bytes < 2 ^ 31 }
    {
        Ok(LittleEndian::read_u16(self.read(at, 2)?))
    }

    /// A number of four bytes.
    #[tactic(auto, unfolding(crate::specs::Reading::read_number))]
    pub fn read_u32(&self, at: usize) -> Result<u32, TableFault>
        requires { at < 2 ^ 31 }
        ensures exact { result ≡ read_number 4 self.now at }
        ensures inside { IfOk result (λ _. at + 4 ≤ length self.now.bytes) }
        ensures short { self.now.start + length self.now.bytes < 2 ^ 31 }
    {
        Ok(LittleEndian::read_u32(self.read(at, 4)?))
    }

    /// A number of eight bytes.
    #[tactic(auto, unfolding(crate::specs::Reading::read_number))]
    pub fn read_u64(&self, at: usize) -> Result<u64, TableFault>
        requires { at < 2 ^ 31 }
        ensures exact { result ≡ read_number 8 self.now at }
        ensures inside { IfOk result (λ _. at + 8 ≤ length self.now.bytes) }
        ensures short { self.now.start + length self.now.bytes < 2 ^ 31 }
    {
        Ok(LittleEndian::read_u64(self.read(at, 8)?))
    }

    /// The part of this one that has so many bytes from a place on.
    pub fn part(&self, at: usize, size: usize) -> Part<'a>
        requires { at + size ≤ length self.now.bytes }
        ensures { result ≡ record { start = self.now.start + at; bytes = slice_of self.now.bytes at size } }
    {
        Part {
            start: self.start + at,
            bytes: &self.bytes[at..at + size],
        }
    }
}
