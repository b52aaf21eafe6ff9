// The sections of an image: Partition II, 25.3.
ghost use Rattle.std.specs.Prelude.{◌≡◌, ◌+◌, ◌*◌, ◌<◌, ◌≤◌, ◌^◌, length, find, IfSome, IsTrue};
ghost use Rattle.px_pe.specs.Section.{at_rva, check_section, holds, rest_at, section_in, section_of, table_of, Lies};

use crate::fault::{PeFault, PeKind};
use crate::read::read_bytes;
use byteorder::{ByteOrder, LittleEndian};
use std::marker::Model;

/// A range of bytes of a file.
#[derive(Clone, Copy, PartialEq, Eq)]
pub struct Span {
    pub start: u32,
    pub len: u32,
}

/// A section: its address in memory, and the size and place of its raw data in the file
/// (VirtualAddress, SizeOfRawData and PointerToRawData).
#[derive(Clone, Copy)]
pub struct Section {
    pub address: u32,
    pub size: u32,
    pub place: u32,
}

impl Section {
    // Whether the raw data holds a range of addresses.
    fn holds(self, rva: u32, len: u32) -> bool
        ensures { result ≡ holds rva len self }
    {
        let end = u64::from(self.address) + u64::from(self.size);
        self.address <= rva && u64::from(rva) + u64::from(len) <= end
    }
}

// The section that a header stands for.
#[tactic(auto, unfolding(crate::specs::Section::section_of))]
fn section_of(header: &[u8]) -> Section
    requires { length header.now ≡ 40 }
    ensures { result ≡ section_of header.now }
{
    Section {
        address: LittleEndian::read_u32(&header[12..]),
        size: LittleEndian::read_u32(&header[16..]),
        place: LittleEndian::read_u32(&header[20..]),
    }
}

// The section whose header stands at a place.
fn section_in(file: &[u8], at: u32) -> Section
    requires { at + 40 ≤ length file.now }
    ensures { result ≡ section_in file.now at }
{
    let start = at as usize;
    section_of(&file[start..start + 40])
}

// The header at a place and the raw data of its section lie within the file.
#[tactic(auto, unfolding(crate::specs::Section::check_section))]
fn check_section(file: &[u8], at: u32) -> Result<(), PeFault>
    ensures { result ≡ check_section file.now at }
{
    let section = section_of(read_bytes(file, at, 40)?);
    if (file.len() as u64) < u64::from(section.place) + u64::from(section.size) {
        Err(PeKind::BadSections.at(at))
    } else {
        Ok(())
    }
}

/// The section headers of a file, one after the other from a place on. They and the raw data of the sections lie within the file.
#[derive(Drop)]
pub struct SectionTable<'a> {
    file: &'a [u8],
    at: u32,
    count: u16,
}

impl<'a> Model for SectionTable<'a> {
    ghost use Rattle.px_pe.specs.Section.{sections_in, AreSound, Table};

    ghost Value = { Table };

    ghost view = { λ t. record { bytes = t.file.now; sections = sections_in t.count t.file.now t.at } };

    ghost invariant = { λ t. AreSound t.count t.file.now t.at };
}

impl<'a> SectionTable<'a> {
    /// So many headers, which are checked in order.
    pub fn read(file: &'a [u8], at: u32, count: u16) -> Result<Self, PeFault>
        requires short { length file.now < 2 ^ 31 }
        requires fits { at + 40 * count < 2 ^ 32 }
        ensures { result ≡ table_of count file.now at }
    {
        for n in 0..count {
            check_section(file, at + 40 * u32::from(n))?;
        }
        Ok(SectionTable { file, at, count })
    }

    /// The bytes of the file.
    pub fn bytes(&self) -> &'a [u8]
        ensures bytes { result.now ≡ self.now.bytes }
        ensures short { length self.now.bytes < 2 ^ 31 }
    {
        self.file
    }

    // The first section that holds a range of addresses.
    fn find(&self, rva: u32, len: u32) -> Option<Section>
        ensures first { result ≡ find (holds rva len) self.now.sections }
        ensures holds { IfSome result (λ section. IsTrue (holds rva len section)) }
        ensures lies { IfSome result (λ section. section.place + section.size ≤ length self.now.bytes) }
        ensures short { length self.now.bytes < 2 ^ 31 }
    {
        for n in 0..self.count {
            let section = section_in(self.file, self.at + 40 * u32::from(n));
            if section.holds(rva, len) {
                return Some(section);
            }
        }
        None
    }

    /// Where the first section that holds a range of addresses has it in the file. None, where no section holds it.
    pub fn at_rva(&self, rva: u32, len: u32) -> Option<Span>
        ensures place { result ≡ at_rva self.now.sections rva len }
        ensures lies { IfSome result (Lies self.now.bytes) }
    {
        let section = self.find(rva, len)?;
        let start = section.place + (rva - section.address);
        Some(Span { start, len })
    }

    /// From an address to the end of the first section that holds it. None, where no section holds it.
    pub fn rest_at(&self, rva: u32) -> Option<Span>
        ensures place { result ≡ rest_at self.now.sections rva }
        ensures lies { IfSome result (Lies self.now.bytes) }
    {
        let section = self.find(rva, 1)?;
        let behind = rva - section.address;
        Some(Span {
            start: section.place + behind,
            len: section.size - behind,
        })
    }
}
