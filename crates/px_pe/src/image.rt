// An image: its sections and its metadata.
ghost use Rattle.std.specs.Prelude.{◌≡◌, ◌<◌, ◌^◌, length, IfOk, IfSome};
ghost use Rattle.px_pe.specs.Image.{image_of, metadata_of};
ghost use Rattle.px_pe.specs.Section.{at_rva, rest_at, Lies};

use crate::fault::{PeFault, PeKind};
use crate::headers::{Headers, headers_at, pe_offset};
use crate::section::{SectionTable, Span};
use byteorder::{ByteOrder, LittleEndian};
use std::marker::Model;

/// An image whose headers were read and checked: the bytes of its file, its sections and its metadata.
#[derive(Drop)]
pub struct Image<'a> {
    sections: SectionTable<'a>,
    metadata: Span,
}

impl<'a> Model for Image<'a> {
    ghost use Rattle.px_pe.specs.Image.{View};
    ghost use Rattle.px_pe.specs.Section.{Lies};

    ghost Value = { View };

    ghost view = { λ i. record { bytes = i.sections.bytes; sections = i.sections.sections; metadata = i.metadata } };

    ghost invariant = { λ i. Lies i.sections.bytes i.metadata };
}

// The metadata that the CLI header names.
#[tactic(auto, unfolding(crate::specs::Image::metadata_of))]
fn metadata_of(sections: &SectionTable, headers: Headers) -> Result<Span, PeFault>
    ensures exact { result ≡ metadata_of sections.now headers }
    ensures lies { IfOk result (Lies sections.now.bytes) }
{
    let cli = sections
        .at_rva(headers.address, 72)
        .ok_or(PeKind::NoCliHeader.at(headers.directory))?;
    let header = &sections.bytes()[cli.start as usize..];
    let address = LittleEndian::read_u32(&header[8..]);
    let size = LittleEndian::read_u32(&header[12..]);
    sections
        .at_rva(address, size)
        .ok_or(PeKind::MetadataOutside.at(cli.start + 8))
}

/// Reads the headers of an image and checks all that later calls ask for. It copies nothing and takes no memory.
/// The fault is the first one in this order: the marks of the image, the headers, the section headers, the CLI header, the metadata.
#[tactic(auto, unfolding(crate::specs::Image::image_of))]
pub fn read_pe<'a>(file: &'a [u8]) -> Result<Image<'a>, PeFault>
    requires { length file.now < 2 ^ 31 }
    ensures exact { result ≡ image_of file.now }
    ensures bytes { IfOk result (λ image. image.bytes ≡ file.now) }
{
    let pe = pe_offset(file)?;
    let headers = headers_at(file, pe)?;
    let sections = SectionTable::read(file, headers.table, headers.count)?;
    let metadata = metadata_of(&sections, headers)?;
    Ok(Image { sections, metadata })
}

impl<'a> Image<'a> {
    /// Where the first section whose raw data holds a range of addresses has it in the file. None exactly where no section does.
    pub fn at_rva(&self, rva: u32, len: u32) -> Option<Span>
        ensures place { result ≡ at_rva self.now.sections rva len }
        ensures lies { IfSome result (Lies self.now.bytes) }
    {
        self.sections.at_rva(rva, len)
    }

    /// From an address to the end of the first section whose raw data holds it. None exactly where no section does.
    pub fn rest_at(&self, rva: u32) -> Option<Span>
        ensures place { result ≡ rest_at self.now.sections rva }
        ensures lies { IfSome result (Lies self.now.bytes) }
    {
        self.sections.rest_at(rva)
    }

    /// Where the metadata is.
    pub fn metadata(&self) -> Span
        ensures metadata { result ≡ self.now.metadata }
        ensures lies { Lies self.now.bytes result }
    {
        self.metadata
    }

    /// The bytes of the file.
    pub fn bytes(&self) -> &'a [u8]
        ensures bytes { result.now ≡ self.now.bytes }
        ensures short { length result.now < 2 ^ 31 }
    {
        self.sections.bytes()
    }
}
