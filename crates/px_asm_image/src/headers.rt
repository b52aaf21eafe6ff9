// The headers of an image: Partition II, 25.2 and 25.3.
ghost use Rattle.std.specs.Prelude.{◌≡◌, ◌<◌, ◌^◌};
ghost use Rattle.px_asm_image.specs.Parts.{cli_header, coff_header, optional_header, section_header};

use crate::field::Field;

/// The address of the section.
pub const SECTION_ADDRESS: u32 = 0x2000;

/// The place of the section in the file, behind the headers.
pub const SECTION_PLACE: u32 = 0x200;

/// The size of the CLI header, with which the section begins.
pub const CLI_HEADER_SIZE: u32 = 72;

/// The header of MS-DOS, which leads to the mark at 0x80, and the COFF header of a library with one section.
#[tactic(auto, unfolding(crate::specs::Parts::coff_header))]
pub fn coff_header() -> [Field; 10]
    ensures { result ≡ coff_header }
{
    [
        Field::Mark(*b"MZ\0\0"),
        Field::Zeros(56),
        Field::U32(0x80),
        Field::Zeros(64),
        Field::Mark(*b"PE\0\0"),
        Field::U16(0x14C), // Machine
        Field::U16(1), // NumberOfSections
        Field::Zeros(12),
        Field::U16(224), // SizeOfOptionalHeader
        Field::U16(0x2102), // Characteristics
    ]
}

/// The optional header in the form PE32 of an image whose section has so many bytes.
#[tactic(auto, unfolding(crate::specs::Parts::optional_header))]
pub fn optional_header(size: u32) -> [Field; 28]
    requires { size < 2 ^ 31 }
    ensures { result ≡ optional_header size }
{
    [
        Field::U16(0x10B), // Magic
        Field::U16(8), // LinkerVersion
        Field::U32(size), // SizeOfCode
        Field::Zeros(12),
        Field::U32(SECTION_ADDRESS), // BaseOfCode
        Field::Zeros(4),
        Field::U32(0x0040_0000), // ImageBase
        Field::U32(0x2000), // SectionAlignment
        Field::U32(0x200), // FileAlignment
        Field::U32(4), // OperatingSystemVersion
        Field::Zeros(4),
        Field::U32(4), // SubsystemVersion
        Field::Zeros(4),
        Field::U32((size + 0x3FFF) / 0x2000 * 0x2000), // SizeOfImage
        Field::U32(SECTION_PLACE), // SizeOfHeaders
        Field::Zeros(4),
        Field::U16(3), // Subsystem
        Field::U16(0x8540), // DllCharacteristics
        Field::U32(0x0010_0000), // SizeOfStackReserve
        Field::U32(0x1000), // SizeOfStackCommit
        Field::U32(0x0010_0000), // SizeOfHeapReserve
        Field::U32(0x1000), // SizeOfHeapCommit
        Field::Zeros(4),
        Field::U32(16), // NumberOfRvaAndSizes
        Field::Zeros(112),
        Field::U32(SECTION_ADDRESS), // directory 14
        Field::U32(CLI_HEADER_SIZE),
        Field::Zeros(8),
    ]
}

/// The header of the section, which has so many bytes, and zeros up to the section.
#[tactic(auto, unfolding(crate::specs::Parts::section_header))]
pub fn section_header(size: u32) -> [Field; 9]
    ensures { result ≡ section_header size }
{
    [
        Field::Mark(*b".tex"), // Name
        Field::Mark(*b"t\0\0\0"),
        Field::U32(size), // VirtualSize
        Field::U32(SECTION_ADDRESS), // VirtualAddress
        Field::U32(size), // SizeOfRawData
        Field::U32(SECTION_PLACE), // PointerToRawData
        Field::Zeros(12),
        Field::U32(0x6000_0020), // Characteristics
        Field::Zeros(96),
    ]
}

/// The CLI header, which names metadata of so many bytes at a place behind it.
#[tactic(auto, unfolding(crate::specs::Parts::cli_header))]
pub fn cli_header(place: u32, metadata_size: u32) -> [Field; 7]
    requires { place < 2 ^ 31 }
    ensures { result ≡ cli_header place metadata_size }
{
    [
        Field::U32(CLI_HEADER_SIZE),
        Field::U16(2), // MajorRuntimeVersion
        Field::U16(5), // MinorRuntimeVersion
        Field::U32(SECTION_ADDRESS + CLI_HEADER_SIZE + place),
        Field::U32(metadata_size),
        Field::U32(1), // Flags
        Field::Zeros(52),
    ]
}
