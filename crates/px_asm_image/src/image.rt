// Images: Partition II, 25.2 and 25.3.
ghost use Rattle.std.specs.Prelude.{◌≡◌, ◌+◌, ◌<◌, ◌^◌, length, IfOk};
ghost use Rattle.px_asm_image.specs.Image.{IsImageOf};
ghost use Rattle.px_asm_image.specs.Parts.{headers_of};

use crate::field::push_fields;
use crate::headers::{
    CLI_HEADER_SIZE, SECTION_PLACE, cli_header, coff_header, optional_header, section_header,
};
use std::alloc::{AllocError, Global};

// The headers of an image with so many bytes in its section, and among them, at a place behind the CLI header, so many of metadata; there is room for the
// section.
#[tactic(auto, unfolding(crate::specs::Parts::headers_of))]
fn headers_of(
    alloc: Global,
    size: u32,
    place: u32,
    metadata_size: u32,
) -> Result<Vec<u8>, AllocError>
    requires size { size < 2 ^ 31 }
    requires place { place < 2 ^ 31 }
    ensures { IfOk result (λ file. file.items ≡ headers_of size place metadata_size) }
{
    let mut file = Vec::with_capacity(alloc, (SECTION_PLACE + size) as usize)?;
    push_fields(&mut file, &coff_header())?;
    push_fields(&mut file, &optional_header(size))?;
    push_fields(&mut file, &section_header(size))?;
    push_fields(&mut file, &cli_header(place, metadata_size))?;
    Ok(file)
}

/// An image in the form PE32 with these bodies, each of which begins at the place in `bodies` that its address tells, and with this metadata behind them.
pub fn write_image(alloc: Global, metadata: &[u8], bodies: &[u8]) -> Result<Vec<u8>, AllocError>
    requires { length metadata.now + length bodies.now < 2 ^ 30 }
    ensures { IfOk result (λ file. IsImageOf metadata.now bodies.now file.items) }
{
    let place = bodies.len().next_multiple_of(4);
    let behind = CLI_HEADER_SIZE as usize + place;
    let size = behind + metadata.len();
    let mut file = headers_of(alloc, size as u32, place as u32, metadata.len() as u32)?;
    file.extend_from_slice(bodies)?;
    file.resize(SECTION_PLACE as usize + behind, 0)?;
    file.extend_from_slice(metadata)?;
    Ok(file)
}
