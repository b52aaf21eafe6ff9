// Numbers and padded parts, behind what is there.
ghost use Rattle.std.specs.Prelude.{◌≡◌, ◌+◌, ◌≤◌, ◌<◌, ◌++◌, ◌^◌, OnOk, length};
ghost use Rattle.byteorder.specs.Endian.{little_bytes};
ghost use Rattle.px_tables.specs.Streams.{padded};
ghost use Rattle.px_asm_image.specs.Metadata.{padded_bytes};

use std::alloc::AllocError;

/// A size rounded up to a multiple of 4.
pub fn padded(size: usize) -> usize
    requires { size < 2 ^ 32 }
    ensures padded { result ≡ padded size }
    ensures more { size ≤ result }
    ensures few { result < size + 4 }
{
    size.div_ceil(4) * 4
}

/// So many low bytes of a number, the lowest first.
pub fn push_number(out: &mut Vec<u8>, size: usize, number: u32) -> Result<(), AllocError>
    requires { size ≤ 4 }
    ensures { OnOk result (out.new.items ≡ out.old.items ++ little_bytes size number) }
{
    out.extend_from_slice(&number.to_le_bytes()[..size])
}

/// A part, and zeros up to a multiple of 4.
pub fn push_padded(out: &mut Vec<u8>, part: &[u8]) -> Result<(), AllocError>
    requires { length part.now < 2 ^ 32 }
    ensures { OnOk result (out.new.items ≡ out.old.items ++ padded_bytes part.now) }
{
    out.extend_from_slice(part)?;
    out.extend_from_slice(&[0; 4][..padded(part.len()) - part.len()])
}
