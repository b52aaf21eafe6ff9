// The header of a body: Partition II, 25.4.1 to 25.4.4.
ghost use Rattle.std.specs.Prelude.{◌≡◌, ◌+◌, ◌<◌, ◌≤◌, ◌^◌, length, IfOk};
ghost use Rattle.px_code.specs.Reading.{Gives};
ghost use Rattle.px_code.specs.Body.{fat_code, header_of, tiny_code};
ghost use Rattle.px_code.specs.Parts.{IsWithin, shown};

use crate::body::{BodyFault, BodyKind};
use crate::bytes::number_at;

/// What the header of a body says, and the code behind it, which begins `base` bytes after the header does. Sections follow where `more`.
#[derive(Clone, Copy)]
pub struct Header<'a> {
    pub max_stack: u16,
    pub init_locals: bool,
    pub locals_token: u32,
    pub base: u32,
    pub code: &'a [u8],
    pub more: bool,
}

// The code behind a header of one byte.
fn tiny_code(bytes: &[u8], size: usize) -> Result<Header<'_>, BodyFault>
    requires short { length bytes.now < 2 ^ 31 }
    requires size { size < 64 }
    ensures gives { Gives shown result (tiny_code bytes.now size) }
    ensures within { IfOk result (λ header. IsWithin header bytes.now) }
    ensures some { IfOk result (λ header. 0 < length header.code.now) }
{
    if size == 0 {
        Err(BodyKind::BadHeader.at(0))
    } else if bytes.len() < size + 1 {
        Err(BodyKind::Cut.at(bytes.len() as u32))
    } else {
        Ok(Header {
            max_stack: 8,
            init_locals: false,
            locals_token: 0,
            base: 1,
            code: &bytes[1..1 + size],
            more: false,
        })
    }
}

// The code behind a header of twelve bytes.
fn fat_code(bytes: &[u8]) -> Result<Header<'_>, BodyFault>
    requires { length bytes.now < 2 ^ 31 }
    ensures gives { Gives shown result (fat_code bytes.now) }
    ensures within { IfOk result (λ header. IsWithin header bytes.now) }
    ensures some { IfOk result (λ header. 0 < length header.code.now) }
{
    let cut = BodyKind::Cut.at(bytes.len() as u32);
    if bytes.len() < 12 {
        return Err(cut);
    }
    let size = number_at(bytes, 4, 4) as usize;
    if bytes[1] / 16 != 3 || size == 0 {
        Err(BodyKind::BadHeader.at(0))
    } else if bytes.len() < 12 + size {
        Err(cut)
    } else {
        Ok(Header {
            max_stack: number_at(bytes, 2, 2) as u16,
            init_locals: bytes[0] / 16 % 2 == 1,
            locals_token: number_at(bytes, 8, 4) as u32,
            base: 12,
            code: &bytes[12..12 + size],
            more: bytes[0] / 8 % 2 == 1,
        })
    }
}

/// The header that the bytes begin with.
pub fn header_of(bytes: &[u8]) -> Result<Header<'_>, BodyFault>
    requires { length bytes.now < 2 ^ 31 }
    ensures gives { Gives shown result (header_of bytes.now) }
    ensures within { IfOk result (λ header. IsWithin header bytes.now) }
    ensures some { IfOk result (λ header. 0 < length header.code.now) }
{
    match bytes {
        [] => Err(BodyKind::Cut.at(0)),
        [first, ..] => match first % 4 {
            3 => fat_code(bytes),
            2 => tiny_code(bytes, usize::from(first / 4)),
            _ => Err(BodyKind::BadHeader.at(0)),
        },
    }
}
