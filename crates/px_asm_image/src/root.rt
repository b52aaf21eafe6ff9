// The root of the metadata, and its streams: Partition II, 24.2.1 and 24.2.2.
ghost use Rattle.std.specs.Prelude.{◌≡◌, ◌+◌, ◌<◌, ◌++◌, ◌^◌, IfOk, OnOk, length};
ghost use Rattle.px_asm_image.specs.Metadata.{root_bytes, stream_header, stream_headers, streams_bytes};

use crate::part::{padded, push_number, push_padded};
use std::alloc::{AllocError, Global};

// The signature, version 1.1, the text of the version by its size, no flags, and four streams.
static ROOT: &[u8] =
    b"BSJB\x01\x00\x01\x00\x00\x00\x00\x00\x0C\x00\x00\x00v4.0.30319\x00\x00\x00\x00\x04\x00";

// Where the first stream begins: behind the root and the headers.
const STREAMS_START: usize = 92;

// The header of a stream. The name ends in a zero, and is padded.
fn push_header(out: &mut Vec<u8>, offset: usize, size: usize, name: &[u8]) -> Result<(), AllocError>
    requires near { offset < 2 ^ 32 }
    requires small { size < 2 ^ 32 }
    ensures { OnOk result (out.new.items ≡ out.old.items ++ stream_header offset size name.now) }
{
    push_number(out, 4, offset as u32)?;
    push_number(out, 4, size as u32)?;
    out.extend_from_slice(name)
}

// The headers of the streams.
fn push_headers(
    out: &mut Vec<u8>,
    tables: &[u8],
    strings: &[u8],
    user_strings: &[u8],
    blob: &[u8],
) -> Result<(), AllocError>
    requires { length tables.now + length strings.now + length user_strings.now + length blob.now < 2 ^ 31 }
    ensures { OnOk result (out.new.items ≡ out.old.items ++ stream_headers tables.now strings.now user_strings.now blob.now) }
{
    let second = STREAMS_START + padded(tables.len());
    let third = second + padded(strings.len());
    let fourth = third + padded(user_strings.len());
    push_header(out, STREAMS_START, tables.len(), b"#~\x00\x00")?;
    push_header(out, second, strings.len(), b"#Strings\x00\x00\x00\x00")?;
    push_header(out, third, user_strings.len(), b"#US\x00")?;
    push_header(out, fourth, blob.len(), b"#Blob\x00\x00\x00")
}

/// Metadata with these streams.
pub fn write_streams(
    alloc: Global,
    tables: &[u8],
    strings: &[u8],
    user_strings: &[u8],
    blob: &[u8],
) -> Result<Vec<u8>, AllocError>
    requires { length tables.now + length strings.now + length user_strings.now + length blob.now < 2 ^ 31 }
    ensures { IfOk result (λ bytes. bytes.items ≡ streams_bytes tables.now strings.now user_strings.now blob.now) }
{
    let mut out = Vec::from_slice(alloc, ROOT)?;
    push_headers(&mut out, tables, strings, user_strings, blob)?;
    push_padded(&mut out, tables)?;
    push_padded(&mut out, strings)?;
    push_padded(&mut out, user_strings)?;
    push_padded(&mut out, blob)?;
    Ok(out)
}
