// Heaps: Partition II, 24.2.3 and 24.2.4.
ghost use Rattle.std.specs.Prelude.{◌≡◌, ◌≢◌, ◌<◌, ◌^◌, ◌++◌, length, All, IfOk, IsUtf8, OnOk};
ghost use Rattle.std.specs.List.{list_any};
ghost use Rattle.px_asm_heaps.specs.Heaps.{Grows, HasBlob, HasString, HasText, unit_bytes};
ghost use Rattle.px_asm_heaps.specs.Numbers.{number_bytes};
ghost use Rattle.px_asm_heaps.specs.Texts.{flag_of, is_unusual};

use crate::compressed::push_count;
use std::alloc::{AllocError, Global};

// The place behind all that stands in a heap.
fn end_of(heap: &[u8]) -> Result<u32, AllocError>
    ensures { IfOk result (λ at. at ≡ length heap.now) }
{
    u32::try_from(heap.len()).map_err(|_| AllocError)
}

// Appends a blob behind its length.
fn push_counted(heap: &mut Vec<u8>, blob: &[u8]) -> Result<(), AllocError>
    ensures ok { OnOk result (heap.new.items ≡ heap.old.items ++ (number_bytes (length blob.now) ++ blob.now)) }
    ensures few { OnOk result (length blob.now < 2 ^ 29) }
    ensures grows { Grows heap.old.items heap.new.items }
{
    push_count(heap, blob.len())?;
    heap.extend_from_slice(blob)
}

// The bytes of code units, the low byte first.
fn unit_bytes(alloc: Global, units: &[u16]) -> Result<Vec<u8>, AllocError>
    ensures { IfOk result (λ bytes. bytes.items ≡ unit_bytes units.now) }
{
    let mut bytes = Vec::new(alloc);
    for unit in units {
        bytes.extend_from_slice(&unit.to_le_bytes())?;
    }
    Ok(bytes)
}

// Whether a code unit needs handling beyond that of 8-bit encodings: Partition II, 24.2.4.
fn is_unusual(unit: u16) -> bool
    ensures { result ≡ is_unusual unit }
{
    matches!(unit, 0x01..=0x08 | 0x0E..=0x1F | 0x27 | 0x2D | 0x7F | 0x100..)
}

// Whether a text has unusual code units.
fn has_unusual(units: &[u16]) -> bool
    ensures { result ≡ list_any is_unusual units.now }
{
    units.iter().any(|unit| is_unusual(*unit))
}

// The byte behind a text: 1 if it has unusual code units, and else 0.
fn flag_of(units: &[u16]) -> u8
    ensures { result ≡ flag_of units.now }
{
    u8::from(has_unusual(units))
}

/// Adds a text and a zero to a heap of strings, and tells where it stands. A heap has room for 2^32 bytes; one that has none left is answered as want of
/// memory. After that answer the heap is what it was, with perhaps a part more.
pub fn push_string(heap: &mut Vec<u8>, text: &[u8]) -> Result<u32, AllocError>
    requires no_zero { All (λ byte. byte ≢ 0) text.now }
    requires utf8 { IsUtf8 text.now }
    ensures stands { IfOk result (λ at. HasString heap.new.items at text.now) }
    ensures grows { Grows heap.old.items heap.new.items }
{
    let at = end_of(heap)?;
    heap.extend_from_slice(text)?;
    heap.push(0)?;
    Ok(at)
}

/// Adds a blob behind its length to a heap of blobs, and tells where it stands. A blob has fewer than 2^29 bytes, and a heap fewer than 2^32; what has no
/// room is answered as want of memory. After that answer the heap is what it was, with perhaps a part more.
pub fn push_blob(heap: &mut Vec<u8>, blob: &[u8]) -> Result<u32, AllocError>
    ensures stands { IfOk result (λ at. HasBlob heap.new.items at blob.now) }
    ensures grows { Grows heap.old.items heap.new.items }
{
    let at = end_of(heap)?;
    push_counted(heap, blob)?;
    Ok(at)
}

/// Adds a text to a heap of user strings, and tells where it stands: within the first 2^24 bytes, which a token can name. What has no room is answered as
/// want of memory. After that answer the heap is what it was, with perhaps a part more.
pub fn push_text(alloc: Global, heap: &mut Vec<u8>, units: &[u16]) -> Result<u32, AllocError>
    ensures stands { IfOk result (λ at. HasText heap.new.items at units.now) }
    ensures near { IfOk result (λ at. at < 2 ^ 24) }
    ensures grows { Grows heap.old.items heap.new.items }
{
    let at = end_of(heap)?;
    if at >= 1 << 24 {
        return Err(AllocError);
    }
    let mut blob = unit_bytes(alloc, units)?;
    blob.push(flag_of(units))?;
    push_counted(heap, &blob)?;
    Ok(at)
}
