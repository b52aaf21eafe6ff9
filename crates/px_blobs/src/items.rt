// Strings, blobs and compressed numbers.
ghost use Rattle.std.specs.Prelude.{◌≡◌, ◌+◌, ◌^◌, ◌<◌, ◌≤◌, ◌==◌, position, ℕ, List, length, drop, MatchOption, IfSome};
ghost use Rattle.std.specs.Option.{option_map};
ghost use Rattle.px_blobs.specs.Items.{IsStringAt, blob_at, compressed_at, compressed_in};

// The bytes from a place on, which are none where the place is outside.
fn bytes_from(bytes: &[u8], at: u32) -> &[u8]
    ensures { result.now ≡ drop at bytes.now }
{
    bytes.get(at as usize..).unwrap_or(&[])
}

// The place of the first zero byte.
fn first_zero(bytes: &[u8]) -> Option<usize>
    ensures { result ≡ position (λ byte. byte == 0) bytes.now }
{
    bytes.iter().position(|byte| *byte == 0)
}

/// The text at a place of the heap of strings. None comes exactly where the place is outside, no zero byte follows, or the bytes before it aren't UTF-8.
pub fn string_at(heap: &[u8], at: u32) -> Option<&str>
    ensures { MatchOption result ((text : List ℕ) → IsStringAt heap.now at text → ⊥) (λ text. IsStringAt heap.now at text.now) }
{
    let bytes = bytes_from(heap, at);
    let end = first_zero(bytes)?;
    str::from_utf8(&bytes[..end]).ok()
}

/// The blob at a place of the heap of blobs. None comes exactly where no compressed length with so many bytes behind it stands there.
pub fn blob_at(heap: &[u8], at: u32) -> Option<&[u8]>
    ensures { option_map (λ x. x.now) result ≡ blob_at heap.now at }
{
    let bytes = bytes_from(heap, at);
    let (length, used) = compressed_in(bytes)?;
    bytes[used as usize..].get(..length as usize)
}

/// The bytes of the text at a place of the heap of user strings, in the form of a blob.
pub fn user_string_at(heap: &[u8], at: u32) -> Option<&[u8]>
    ensures { option_map (λ x. x.now) result ≡ blob_at heap.now at }
{
    blob_at(heap, at)
}

// The compressed number that the bytes begin with, and how many bytes it takes.
fn compressed_in(bytes: &[u8]) -> Option<(u32, u32)>
    ensures number { option_map (λ c. record { number = c.0; used = c.1 }) result ≡ compressed_in bytes.now }
    ensures within { IfSome result (λ c. (0 < c.1) × (c.1 ≤ length bytes.now)) }
    ensures bound { IfSome result (λ c. c.0 < 2 ^ 29) }
{
    match bytes {
        [a @ 0..=0x7F, ..] => Some((u32::from(*a), 1)),
        [a @ 0x80..=0xBF, b, ..] => Some((u32::from_be_bytes([0, 0, *a - 0x80, *b]), 2)),
        [a @ 0xC0..=0xDF, b, c, d, ..] => Some((u32::from_be_bytes([*a - 0xC0, *b, *c, *d]), 4)),
        _ => None,
    }
}

/// The compressed number at a place, below 2^29, and how many bytes it takes. None comes exactly where none stands there.
pub fn compressed(bytes: &[u8], at: u32) -> Option<(u32, u32)>
    ensures number { option_map (λ c. record { number = c.0; used = c.1 }) result ≡ compressed_at bytes.now at }
    ensures within { IfSome result (λ c. (0 < c.1) × (at + c.1 ≤ length bytes.now)) }
    ensures bound { IfSome result (λ c. c.0 < 2 ^ 29) }
{
    compressed_in(bytes_from(bytes, at))
}
