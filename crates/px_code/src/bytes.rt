// Numbers in bytes.
ghost use Rattle.std.specs.Prelude.{◌≡◌, ◌≤◌, ◌<◌, ◌+◌, ◌*◌, ◌^◌, length};
ghost use Rattle.px_code.specs.Body.{aligned, number_at};

use byteorder::{ByteOrder, LittleEndian};

/// The number of so many bytes from a place on.
pub fn number_at(bytes: &[u8], at: usize, size: usize) -> u64
    requires inside { at + size ≤ length bytes.now }
    requires few { size ≤ 8 }
    ensures number { result ≡ number_at bytes.now at size }
    ensures bound { result < 2 ^ (8 * size) }
{
    if size == 0 {
        return 0;
    }
    LittleEndian::read_uint(&bytes[at..], size)
}

/// The next multiple of 4.
pub fn aligned(at: usize) -> usize
    requires { at < 2 ^ 32 }
    ensures { result ≡ aligned at }
{
    4 * ((at + 3) / 4)
}
