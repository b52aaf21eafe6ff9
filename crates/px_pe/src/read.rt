// Reads at a place of a file.
ghost use Rattle.std.specs.Prelude.{◌≡◌, ◌+◌, ◌≤◌, length, IfOk, MatchResult, Ok, Err};
ghost use Rattle.px_pe.specs.Reading.{read_bytes, read_number};

use crate::fault::{PeFault, PeKind};
use byteorder::{ByteOrder, LittleEndian};

/// So many bytes, which are one read.
#[tactic(auto, unfolding(crate::specs::Reading::read_bytes))]
pub fn read_bytes(file: &[u8], at: u32, size: u32) -> Result<&[u8], PeFault>
    ensures exact { MatchResult result (λ bytes. read_bytes size file.now at ≡ Ok bytes.now) (λ fault. read_bytes size file.now at ≡ Err fault) }
    ensures inside { IfOk result (λ bytes. at + size ≤ length file.now) }
    ensures len { IfOk result (λ bytes. length bytes.now ≡ size) }
{
    let start = at as usize;
    let end = start + size as usize;
    if file.len() < end {
        Err(PeKind::Cut.at(at))
    } else {
        Ok(&file[start..end])
    }
}

/// A number of two bytes.
#[tactic(auto, unfolding(crate::specs::Reading::read_number))]
pub fn read_u16(file: &[u8], at: u32) -> Result<u16, PeFault>
    ensures exact { result ≡ read_number 2 file.now at }
    ensures inside { IfOk result (λ _. at + 2 ≤ length file.now) }
{
    Ok(LittleEndian::read_u16(read_bytes(file, at, 2)?))
}

/// A number of four bytes.
#[tactic(auto, unfolding(crate::specs::Reading::read_number))]
pub fn read_u32(file: &[u8], at: u32) -> Result<u32, PeFault>
    ensures exact { result ≡ read_number 4 file.now at }
    ensures inside { IfOk result (λ _. at + 4 ≤ length file.now) }
{
    Ok(LittleEndian::read_u32(read_bytes(file, at, 4)?))
}
