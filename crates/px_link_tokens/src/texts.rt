// Texts of the heap of user strings.
ghost use Rattle.std.specs.Prelude.{◌≡◌, IfOk, IfSome};
ghost use Rattle.px_link_tokens.specs.Operands.{text_at_token, units_of};
ghost use Rattle.px_link_tokens.specs.Parts.{IsThere};

use crate::operand::Operand;
use px_blobs::user_string_at;
use px_meta::Meta;
use px_tables::Heap;
use sqlite_items::Items;
use std::alloc::{AllocError, Global};

// The code units of so many bytes, low byte first; a byte behind the last pair is passed over.
fn units_of(alloc: Global, bytes: &[u8]) -> Result<Vec<u16>, AllocError>
    ensures { IfOk result (λ units. units.items ≡ units_of bytes.now) }
{
    let mut units = Vec::new(alloc);
    let mut rest = bytes;
    while let [low, high, tail @ ..] = rest {
        units.push(u16::from(*low) + 256 * u16::from(*high))?;
        rest = tail;
    }
    Ok(units)
}

/// The text of `ldstr`. The byte behind its code units makes their bytes odd in number.
pub fn text_at(alloc: Global, meta: &Meta, token: u32) -> Result<Option<Operand>, AllocError>
    ensures text { IfOk result (λ text. text ≡ text_at_token meta.now token) }
    ensures there { IfOk result (λ text. IfSome text (IsThere meta.now)) }
{
    if token / 0x100_0000 != 0x70 {
        return Ok(None);
    }
    let heap = meta.tables().heap(Heap::UserStrings);
    match user_string_at(heap, token % 0x100_0000) {
        Some(bytes) if bytes.len() % 2 == 1 => {
            let units = units_of(alloc, bytes)?;
            Ok(Some(Operand::Text(Items::from_vec(units))))
        }
        _ => Ok(None),
    }
}
