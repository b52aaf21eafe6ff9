// The header of the stream of tables: Partition II, 24.2.6.
ghost use Rattle.std.specs.Prelude.{◌≡◌, ◌≤◌, ◌<◌, ◌^◌, length, IfOk};
ghost use Rattle.px_tables.specs.Metadata.{counts_at, has_unknown, header_of};

use crate::column::columns;
use crate::counts::{Counts, has_bit};
use crate::fault::{TableFault, TableKind};
use crate::part::Part;

/// What the header says: which tables there are, how many rows they have, and where in the stream the rows begin.
#[derive(Clone, Copy)]
pub struct Header {
    pub valid: u64,
    pub counts: Counts,
    pub behind: usize,
}

// How many rows each table has, and where what follows these counts begins.
fn counts_at(part: &Part<'_>, valid: u64) -> Result<([u32; 64], usize), TableFault>
    requires { 24 ≤ length part.now.bytes }
    ensures exact { result ≡ counts_at 64 0 valid part.now 24 }
    ensures inside { IfOk result (λ counts. counts.1 ≤ length part.now.bytes) }
{
    let mut counts = [0; 64];
    let mut at = 24;
    for table in 0..64u8 {
        if !has_bit(valid, table) {
            continue;
        }
        counts[usize::from(table)] = part.read_u32(at)?;
        at += 4;
    }
    Ok((counts, at))
}

impl Header {
    /// The header that the stream of tables begins with.
    #[tactic(auto, unfolding(crate::specs::Metadata::header_of))]
    pub fn read(part: &Part<'_>) -> Result<Header, TableFault>
        ensures exact { result ≡ header_of part.now }
        ensures inside { IfOk result (λ header. header.behind ≤ length part.now.bytes) }
    {
        if !matches!(part.read_u8(4)?, 1 | 2) {
            return Err(TableKind::BadVersion.at(part.start() + 4));
        }
        let heap_sizes = part.read_u8(6)?;
        let valid = part.read_u64(8)?;
        part.read_u64(16)?;
        let (rows, behind) = counts_at(part, valid)?;
        Ok(Header {
            valid,
            counts: Counts { heap_sizes, rows },
            behind,
        })
    }

    /// Whether a number that no table has is among the tables.
    #[tactic(auto, unfolding(crate::specs::Metadata::has_unknown))]
    pub fn has_unknown(&self) -> bool
        ensures { result ≡ has_unknown self.now.valid }
    {
        (0..64).any(|table| has_bit(self.valid, table) && columns(table).is_empty())
    }
}
