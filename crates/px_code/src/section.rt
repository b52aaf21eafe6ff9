// The sections behind the code: Partition II, 25.4.5.
ghost use Rattle.std.specs.Prelude.{◌≡◌, ◌+◌, ◌*◌, ◌<◌, ◌≤◌, ◌^◌, length, slice_index};
ghost use Rattle.px_code.specs.Reading.{Gives};
ghost use Rattle.px_code.specs.Body.{clauses_in, has_next, is_fat, is_table, section_behind, section_size, sections_from, Follow};
ghost use Rattle.px_code.specs.Parts.{IsSection};

use crate::body::{BodyFault, BodyKind, RawClause, RawInstr};
use crate::bytes::{aligned, number_at};
use crate::clause::{clause_size, clauses_at};
use std::alloc::Global;

// What the first four bytes of a section say.
#[derive(Clone, Copy)]
struct Section {
    is_table: bool,
    is_fat: bool,
    has_next: bool,
    size: usize,
}

impl Section {
    // The section at a place.
    fn read(bytes: &[u8], at: usize) -> Section
        requires { at + 4 ≤ length bytes.now }
        ensures { IsSection bytes.now at result }
    {
        let kind = bytes[at];
        let is_fat = kind / 0x40 % 2 == 1;
        let width = if is_fat { 3 } else { 1 };
        Section {
            is_table: kind % 0x40 == 1,
            is_fat,
            has_next: 0x80 <= kind,
            size: number_at(bytes, at + 1, width) as usize,
        }
    }
}

// The clauses of a section; one of another kind has none.
fn clauses_in(
    alloc: Global,
    instrs: &[RawInstr],
    bytes: &[u8],
    section: Section,
    at: usize,
) -> Result<Vec<RawClause>, BodyFault>
    requires follow { Follow 0 instrs.now }
    requires short { length bytes.now < 2 ^ 31 }
    requires there { at + 4 ≤ length bytes.now }
    requires section { IsSection bytes.now at section }
    ensures { Gives (λ clauses. clauses.items) result (clauses_in instrs.now bytes.now at) }
{
    if !section.is_table {
        return Ok(Vec::new(alloc));
    }
    let count = section.size / clause_size(section.is_fat);
    clauses_at(alloc, instrs, section.is_fat, bytes, at + 4, count)
}

// Where the section behind a section starts.
fn section_behind(bytes: &[u8], section: Section, at: usize) -> usize
    requires short { length bytes.now < 2 ^ 31 }
    requires there { at + 4 ≤ length bytes.now }
    requires section { IsSection bytes.now at section }
    ensures exact { result ≡ section_behind bytes.now at }
    ensures later { at + 4 ≤ result }
    ensures near { result < 2 ^ 32 }
{
    aligned(at + section.size.max(4))
}

/// The clauses of the sections from a place on.
pub fn sections_from(
    alloc: Global,
    instrs: &[RawInstr],
    bytes: &[u8],
    from: usize,
) -> Result<Vec<RawClause>, BodyFault>
    requires follow { Follow 0 instrs.now }
    requires short { length bytes.now < 2 ^ 31 }
    requires some { 0 < length bytes.now }
    requires behind { 0 < from }
    requires near { from < 2 ^ 32 }
    ensures { Gives (λ clauses. clauses.items) result (sections_from (length bytes.now) instrs.now bytes.now from) }
{
    let mut clauses = Vec::new(alloc);
    let mut at = from;
    loop {
        if bytes.len() < at + 4 {
            return Err(BodyKind::Cut.at(bytes.len() as u32));
        }
        let section = Section::read(bytes, at);
        let mut more = clauses_in(alloc, instrs, bytes, section, at)?;
        clauses.append(&mut more)?;
        if !section.has_next {
            return Ok(clauses);
        }
        at = section_behind(bytes, section, at);
    }
}
