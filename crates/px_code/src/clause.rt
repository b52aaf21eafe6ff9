// A clause and its two ranges: Partition II, 25.4.6.
ghost use Rattle.std.specs.Prelude.{◌≡◌, ◌+◌, ◌*◌, ◌<◌, ◌≤◌, ◌^◌, if◌then◌else◌, length};
ghost use Rattle.px_code.specs.Reading.{Gives};
ghost use Rattle.px_code.specs.Body.{clause_at, clause_by, clause_size, clauses_at, fat_clause, is_placed, small_clause, Follow};
ghost use Rattle.px_code.specs.Parts.{clause_of};

use crate::body::{BodyFault, BodyKind, RawClause, RawInstr};
use crate::bytes::number_at;
use crate::offsets::is_range;
use std::alloc::Global;

// What a clause says, before its ranges are known to lie within the code.
#[derive(Clone, Copy)]
struct Numbers {
    flags: u32,
    from: u64,
    to: u64,
    start: u64,
    stop: u64,
    class: u32,
}

impl Numbers {
    // Those of a clause of twelve bytes.
    fn small(bytes: &[u8], at: usize) -> Numbers
        requires { at + 12 ≤ length bytes.now }
        ensures { clause_of result ≡ small_clause bytes.now at }
    {
        let from = number_at(bytes, at + 2, 2);
        let start = number_at(bytes, at + 5, 2);
        Numbers {
            flags: number_at(bytes, at, 2) as u32,
            from,
            to: from + number_at(bytes, at + 4, 1),
            start,
            stop: start + number_at(bytes, at + 7, 1),
            class: number_at(bytes, at + 8, 4) as u32,
        }
    }

    // Those of a clause of twenty-four bytes.
    fn fat(bytes: &[u8], at: usize) -> Numbers
        requires { at + 24 ≤ length bytes.now }
        ensures { clause_of result ≡ fat_clause bytes.now at }
    {
        let from = number_at(bytes, at + 4, 4);
        let start = number_at(bytes, at + 12, 4);
        Numbers {
            flags: number_at(bytes, at, 4) as u32,
            from,
            to: from + number_at(bytes, at + 8, 4),
            start,
            stop: start + number_at(bytes, at + 16, 4),
            class: number_at(bytes, at + 20, 4) as u32,
        }
    }

    // Those of a clause of either form.
    fn read(is_fat: bool, bytes: &[u8], at: usize) -> Numbers
        requires { at + clause_size is_fat ≤ length bytes.now }
        ensures { clause_of result ≡ clause_by is_fat bytes.now at }
    {
        if is_fat {
            Numbers::fat(bytes, at)
        } else {
            Numbers::small(bytes, at)
        }
    }

    // The clause, where its kind and its ranges are right.
    fn clause(self, instrs: &[RawInstr]) -> Option<RawClause>
        requires { Follow 0 instrs.now }
        ensures { result ≡ (if is_placed instrs.now (clause_of self) then Some (clause_of self) else None) }
    {
        let is_known = matches!(self.flags, 0..=2 | 4);
        if !is_known
            || !is_range(instrs, self.from, self.to)
            || !is_range(instrs, self.start, self.stop)
        {
            return None;
        }
        Some(RawClause {
            flags: self.flags,
            from: self.from as u32,
            to: self.to as u32,
            start: self.start as u32,
            stop: self.stop as u32,
            class: self.class,
        })
    }
}

/// How many bytes a clause has.
pub fn clause_size(is_fat: bool) -> usize
    ensures { result ≡ clause_size is_fat }
{
    if is_fat { 24 } else { 12 }
}

// The clause at a place, counted from the header.
fn clause_at(
    instrs: &[RawInstr],
    is_fat: bool,
    bytes: &[u8],
    at: usize,
) -> Result<RawClause, BodyFault>
    requires follow { Follow 0 instrs.now }
    requires short { length bytes.now < 2 ^ 31 }
    requires near { at < 2 ^ 32 }
    ensures { Gives (λ clause. clause) result (clause_at instrs.now is_fat bytes.now at) }
{
    if bytes.len() < at + clause_size(is_fat) {
        return Err(BodyKind::Cut.at(bytes.len() as u32));
    }
    match Numbers::read(is_fat, bytes, at).clause(instrs) {
        None => Err(BodyKind::BadClause.at(at as u32)),
        Some(clause) => Ok(clause),
    }
}

/// So many clauses from a place on.
pub fn clauses_at(
    alloc: Global,
    instrs: &[RawInstr],
    is_fat: bool,
    bytes: &[u8],
    from: usize,
    count: usize,
) -> Result<Vec<RawClause>, BodyFault>
    requires follow { Follow 0 instrs.now }
    requires short { length bytes.now < 2 ^ 31 }
    requires near { from + clause_size is_fat * count < 2 ^ 32 }
    ensures { Gives (λ clauses. clauses.items) result (clauses_at instrs.now is_fat bytes.now from count) }
{
    let size = clause_size(is_fat);
    let mut clauses = Vec::new(alloc);
    for index in 0..count {
        clauses.push(clause_at(instrs, is_fat, bytes, from + size * index)?)?;
    }
    Ok(clauses)
}
