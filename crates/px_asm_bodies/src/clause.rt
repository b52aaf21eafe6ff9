// The section of the clauses: Partition II, 25.4.5 and 25.4.6.
ghost use Rattle.std.specs.Prelude.{◌≡◌, ◌++◌, ◌≤◌, OnOk, length};
ghost use Rattle.std.specs.List.{flat_map, All};
ghost use Rattle.px_asm_bodies.specs.Bytes.{clause_bytes, section_bytes};
ghost use Rattle.px_asm_bodies.specs.Parts.{HasRanges, IsNarrow};

use crate::bytes::push_number;
use px_code::RawClause;
use std::alloc::AllocError;

// A clause in twenty-four bytes.
fn push_clause(out: &mut Vec<u8>, clause: RawClause) -> Result<(), AllocError>
    requires { HasRanges clause }
    ensures pushed { OnOk result (out.new.items ≡ out.old.items ++ clause_bytes clause) }
    ensures narrow { IsNarrow clause }
{
    push_number(out, 4, u64::from(clause.flags))?;
    push_number(out, 4, u64::from(clause.from))?;
    push_number(out, 4, u64::from(clause.to - clause.from))?;
    push_number(out, 4, u64::from(clause.start))?;
    push_number(out, 4, u64::from(clause.stop - clause.start))?;
    push_number(out, 4, u64::from(clause.class))
}

// The clauses, one after the other.
fn push_clauses(out: &mut Vec<u8>, clauses: &[RawClause]) -> Result<(), AllocError>
    requires { All HasRanges clauses.now }
    ensures pushed { OnOk result (out.new.items ≡ out.old.items ++ flat_map clause_bytes clauses.now) }
    ensures narrow { OnOk result (All IsNarrow clauses.now) }
{
    for clause in clauses {
        push_clause(out, *clause)?;
    }
    Ok(())
}

/// One section with all clauses, if there are any.
#[tactic(auto, unfolding(crate::specs::Bytes::section_bytes))]
pub fn push_section(out: &mut Vec<u8>, clauses: &[RawClause]) -> Result<(), AllocError>
    requires few { length clauses.now ≤ 699050 }
    requires ranges { All HasRanges clauses.now }
    ensures pushed { OnOk result (out.new.items ≡ out.old.items ++ section_bytes clauses.now) }
    ensures narrow { OnOk result (All IsNarrow clauses.now) }
{
    if clauses.is_empty() {
        return Ok(());
    }
    out.push(0x41)?;
    push_number(out, 3, 4 + 24 * clauses.len() as u64)?;
    push_clauses(out, clauses)
}
