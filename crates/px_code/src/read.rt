// Reads a body from its bytes.
ghost use Rattle.std.specs.Prelude.{◌≡◌, ◌≢◌, ◌+◌, ◌<◌, ◌≤◌, ◌^◌, true, [], length, All, IfOk};
ghost use Rattle.px_code.specs.Reading.{Gives};
ghost use Rattle.px_code.specs.Body.{body_of, clauses_of, instrs_from, is_placed, Follow, IsFormed};
ghost use Rattle.std.specs.List.{list_all};
ghost use Rattle.px_code.specs.Parts.{shown, IsWithin};

use crate::body::{Body, BodyFault, BodyKind, RawClause, RawInstr};
use crate::bytes::aligned;
use crate::header::{Header, header_of};
use crate::instr::instr_at;
use crate::offsets::first_bad;
use crate::section::sections_from;
use sqlite_items::Items;
use std::alloc::Global;

// The instructions of the code, in order.
fn instrs_of(alloc: Global, base: u32, code: &[u8]) -> Result<Vec<RawInstr>, BodyFault>
    requires { base + length code.now < 2 ^ 31 }
    ensures gives { Gives (λ instrs. instrs.items) result (instrs_from (length code.now) base code.now 0) }
    ensures some { IfOk result (λ instrs. 0 < length code.now → instrs.items ≢ []) }
    ensures follow { IfOk result (λ instrs. Follow 0 instrs.items) }
    ensures short { IfOk result (λ instrs. All (λ instr. base + instr.offset < 2 ^ 31) instrs.items) }
{
    let mut instrs = Vec::new(alloc);
    let mut at = 0;
    while at < code.len() {
        let instr = instr_at(alloc, base, code, at)?;
        at = instr.next as usize;
        instrs.push(instr)?;
    }
    Ok(instrs)
}

// The clauses of the sections behind the code, where there are any.
fn clauses_of(
    alloc: Global,
    header: &Header,
    instrs: &[RawInstr],
    bytes: &[u8],
) -> Result<Vec<RawClause>, BodyFault>
    requires short { length bytes.now < 2 ^ 31 }
    requires within { IsWithin header.now bytes.now }
    requires some { 0 < length header.now.code.now }
    requires follow { Follow 0 instrs.now }
    ensures gives { Gives (λ clauses. clauses.items) result (clauses_of (shown header.now) instrs.now bytes.now) }
    ensures placed { IfOk result (λ clauses. list_all (is_placed instrs.now) clauses.items ≡ true) }
    ensures few { IfOk result (λ clauses. length clauses.items < 2 ^ 32) }
{
    if !header.more {
        return Ok(Vec::new(alloc));
    }
    let behind = header.base as usize + header.code.len();
    sections_from(alloc, instrs, bytes, aligned(behind))
}

/// Reads the body that the bytes begin with; bytes behind it aren't looked at.
/// The fault is the first one in this order: the header, the bytes of the code, the opcodes by offset, the branches by offset, the clauses.
#[tactic(auto, unfolding(crate::specs::Body::body_of))]
pub fn read_body(alloc: Global, bytes: &[u8]) -> Result<Body, BodyFault>
    requires { length bytes.now < 2 ^ 31 }
    ensures exact { Gives (λ body. body) result (body_of bytes.now) }
    ensures formed { IfOk result IsFormed }
{
    let header = header_of(bytes)?;
    let instrs = instrs_of(alloc, header.base, header.code)?;
    match first_bad(instrs.as_slice()) {
        Some(instr) => Err(BodyKind::BadTarget.at(header.base + instr.offset)),
        None => {
            let clauses = clauses_of(alloc, &header, instrs.as_slice(), bytes)?;
            Ok(Body {
                max_stack: header.max_stack,
                init_locals: header.init_locals,
                locals_token: header.locals_token,
                code: Items::from_vec(instrs),
                clauses: Items::from_vec(clauses),
            })
        }
    }
}
