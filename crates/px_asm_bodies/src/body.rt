// Bodies: Partition II, 25.4.
ghost use Rattle.std.specs.Prelude.{◌≡◌, ◌++◌, ◌%◌, ℕ, List, Ok, length, IfOk, OnOk};
ghost use Rattle.std.specs.List.{AllByRecursion};
ghost use Rattle.px_code.specs.Body.{IsFormed, body_of};
ghost use Rattle.px_asm_bodies.specs.Bytes.{has_clauses, header_bytes, header_flags};
ghost use Rattle.px_asm_bodies.specs.Encoding.{IsEncodable};
ghost use Rattle.px_asm_bodies.specs.Parts.{FitsHeader};

use crate::bytes::push_number;
use crate::clause::push_section;
use crate::code::{end_of, push_code};
use px_code::Body;
use std::alloc::{AllocError, Global};

// So many clauses fit a section, whose size has three bytes.
const MOST_CLAUSES: usize = 699_050;

// The first byte of a header: its form, and whether sections follow and locals start as zero.
fn header_flags(body: &Body) -> u8
    ensures { result ≡ header_flags (has_clauses body.now.clauses) body.now.init_locals }
{
    let more = if body.clauses.is_empty() { 0 } else { 8 };
    let init_locals = if body.init_locals { 0x10 } else { 0 };
    3 + more + init_locals
}

// A header of twelve bytes.
fn push_header(out: &mut Vec<u8>, body: &Body) -> Result<(), AllocError>
    ensures pushed { OnOk result (out.new.items ≡ out.old.items ++ header_bytes body.now) }
    ensures fits { OnOk result (FitsHeader body.now) }
{
    out.push(header_flags(body))?;
    out.push(0x30)?;
    push_number(out, 2, u64::from(body.max_stack))?;
    push_number(out, 4, u64::from(end_of(body.code.as_slice())))?;
    push_number(out, 4, u64::from(body.locals_token))
}

/// The bytes of a body with a header of twelve bytes, up to a multiple of 4. What is read where they stand is the body, whatever follows. A body has room
/// for 699,050 clauses; more are answered as want of memory.
pub fn write_body(alloc: Global, body: &Body) -> Result<Vec<u8>, AllocError>
    requires formed { IsFormed body.now }
    requires code { AllByRecursion IsEncodable body.now.code }
    ensures read { IfOk result (λ bytes. (rest : List ℕ) → body_of (bytes.items ++ rest) ≡ Ok body.now) }
    ensures aligned { IfOk result (λ bytes. length bytes.items % 4 ≡ 0) }
{
    let clauses = body.clauses.as_slice();
    if MOST_CLAUSES < clauses.len() {
        return Err(AllocError);
    }
    let mut out = Vec::new(alloc);
    push_header(&mut out, body)?;
    push_code(&mut out, body.code.as_slice())?;
    push_section(&mut out, clauses)?;
    Ok(out)
}
