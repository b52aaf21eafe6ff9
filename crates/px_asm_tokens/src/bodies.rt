// The bodies of methods: Partition II, 25.4.
ghost use Rattle.std.specs.Prelude.{◌≡◌, ◌≢◌, ◌+◌, ◌++◌, ◌<◌, ◌^◌, [], Some, length, IfOk, OnOk, slice_get};
ghost use Rattle.std.specs.List.{AllByRecursion, AllZip};
ghost use Rattle.px_asm_bodies.specs.Encoding.{IsEncodable};
ghost use Rattle.px_asm_heaps.specs.Heaps.{Grows};
ghost use Rattle.px_asm_image.specs.Image.{first_body};
ghost use Rattle.px_program.specs.Formed.{HasOperands, IsFormedIn};
ghost use Rattle.px_program.specs.declared.instr.Instr.{Instr};
ghost use Rattle.px_program.specs.declared.program.Method.{Method};
ghost use Rattle.px_asm_opcodes.specs.Recoding.{HasRaw, token_opcode};
ghost use Rattle.px_asm_described.specs.Describes.{flags_of, method_row, raw_clause};
ghost use Rattle.px_asm_described.specs.Writable.{IsWritableClause};
ghost use Rattle.px_asm_law_written.specs.Holds.{IsAddress, IsBodyIn, IsInstrIn};
ghost use Rattle.px_asm_law_written.specs.Store.{AreReferences, StoreGrows};

use crate::tokens::token_of;
use px_asm_bodies::write_body;
use px_asm_opcodes::raw_of;
use px_asm_store::{Rows, Store, class_token};
use px_code::{Body, RawClause, RawInstr};
use px_program::{Clause, ClauseKind, Instr, Method};
use sqlite_items::Items;
use std::alloc::{AllocError, Global};

// The number of StandAloneSig, times 2^24.
const LOCALS: u32 = 0x1100_0000;

// Where the first body stands: behind the headers of the file.
const FIRST_BODY: u32 = 0x2048;

// Each body begins within so many bytes.
const MOST_BYTES: usize = 1 << 30;

// The instructions of a method, with their tokens.
fn raws_of(
    alloc: Global,
    rows: &Rows,
    store: &mut Store,
    code: &[Instr],
) -> Result<Items<RawInstr>, AllocError>
    requires operands { AllByRecursion (λ (instr : Instr). HasOperands rows.now instr.code) code.now }
    requires raws { AllByRecursion (λ (instr : Instr). HasRaw (token_opcode instr.code) instr) code.now }
    requires before { AreReferences rows.now store.old }
    ensures are { IfOk result (AllZip (IsInstrIn rows.now store.new) code.now) }
    ensures grows { OnOk result (StoreGrows store.old store.new) }
    ensures kept { OnOk result (AreReferences rows.now store.new) }
{
    let mut raws = Items::new(alloc);
    for instr in code {
        let token = token_of(rows, store, &instr.code)?;
        let raw = raw_of(alloc, instr, token)?;
        raws.push(raw)?;
    }
    Ok(raws)
}

// The flags of a clause: Partition II, 25.4.6.
fn flags_of(kind: ClauseKind) -> u32
    ensures { result ≡ flags_of kind }
{
    match kind {
        ClauseKind::Catch => 0,
        ClauseKind::Filter => 1,
        ClauseKind::Finally => 2,
        ClauseKind::Fault => 4,
    }
}

// A clause, with the token of its class.
fn raw_clause(rows: &Rows, clause: &Clause) -> RawClause
    requires { IsWritableClause rows.now clause.now }
    ensures { result ≡ raw_clause rows.now clause.now }
{
    let class = match clause.class {
        Some(class) => class_token(rows, class),
        None => 0,
    };
    RawClause {
        flags: flags_of(clause.kind),
        from: clause.from,
        to: clause.to,
        start: clause.start,
        stop: clause.stop,
        class,
    }
}

// The clauses of a method.
fn clauses_of(
    alloc: Global,
    rows: &Rows,
    clauses: &[Clause],
) -> Result<Items<RawClause>, AllocError>
    requires { AllByRecursion (IsWritableClause rows.now) clauses.now }
    ensures { IfOk result (AllZip (λ clause raw. raw ≡ raw_clause rows.now clause) clauses.now) }
{
    let mut raws = Items::new(alloc);
    for clause in clauses {
        raws.push(raw_clause(rows, clause))?;
    }
    Ok(raws)
}

// The body of a method that has code. Its locals have the row of the method.
fn body_of(
    alloc: Global,
    rows: &Rows,
    store: &mut Store,
    row: u32,
    method: &Method,
) -> Result<Body, AllocError>
    requires row { row < 2 ^ 24 }
    requires code { method.now.code ≢ [] }
    requires formed { IsFormedIn rows.now method.now }
    requires raws { AllByRecursion (λ (instr : Instr). HasRaw (token_opcode instr.code) instr) method.now.code }
    requires clauses { AllByRecursion (IsWritableClause rows.now) method.now.clauses }
    requires before { AreReferences rows.now store.old }
    ensures is { IfOk result (IsBodyIn rows.now store.new row method.now) }
    ensures encodable { IfOk result (λ body. AllByRecursion IsEncodable body.code) }
    ensures grows { OnOk result (StoreGrows store.old store.new) }
    ensures kept { OnOk result (AreReferences rows.now store.new) }
{
    let code = raws_of(alloc, rows, store, method.code.as_slice())?;
    let clauses = clauses_of(alloc, rows, method.clauses.as_slice())?;
    Ok(Body {
        max_stack: method.max_stack,
        init_locals: true,
        locals_token: LOCALS + row,
        code,
        clauses,
    })
}

// Adds the bytes of a body, and tells its address.
fn push_bytes(bodies: &mut Vec<u8>, bytes: &[u8]) -> Result<u32, AllocError>
    ensures address { IfOk result (λ address. address ≡ first_body + length bodies.old.items) }
    ensures behind { OnOk result (bodies.new.items ≡ bodies.old.items ++ bytes.now) }
{
    let at = bodies.len();
    if at >= MOST_BYTES {
        return Err(AllocError);
    }
    bodies.extend_from_slice(bytes)?;
    Ok(FIRST_BODY + at as u32)
}

/// Adds the body of a method to those that are written, and tells its address: 0 where it has no code. The locals have the row of the method in
/// StandAloneSig.
pub fn push_body(
    alloc: Global,
    rows: &Rows,
    store: &mut Store,
    bodies: &mut Vec<u8>,
    number: u32,
) -> Result<u32, AllocError>
    requires number { number < length rows.now.methods }
    requires before { AreReferences rows.now store.old }
    ensures address { (method : Method) → slice_get rows.now.methods number ≡ Some method → IfOk result (IsAddress rows.now store.new bodies.new.items (method_row rows.now number) method method.code) }
    ensures grows { OnOk result (StoreGrows store.old store.new) }
    ensures behind { OnOk result (Grows bodies.old.items bodies.new.items) }
    ensures kept { OnOk result (AreReferences rows.now store.new) }
{
    let method = &rows.program().methods.as_slice()[number as usize];
    if method.code.is_empty() {
        return Ok(0);
    }
    let body = body_of(alloc, rows, store, rows.method_row(number), method)?;
    let bytes = write_body(alloc, &body)?;
    push_bytes(bodies, bytes.as_slice())
}
