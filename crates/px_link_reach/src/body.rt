// The bodies of methods.
ghost use Rattle.std.specs.Prelude.{◌≡◌, ◌≢◌, ◌<◌, ◌^◌, length, IfOk, IfSome};
ghost use Rattle.std.specs.Option.{option_map};
ghost use Rattle.px_blobs.specs.Items.{blob_at};
ghost use Rattle.px_code.specs.Body.{IsFormed};
ghost use Rattle.px_code.specs.Reading.{Gives};
ghost use Rattle.px_meta.specs.Rows.{IsRow, cell, methods, some_row};
ghost use Rattle.px_link_reach.specs.Bodies.{body_at, locals_at, locals_in, no_body, stand_alone_sigs, whole_at, whole_of};

use px_blobs::blob_at;
use px_code::{Body, BodyFault, BodyKind, read_body};
use px_meta::{METHODS, some_row};
use px_pe::Image;
use px_sig::{SigFault, SigType, read_locals_sig};
use px_tables::{Heap, Tables};
use sqlite_items::Items;
use std::alloc::{AllocError, Global};

const STAND_ALONE_SIGS: u8 = 0x11;

/// A body with the types of its locals.
#[derive(Drop)]
pub struct Whole {
    pub body: Body,
    pub locals: Items<SigType>,
}

// Reads the body at an address; one that no section holds is cut.
fn body_at(alloc: Global, image: &Image, rva: u32) -> Result<Body, BodyFault>
    ensures exact { Gives (λ body. body) result (body_at image.now rva) }
    ensures formed { IfOk result IsFormed }
{
    match image.rest_at(rva) {
        Some(span) => read_body(
            alloc,
            &image.bytes()[span.start as usize..][..span.len as usize],
        ),
        None => Err(BodyFault::Bad {
            kind: BodyKind::Cut,
            at: 0,
        }),
    }
}

// The blob at a place. Its length has at most 29 bits.
fn blob_in(heap: &[u8], at: u32) -> Option<&[u8]>
    ensures blob { option_map (λ x. x.now) result ≡ blob_at heap.now at }
    ensures short { IfSome result (λ x. length x.now < 2 ^ 31) }
{
    blob_at(heap, at)
}

// The types of locals in the signature of a row, where it is one of locals.
fn locals_in(
    alloc: Global,
    tables: &Tables,
    row: Option<u32>,
) -> Result<Option<Items<SigType>>, AllocError>
    requires { IfSome row (IsRow tables.now stand_alone_sigs) }
    ensures { IfOk result (λ locals. locals ≡ locals_in tables.now row) }
{
    let Some(row) = row else {
        return Ok(None);
    };
    let at = tables.row(STAND_ALONE_SIGS, row).cells[0];
    let Some(blob) = blob_in(tables.heap(Heap::Blob), at) else {
        return Ok(None);
    };
    match read_locals_sig(alloc, blob) {
        Ok(locals) => Ok(Some(locals)),
        Err(SigFault::Bad { at: _ }) => Ok(None),
        Err(SigFault::Memory) => Err(AllocError),
    }
}

// The types of locals whose signature a token names, where it names one.
fn locals_at(
    alloc: Global,
    tables: &Tables,
    token: u32,
) -> Result<Option<Items<SigType>>, AllocError>
    ensures { IfOk result (λ locals. locals ≡ locals_at tables.now token) }
{
    if token / 0x100_0000 != u32::from(STAND_ALONE_SIGS) {
        return Ok(None);
    }
    locals_in(
        alloc,
        tables,
        some_row(tables, STAND_ALONE_SIGS, token % 0x100_0000),
    )
}

// A body with its locals, which has none where its token is 0.
fn whole_of(alloc: Global, tables: &Tables, body: Body) -> Result<Whole, BodyFault>
    ensures exact { Gives (λ whole. whole) result (whole_of tables.now body) }
    ensures body { IfOk result (λ whole. whole.body ≡ body) }
{
    let locals = if body.locals_token == 0 {
        Some(Items::new(alloc))
    } else {
        locals_at(alloc, tables, body.locals_token)?
    };
    match locals {
        Some(locals) => Ok(Whole { body, locals }),
        None => Err(BodyFault::Bad {
            kind: BodyKind::BadHeader,
            at: 8,
        }),
    }
}

// What stands for the body of a method that has none: no instructions.
fn no_body(alloc: Global) -> Whole
    ensures { result ≡ no_body }
{
    let body = Body {
        max_stack: 0,
        init_locals: false,
        locals_token: 0,
        code: Items::new(alloc),
        clauses: Items::new(alloc),
    };
    Whole {
        body,
        locals: Items::new(alloc),
    }
}

/// Where the body of a method stands, by the method's row: its address in memory, or 0 where it has none.
pub fn address_of(tables: &Tables, method: u32) -> u32
    requires { IsRow tables.now methods method }
    ensures { result ≡ cell tables.now methods method 0 }
{
    tables.row(METHODS, method).cells[0]
}

/// The body of a method, by its row.
pub fn whole_at(
    alloc: Global,
    tables: &Tables,
    image: &Image,
    method: u32,
) -> Result<Whole, BodyFault>
    requires { IsRow tables.now methods method }
    ensures exact { Gives (λ whole. whole) result (whole_at tables.now image.now method) }
    ensures formed { IfOk result (λ whole. cell tables.now methods method 0 ≢ 0 → IsFormed whole.body) }
{
    let rva = address_of(tables, method);
    if rva == 0 {
        return Ok(no_body(alloc));
    }
    let body = body_at(alloc, image, rva)?;
    whole_of(alloc, tables, body)
}
