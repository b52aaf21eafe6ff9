// Answers about the types and members of metadata.
ghost use Rattle.std.specs.Prelude.{◌<◌, ◌^◌, length};

use crate::members::{put_field, put_member, put_meta_method, put_meta_type, put_names, put_spec};
use crate::pieces::Piece::{Count, Number, Text, Token};
use crate::pieces::{put_pieces, token_or_none};
use crate::question::Question;
use crate::tables;
use px_meta::{METHODS, Meta, MetaFault, MetaKind, resolve};
use px_tables::{Tables, read_tables};
use std::alloc::{AllocError, Global};

fn kind_text(kind: MetaKind) -> &'static str {
    match kind {
        MetaKind::BadList => "BadList",
        MetaKind::BadToken => "BadToken",
        MetaKind::CycleOfBases => "CycleOfBases",
    }
}

fn put_fault(text: &mut String, fault: MetaFault) -> Result<(), AllocError> {
    match fault {
        MetaFault::Memory => text.push_str("no memory"),
        MetaFault::Bad { kind, token } => {
            let kind = kind_text(kind);
            put_pieces(
                text,
                &[Text("fault "), Text(kind), Text(" at "), Token(token)],
            )
        }
    }
}

// Writes how many types, fields and methods there are.
fn put_counts(text: &mut String, meta: &Meta) -> Result<(), AllocError> {
    let pieces = [
        Count(meta.types().len()),
        Text(" types, "),
        Count(meta.fields().len()),
        Text(" fields, "),
        Count(meta.methods().len()),
        Text(" methods"),
    ];
    put_pieces(text, &pieces)
}

// Writes the counts, and which rows of methods override which.
fn put_whole(text: &mut String, meta: &Meta) -> Result<(), AllocError> {
    put_counts(text, meta)?;
    for n in 0..meta.tables().rows(METHODS) {
        if let Some(other) = meta.overridden_row(n + 1) {
            put_pieces(
                text,
                &[
                    Text(", "),
                    Number(n + 1),
                    Text(" overrides "),
                    Number(other),
                ],
            )?;
        }
    }
    Ok(())
}

// Answers a question about a row, by its number.
fn put_of_row(text: &mut String, meta: &Meta, question: Question) -> Result<(), AllocError> {
    let place = (question.first as usize).wrapping_sub(1);
    match question.word {
        "type" => put_meta_type(text, meta.types().get(place)),
        "field" => put_field(text, meta.fields().get(place)),
        "method" => put_meta_method(text, meta.methods().get(place)),
        _ => tables::put_of(text, meta.tables(), question),
    }
}

fn put_of(text: &mut String, meta: &Meta, question: Question) -> Result<(), AllocError> {
    let token = question.first;
    match question.word {
        "copy" => put_whole(text, meta),
        "name" => put_names(text, meta.type_name(token)),
        "member" => put_member(text, meta.member(token)),
        "spec" => put_spec(text, meta.spec(token)),
        "overridden" => put_pieces(text, &[token_or_none(meta.overridden(token))]),
        _ => put_of_row(text, meta, question),
    }
}

fn put_resolved(
    alloc: Global,
    text: &mut String,
    tables: Tables,
    question: Question,
) -> Result<(), AllocError> {
    match resolve(alloc, tables) {
        Ok(meta) => put_of(text, &meta, question),
        Err(fault) => put_fault(text, fault),
    }
}

/// Writes how many types and members there are and which methods override which; or answers a question: `type NUMBER`, `field NUMBER` or `method NUMBER`
/// for a row, `name TOKEN`, `member TOKEN`, `spec TOKEN` or `overridden TOKEN` for what a token names, or one about the tables.
pub fn put_answer(
    alloc: Global,
    text: &mut String,
    bytes: &[u8],
    question: Question,
) -> Result<(), AllocError>
    requires { length bytes.now < 2 ^ 31 }
{
    match read_tables(bytes) {
        Ok(tables) => put_resolved(alloc, text, tables, question),
        Err(fault) => tables::put_table_fault(text, fault),
    }
}
