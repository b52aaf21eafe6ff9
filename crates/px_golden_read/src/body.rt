// What is read of a method's body.
ghost use Rattle.std.specs.Prelude.{◌<◌, ◌^◌, length};

use crate::pieces::Piece::{Count, Number, Text, Token};
use crate::pieces::{put_fault, put_pieces};
use px_code::{Body, BodyFault, BodyKind, read_body};
use std::alloc::{AllocError, Global};

fn kind_text(kind: BodyKind) -> &'static str {
    match kind {
        BodyKind::BadHeader => "BadHeader",
        BodyKind::Cut => "Cut",
        BodyKind::BadOpcode => "BadOpcode",
        BodyKind::BadTarget => "BadTarget",
        BodyKind::BadClause => "BadClause",
    }
}

// Writes what the header says, and how many instructions and clauses there are.
fn put_of(text: &mut String, body: &Body) -> Result<(), AllocError> {
    let pieces = [
        Text("stack "),
        Number(u32::from(body.max_stack)),
        Text(", locals "),
        Token(body.locals_token),
        Text(if body.init_locals { " zeroed" } else { "" }),
        Text(", "),
        Count(body.code.len()),
        Text(" instructions, "),
        Count(body.clauses.len()),
        Text(" clauses"),
    ];
    put_pieces(text, &pieces)
}

/// Writes what is read of the body that the bytes begin with.
pub fn put_body(alloc: Global, text: &mut String, bytes: &[u8]) -> Result<(), AllocError>
    requires { length bytes.now < 2 ^ 31 }
{
    match read_body(alloc, bytes) {
        Ok(body) => put_of(text, &body),
        Err(BodyFault::Memory) => text.push_str("no memory"),
        Err(BodyFault::Bad { kind, at }) => put_fault(text, kind_text(kind), at),
    }
}
