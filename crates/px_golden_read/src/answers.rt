// What a case comes to: a line for each copy of its file and each question.
ghost use Rattle.std.specs.Prelude.{◌<◌, ◌^◌, length};

use crate::pieces::Piece::Text;
use crate::pieces::put_pieces;
use crate::question::Question;
use crate::{body, image, metadata, signature, tables};
use px_cases::{Case, file_of};
use std::alloc::{AllocError, Global};

// The bytes that a file has with further changes.
fn changed(rt: &HostRuntime, file: &str, changes: &str) -> anyhow::Result<Vec<u8>> {
    let text = format!(in rt.alloc(); "{file} {changes}")?;
    file_of(rt, text.as_str())
}

// The bytes, up to as many as can be read.
fn front(bytes: &[u8]) -> &[u8]
    ensures { length result.now < 2 ^ 31 }
{
    &bytes[..bytes.len().min((1 << 31) - 1)]
}

// Writes the answer to a question about the bytes.
fn put_answer(
    alloc: Global,
    text: &mut String,
    kind: &str,
    bytes: &[u8],
    question: Question,
) -> Result<(), AllocError>
    requires { length bytes.now < 2 ^ 31 }
{
    match kind {
        "image" => image::put_answer(text, bytes, question),
        "tables" => tables::put_answer(text, bytes, question),
        "metadata" => metadata::put_answer(alloc, text, bytes, question),
        "body" => body::put_body(alloc, text, bytes),
        "method" => signature::put_method_of(alloc, text, bytes),
        "field" => signature::put_field_of(alloc, text, bytes),
        "locals" => signature::put_locals_of(alloc, text, bytes),
        "type" => signature::put_type_of(alloc, text, bytes),
        _ => text.push_str("nothing to read"),
    }
}

// Writes the answer to a question, which a copy and its changes may be.
fn put_line(rt: &HostRuntime, text: &mut String, case: &Case, line: &str) -> anyhow::Result<()> {
    let (question, changes) = line.split_once(':').unwrap_or((line, ""));
    put_pieces(text, &[Text(question), Text(": ")])?;
    let bytes = changed(rt, case.value("file").unwrap_or(""), changes)?;
    let kind = case.value("read").unwrap_or("");
    Ok(put_answer(
        rt.alloc(),
        text,
        kind,
        front(bytes.as_slice()),
        Question::of(question),
    )?)
}

/// Writes what the case comes to: a line for each one after the two that say of which file what is read.
///
/// # Errors
/// A file that can't be read or changed, and want of memory.
pub fn put_answers(rt: &HostRuntime, text: &mut String, case: &Case) -> anyhow::Result<()> {
    for line in case.given().lines().skip(2) {
        put_line(rt, text, case, line)?;
        text.push_str("\n")?;
    }
    Ok(())
}
