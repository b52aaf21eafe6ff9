// Answers about an image.
ghost use Rattle.std.specs.Prelude.{◌<◌, ◌^◌, length};

use crate::pieces::Piece::{Count, Number, Text};
use crate::pieces::{put_fault, put_pieces};
use crate::question::Question;
use px_pe::{Image, PeKind, Span, read_pe};
use std::alloc::AllocError;

fn kind_text(kind: PeKind) -> &'static str {
    match kind {
        PeKind::NotPe => "NotPe",
        PeKind::Cut => "Cut",
        PeKind::NoCliHeader => "NoCliHeader",
        PeKind::BadSections => "BadSections",
        PeKind::MetadataOutside => "MetadataOutside",
    }
}

fn put_place(text: &mut String, place: Option<Span>) -> Result<(), AllocError> {
    match place {
        Some(Span { start, len }) => {
            put_pieces(
                text,
                &[Number(start), Text(", "), Number(len), Text(" bytes")],
            )
        }
        None => text.push_str("nowhere"),
    }
}

// Writes where the metadata is, and how many bytes the image has in all.
fn put_whole(text: &mut String, image: &Image) -> Result<(), AllocError> {
    text.push_str("metadata at ")?;
    put_place(text, Some(image.metadata()))?;
    put_pieces(text, &[Text(" of "), Count(image.bytes().len())])
}

fn put_of(text: &mut String, image: &Image, question: Question) -> Result<(), AllocError> {
    match question.word {
        "copy" => put_whole(text, image),
        "at" => put_place(text, image.at_rva(question.first, question.second)),
        "rest" => put_place(text, image.rest_at(question.first)),
        _ => text.push_str("no question"),
    }
}

/// Writes where the metadata is; or for `at ADDRESS LENGTH` where these addresses are in the file, and for `rest ADDRESS` what is left of its section.
pub fn put_answer(text: &mut String, bytes: &[u8], question: Question) -> Result<(), AllocError>
    requires { length bytes.now < 2 ^ 31 }
{
    match read_pe(bytes) {
        Ok(image) => put_of(text, &image, question),
        Err(fault) => put_fault(text, kind_text(fault.kind), fault.at),
    }
}
