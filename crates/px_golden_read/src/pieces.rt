// Text of answers, piece by piece.
use crate::pieces::Piece::{Number, Text};
use std::alloc::AllocError;

/// A piece of an answer.
#[derive(Clone, Copy)]
pub enum Piece<'a> {
    Text(&'a str),
    /// A number of base 10.
    Number(u32),
    /// How many there are of something.
    Count(usize),
    /// A number of base 16.
    Hex(u32),
    /// A token: eight digits of base 16.
    Token(u32),
}

/// A number, or that there is none.
pub fn number_or_none(number: Option<u32>) -> Piece<'static> {
    match number {
        Some(number) => Piece::Number(number),
        None => Piece::Text("none"),
    }
}

/// A token, or that there is none.
pub fn token_or_none(token: Option<u32>) -> Piece<'static> {
    match token {
        Some(token) => Piece::Token(token),
        None => Piece::Text("none"),
    }
}

fn put_number(text: &mut String, number: u32) -> Result<(), AllocError> {
    write!(text, "{number}")
}

fn put_count(text: &mut String, count: usize) -> Result<(), AllocError> {
    write!(text, "{count}")
}

fn put_hex(text: &mut String, number: u32) -> Result<(), AllocError> {
    write!(text, "{number:02X}")
}

fn put_token(text: &mut String, token: u32) -> Result<(), AllocError> {
    write!(text, "{token:08X}")
}

fn put_piece(text: &mut String, piece: Piece) -> Result<(), AllocError> {
    match piece {
        Piece::Text(words) => text.push_str(words),
        Piece::Number(number) => put_number(text, number),
        Piece::Count(count) => put_count(text, count),
        Piece::Hex(number) => put_hex(text, number),
        Piece::Token(token) => put_token(text, token),
    }
}

/// Writes pieces one after the other.
pub fn put_pieces(text: &mut String, pieces: &[Piece]) -> Result<(), AllocError> {
    for piece in pieces {
        put_piece(text, *piece)?;
    }
    Ok(())
}

/// Writes a list of numbers.
pub fn put_list(text: &mut String, numbers: &[u32]) -> Result<(), AllocError> {
    write!(text, "{numbers:?}")
}

/// Writes a fault of a kind at a place.
pub fn put_fault(text: &mut String, kind: &str, at: u32) -> Result<(), AllocError> {
    put_pieces(
        text,
        &[Text("fault "), Text(kind), Text(" at "), Number(at)],
    )
}
