// Text that is written piece by piece.
ghost use Rattle.std.specs.Prelude.{◌≡◌, ◌<◌};
ghost use Rattle.px_io.specs.Pieces.{hex_digit, byte_text, name_text, piece_text, pieces_text};
ghost use Rattle.px_io.specs.Puts.{Puts};

use crate::{Sink, Stopped, put_all};
use itoa::Buffer;

/// A piece of a text.
#[derive(Clone, Copy)]
pub enum Piece<'a> {
    /// A text as it stands.
    Text(&'a str),
    /// A number in decimal.
    Number(u32),
    /// A count in decimal.
    Count(u64),
    /// A signed number in decimal, with `-` before a negative one.
    Signed(i128),
    /// A name: each byte outside 0x21 to 0x7E, and `%`, stands as `%` and two capital hexadecimal digits.
    Name(&'a [u8]),
}

/// Writes the pieces one after another. It needs no memory.
/// At `Stopped` a proper prefix of their text was written, and the device had a fault.
#[tactic(auto, using(crate::proofs::Piecewise::writing_each))]
pub fn put_pieces<O: Sink>(out: &mut O, pieces: &[Piece]) -> Result<(), Stopped>
    ensures { Puts O.written O.faults out.old (pieces_text pieces.now) out.new result }
{
    for piece in pieces {
        put_piece(out, *piece)?;
    }
    Ok(())
}

// Writes one piece.
fn put_piece<O: Sink>(out: &mut O, piece: Piece) -> Result<(), Stopped>
    ensures { Puts O.written O.faults out.old (piece_text piece.entry) out.new result }
{
    let mut buffer = Buffer::new();
    match piece {
        Piece::Text(text) => put_all(out, text.as_bytes()),
        Piece::Number(n) => put_all(out, buffer.format(n).as_bytes()),
        Piece::Count(n) => put_all(out, buffer.format(n).as_bytes()),
        Piece::Signed(n) => put_all(out, buffer.format(n).as_bytes()),
        Piece::Name(name) => put_name(out, name),
    }
}

// Writes a name with its odd bytes escaped.
#[tactic(auto, using(crate::proofs::Piecewise::writing_each))]
fn put_name<O: Sink>(out: &mut O, name: &[u8]) -> Result<(), Stopped>
    ensures { Puts O.written O.faults out.old (name_text name.now) out.new result }
{
    for byte in name {
        put_byte(out, *byte)?;
    }
    Ok(())
}

// Writes a byte of a name.
fn put_byte<O: Sink>(out: &mut O, byte: u8) -> Result<(), Stopped>
    ensures { Puts O.written O.faults out.old (byte_text byte) out.new result }
{
    match byte {
        0..=0x20 | b'%' | 0x7F.. => put_all(
            out,
            &[b'%', hex_digit(byte / 16), hex_digit(byte % 16)],
        ),
        _ => put_all(out, &[byte]),
    }
}

// The capital hexadecimal digit of a number below 16.
fn hex_digit(n: u8) -> u8
    requires { n < 16 }
    ensures { result ≡ hex_digit n }
{
    if n < 10 { b'0' + n } else { b'A' + (n - 10) }
}
