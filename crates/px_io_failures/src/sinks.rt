// What sinks hold after a text that was written, cut or stopped.
use px_io::{MemSink, Piece, Sink, StdSink, Stopped, put_all, put_pieces};
use std::alloc::Global;
use std::process::Abort;
use std::test::Fail;

// Writes `size 12 a%20b` piece by piece.
fn put_line<O: Sink>(out: &mut O) -> Result<(), Stopped> {
    put_pieces(
        out,
        &[
            Piece::Text("size "),
            Piece::Number(12),
            Piece::Text(" "),
            Piece::Name(b"a b"),
        ],
    )
}

const LINE: &[u8] = b"size 12 a%20b";

// That a piece has its text.
fn check_piece(rt: &impl Abort, alloc: Global, piece: Piece, want: &str) -> Result<(), Fail> {
    let mut sink = MemSink::new(alloc, 100, Vec::new(alloc))?;
    let answer = put_pieces(&mut sink, &[piece]);
    assert!(rt; answer.is_ok() && sink.bytes() == want.as_bytes(), "{want}");
    Ok(())
}

#[test]
fn pieces_have_their_texts(rt: HostRuntime) -> Result<(), Fail> {
    let cases = [
        (Piece::Text("a b%\n"), "a b%\n"),
        (Piece::Number(4294967295), "4294967295"),
        (Piece::Count(18446744073709551615), "18446744073709551615"),
        (Piece::Signed(0), "0"),
        (Piece::Signed(-2147483648), "-2147483648"),
        (Piece::Signed(9223372036854775807), "9223372036854775807"),
        (Piece::Name(b"A.b::c!~"), "A.b::c!~"),
        (Piece::Name(b"a b%"), "a%20b%25"),
        (Piece::Name(&[0, 0x1F, 0x7F, 0xFF]), "%00%1F%7F%FF"),
        (Piece::Name("é".as_bytes()), "%C3%A9"),
    ];
    for (piece, want) in cases {
        check_piece(&rt, rt.alloc(), piece, want)?;
    }
    Ok(())
}

// That a sink of so many bytes takes the first of the line, and fails once where that isn't all.
fn check_room(rt: &impl Abort, alloc: Global, room: u32) -> Result<(), Fail> {
    let mut sink = MemSink::new(alloc, room, Vec::new(alloc))?;
    let is_written = put_line(&mut sink).is_ok();
    let taken = LINE.len().min(room as usize);
    let faults = if taken == LINE.len() { 0 } else { 1 };
    assert!(rt;
        sink.bytes() == &LINE[..taken] && is_written == (faults == 0) && sink.faults() == faults,
        "room {room}"
    );
    Ok(())
}

#[test]
fn a_full_sink_has_a_prefix(rt: HostRuntime) -> Result<(), Fail> {
    for room in 0..15u32 {
        check_room(&rt, rt.alloc(), room)?;
    }
    Ok(())
}

// That a sink whose write of this number fails has what was written before.
fn check_failing(rt: &impl Abort, alloc: Global, failing: u32, want: &str) -> Result<(), Fail> {
    let mut sink = MemSink::new(alloc, 100, [failing].to_vec(alloc)?)?;
    let is_stopped = put_line(&mut sink).is_err();
    assert!(rt;
        is_stopped && sink.bytes() == want.as_bytes() && sink.faults() == 1,
        "write {failing}"
    );
    Ok(())
}

#[test]
fn a_write_that_fails_stops_the_text(rt: HostRuntime) -> Result<(), Fail> {
    let cases = [
        (0, ""),
        (1, "size "),
        (2, "size 12"),
        (3, "size 12 "),
        (4, "size 12 a"),
        (5, "size 12 a%20"),
    ];
    for (failing, want) in cases {
        check_failing(&rt, rt.alloc(), failing, want)?;
    }
    Ok(())
}

#[test]
fn the_standard_output_takes_a_text(rt: HostRuntime) {
    let mut sink = StdSink::new(&rt);
    let nothing = put_all(&mut sink, b"");
    let line = put_line(&mut sink);
    assert!(rt; nothing.is_ok() && line.is_ok());
}
