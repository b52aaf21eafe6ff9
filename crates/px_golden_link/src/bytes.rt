// Bytes as text.

use px_cases::Case;
use px_program_text::Out;

/// Bytes, at most 32 in a line after a word.
pub fn put_bytes(out: &mut Out, word: &str, bytes: &[u8]) {
    for line in bytes.chunks(32) {
        out.text(word);
        put_line(out, line);
    }
}

// The rest of a line with these bytes.
fn put_line(out: &mut Out, bytes: &[u8]) {
    for byte in bytes {
        out.hex(u64::from(*byte), 2);
    }
    out.text("\n");
}

// A number of a word.
fn number_of(word: Option<&str>) -> usize {
    match word {
        Some(word) => word.parse::<usize>().unwrap_or(0),
        None => 0,
    }
}

// The bytes of a file at a place, so many.
fn put_part(out: &mut Out, file: &[u8], place: usize, count: usize) {
    out.text("at");
    out.number(place as u64);
    out.text(":");
    put_line(
        out,
        file.get(place..).unwrap_or(&[]).get(..count).unwrap_or(&[]),
    );
}

/// The bytes of a file that a case asks for, each by a line `bytes PLACE COUNT`.
pub fn put_asked(out: &mut Out, case: &Case, file: &[u8]) {
    for line in case.given().lines() {
        if let Some(("bytes", asked)) = line.split_once(' ') {
            let mut words = asked.split_whitespace();
            let place = number_of(words.next());
            put_part(out, file, place, number_of(words.next()));
        }
    }
}
