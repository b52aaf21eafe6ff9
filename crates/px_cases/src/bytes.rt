// Files that cases are about.
use anyhow::{Context, bail};
use std::alloc::Global;
use std::fs;
use std::rt::Files;

// The number of a digit of base 16.
fn digit(letter: u8) -> Option<u8> {
    match letter {
        b'0'..=b'9' => Some(letter - b'0'),
        b'a'..=b'f' => Some(letter - b'a' + 10),
        b'A'..=b'F' => Some(letter - b'A' + 10),
        _ => None,
    }
}

// The byte that two digits write.
fn byte_of(digits: &[u8]) -> Option<u8> {
    match digits {
        [high, low] => Some(digit(*high)?.wrapping_mul(16) | digit(*low)?),
        _ => None,
    }
}

// Adds the bytes of digits.
fn add_digits(bytes: &mut Vec<u8>, digits: &str) -> anyhow::Result<()> {
    for pair in digits.as_bytes().chunks(2) {
        let Some(byte) = byte_of(pair) else {
            bail!("{digits} is no list of bytes");
        };
        bytes.push(byte)?;
    }
    Ok(())
}

// Adds the bytes of a word: digits, or `DIGITS*N` for so many times the same.
fn add_word(bytes: &mut Vec<u8>, word: &str) -> anyhow::Result<()> {
    let Some((digits, times)) = word.split_once('*') else {
        return add_digits(bytes, word);
    };
    for _ in 0..number_of(times)? {
        add_digits(bytes, digits)?;
    }
    Ok(())
}

/// The bytes that are written in base 16, two digits each, with or without spaces between them. `1D08*3` stands for `1D08` three times.
///
/// # Errors
/// Digits that are no byte, and want of memory.
pub fn bytes_of(alloc: Global, text: &str) -> anyhow::Result<Vec<u8>> {
    let mut bytes = Vec::new(alloc);
    for word in text.split_whitespace() {
        add_word(&mut bytes, word)?;
    }
    Ok(bytes)
}

fn number_of(text: &str) -> anyhow::Result<usize> {
    Ok(text.parse::<usize>().context("a number is wanted")?)
}

// Puts the bytes at a place, over those that are there.
fn put_at(bytes: &mut [u8], place: usize, new: &[u8]) -> anyhow::Result<()> {
    let Some(rest) = bytes.get_mut(place..) else {
        bail!("{place} is past the end");
    };
    if rest.len() < new.len() {
        bail!("bytes at {place} pass the end");
    }
    for (byte, other) in rest.iter_mut().zip(new) {
        *byte = *other;
    }
    Ok(())
}

// Changes bytes as a word says: `cut=N` keeps the first N, `zeros=N` adds so many zeros, and `PLACE=DIGITS` puts bytes at a place.
fn change(alloc: Global, bytes: &mut Vec<u8>, word: &str) -> anyhow::Result<()> {
    match word.split_once('=') {
        Some(("cut", count)) => bytes.truncate(number_of(count)?),
        Some(("zeros", count)) => {
            bytes.resize(bytes.len().saturating_add(number_of(count)?), 0)?;
        }
        Some((place, digits)) => put_at(
            bytes.as_mut_slice(),
            number_of(place)?,
            bytes_of(alloc, digits)?.as_slice(),
        )?,
        None => bail!("{word} is no change"),
    }
    Ok(())
}

/// The bytes that a case gives: `hex` with bytes in base 16; or `from`, the path of a file, and changes of its bytes, in order:
/// `cut=N` keeps the first N, `zeros=N` adds so many zeros, and `PLACE=DIGITS` puts bytes at a place.
///
/// # Errors
/// A text of another form, a file that can't be read, and want of memory.
pub fn file_of(rt: &(impl Files + AllocGlobal), text: &str) -> anyhow::Result<Vec<u8>> {
    let (kind, rest) = text.split_once(' ').unwrap_or((text, ""));
    match kind {
        "hex" => bytes_of(rt.alloc(), rest),
        "from" => changed_file(rt, rest),
        _ => bail!("{kind} is neither hex nor from"),
    }
}

fn changed_file(rt: &(impl Files + AllocGlobal), text: &str) -> anyhow::Result<Vec<u8>> {
    let (path, changes) = text.split_once(' ').unwrap_or((text, ""));
    let mut bytes = fs::read(rt, path)?;
    for word in changes.split_whitespace() {
        change(rt.alloc(), &mut bytes, word)?;
    }
    Ok(bytes)
}
