// The root of the metadata and its streams: Partition II, 24.2.1 and 24.2.2.
ghost use Rattle.std.specs.Prelude.{◌≡◌, ◌+◌, ◌*◌, ◌==◌, ◌≤◌, ◌<◌, ◌^◌, [], length, IfOk, MatchResult, Ok, Err};
ghost use Rattle.std.specs.List.{position, position_or_len};
ghost use Rattle.px_tables.specs.Streams.{behind, found_in, found_of, name_at, needed, or_earlier, or_empty, padded, root_of, stream_at, streams_of, with_stream};

use crate::fault::{TableFault, TableKind};
use crate::part::Part;
use std::marker::Model;

const SIGNATURE: u32 = 0x424A5342;

/// What the root says: where the first stream's header stands, and how many there are.
#[derive(Clone, Copy)]
pub struct Root {
    pub first: usize,
    pub count: u16,
}

/// The first stream of each name that is read.
#[derive(Drop)]
pub struct Found<'a> {
    tables: Option<Part<'a>>,
    strings: Option<Part<'a>>,
    user_strings: Option<Part<'a>>,
    guid: Option<Part<'a>>,
    blob: Option<Part<'a>>,
}

/// The streams that are read; those of user strings and GUIDs are empty where they are missing.
#[derive(Drop)]
pub struct Streams<'a> {
    pub tables: Part<'a>,
    pub strings: Part<'a>,
    pub user_strings: Part<'a>,
    pub guid: Part<'a>,
    pub blob: Part<'a>,
}

// A stream: its name, and the part of the metadata that it is.
#[derive(Drop)]
struct Stream<'a> {
    name: &'a [u8],
    part: Part<'a>,
}

impl<'a> Model for Stream<'a> {
    ghost use Rattle.px_tables.specs.Streams.{Stream};

    ghost Value = { Stream };

    ghost view = { λ s. record { name = s.name.now; part = s.part } };
}

// A size rounded up to a multiple of 4.
fn padded(size: usize) -> usize
    requires { size < 2 ^ 33 }
    ensures padded { result ≡ padded size }
    ensures few { result ≤ size + 3 }
{
    4 * ((size + 3) / 4)
}

/// The root that the metadata begins with.
#[tactic(auto, unfolding(crate::specs::Streams::root_of))]
pub fn root_of(metadata: &[u8]) -> Result<Root, TableFault>
    requires { length metadata.now < 2 ^ 31 }
    ensures exact { result ≡ root_of metadata.now }
    ensures inside { IfOk result (λ root. root.first ≤ length metadata.now) }
{
    let whole = Part::whole(metadata);
    if whole.read_u32(0)? != SIGNATURE {
        return Err(TableKind::BadRoot.at(0));
    }
    let size = padded(whole.read_u32(12)? as usize);
    whole.read(16, size)?;
    whole.read_u16(16 + size)?;
    let count = whole.read_u16(16 + size + 2)?;
    Ok(Root {
        first: 16 + size + 4,
        count,
    })
}

// Where the first zero stands.
fn first_zero(bytes: &[u8]) -> Option<usize>
    ensures { result ≡ position (λ byte. byte == 0) bytes.now }
{
    bytes.iter().position(|byte| *byte == 0)
}

// How many bytes stand before the first zero, or how many there are.
fn len_before_zero(bytes: &[u8]) -> usize
    ensures len { result ≡ position_or_len (λ byte. byte == 0) bytes.now }
    ensures inside { result ≤ length bytes.now }
{
    first_zero(bytes).unwrap_or(bytes.len())
}

// The name at a place, up to its zero.
#[tactic(auto, unfolding(crate::specs::Streams::name_at))]
fn name_at(metadata: &[u8], at: usize) -> Result<&[u8], TableFault>
    requires short { length metadata.now < 2 ^ 31 }
    requires near { at ≤ length metadata.now }
    ensures exact { MatchResult result (λ name. name_at metadata.now at ≡ Ok name.now) (λ fault. name_at metadata.now at ≡ Err fault) }
    ensures inside { IfOk result (λ name. at + padded (length name.now + 1) ≤ length metadata.now) }
{
    let rest = &metadata[at..];
    let len = len_before_zero(rest);
    Part::whole(metadata).read(at, padded(len + 1))?;
    Ok(&rest[..len])
}

// The stream whose header stands at a place.
#[tactic(auto, unfolding(crate::specs::Streams::stream_at))]
fn stream_at<'a>(metadata: &'a [u8], at: usize) -> Result<Stream<'a>, TableFault>
    requires short { length metadata.now < 2 ^ 31 }
    requires near { at ≤ length metadata.now }
    ensures exact { result ≡ stream_at metadata.now at }
    ensures inside { IfOk result (λ stream. behind at stream ≤ length metadata.now) }
{
    let whole = Part::whole(metadata);
    let offset = whole.read_u32(at)? as usize;
    let size = whole.read_u32(at + 4)? as usize;
    let name = name_at(metadata, at + 8)?;
    if metadata.len() < offset + size {
        return Err(TableKind::Cut.at(at));
    }
    Ok(Stream {
        name,
        part: whole.part(offset, size),
    })
}

impl<'a> Found<'a> {
    // No stream yet.
    #[tactic(auto, unfolding(crate::specs::Streams::found_of))]
    fn none() -> Found<'a>
        ensures { result ≡ found_of [] }
    {
        Found {
            tables: None,
            strings: None,
            user_strings: None,
            guid: None,
            blob: None,
        }
    }

    // Adds a further stream, which counts where none of its name was there before.
    #[tactic(auto, unfolding(crate::specs::Streams::with_stream))]
    fn add(&mut self, stream: &Stream<'a>)
        ensures { self.new ≡ with_stream self.old stream.now }
    {
        self.tables = stream.or_earlier(self.tables.take(), b"#~");
        self.strings = stream.or_earlier(self.strings.take(), b"#Strings");
        self.user_strings = stream.or_earlier(self.user_strings.take(), b"#US");
        self.guid = stream.or_earlier(self.guid.take(), b"#GUID");
        self.blob = stream.or_earlier(self.blob.take(), b"#Blob");
    }

    /// The first stream of each name. The headers are read in order.
    #[tactic(auto, unfolding(crate::specs::Streams::found_in))]
    pub fn read(metadata: &'a [u8], root: Root) -> Result<Found<'a>, TableFault>
        requires short { length metadata.now < 2 ^ 31 }
        requires near { root.first ≤ length metadata.now }
        ensures { result ≡ found_in metadata.now root }
    {
        let mut found = Found::none();
        let mut at = root.first;
        for _header in 0..root.count {
            let stream = stream_at(metadata, at)?;
            at += 8 + padded(stream.name.len() + 1);
            found.add(&stream);
        }
        Ok(found)
    }

    /// The streams, of which three must be there; else the fault is at the first header.
    #[tactic(auto, unfolding(crate::specs::Streams::streams_of))]
    pub fn streams(self, first: usize) -> Result<Streams<'a>, TableFault>
        requires { first < 2 ^ 32 }
        ensures { result ≡ streams_of self.entry first }
    {
        let missing = TableKind::NoStream.at(first);
        let Found {
            tables,
            strings,
            user_strings,
            guid,
            blob,
        } = self;
        Ok(Streams {
            tables: tables.ok_or(missing)?,
            strings: strings.ok_or(missing)?,
            blob: blob.ok_or(missing)?,
            user_strings: or_empty(user_strings),
            guid: or_empty(guid),
        })
    }
}

// A stream that may be missing, and is then empty.
fn or_empty(stream: Option<Part<'_>>) -> Part<'_>
    ensures { result ≡ or_empty stream.entry }
{
    stream.unwrap_or(Part::whole(&[]))
}

impl<'a> Stream<'a> {
    // The stream that was found earlier, else this one where it has the name.
    fn or_earlier(&self, found: Option<Part<'a>>, name: &[u8]) -> Option<Part<'a>>
        ensures { result ≡ or_earlier found.entry self.now name.now }
    {
        match found {
            Some(part) => Some(part),
            None if self.name == name => Some(self.part.again()),
            None => None,
        }
    }
}
