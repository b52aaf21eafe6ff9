// The top call.
ghost use Rattle.std.specs.Prelude.{◌≡◌, ◌≢◌, ◌<◌, ◌≤◌, ◌^◌, ℕ, List, length, IfOk, Some};
ghost use Rattle.px_io.specs.Counts.{Rose};
ghost use Rattle.px_command.specs.Says.{Fetching, IsContent, IsSayable, Says, Wrote, WroteFront, exit_status, fetching, input_of, reply_status, reply_text, status_of};
ghost use Rattle.px_command_words.specs.Words.{AsksFor, TakesIntegers, misfit};

use crate::put::put_reply;
use px_command_answers::{Answer, answer_of};
use px_command_words::{Asked, Target, read_words};
use px_io::{FetchFault, Fetched, Shelf, Sink, Stopped, Word};
use px_tests::Input;
use std::alloc::{AllocError, Global};

/// How a call ended.
#[derive(Clone, Copy, PartialEq, Eq)]
pub enum Status {
    /// The domain is exhausted, and the report is written.
    Done,
    /// The words are not of the form.
    Usage,
    /// The file, the method, the domain or the length of the file is refused.
    Refused,
    /// The file isn't there.
    NoFile,
    /// The file couldn't be read.
    ReadFault,
    /// The text couldn't be written whole.
    WriteFault,
    /// There was no memory, and nothing was written.
    NoMemory,
}

impl Status {
    /// The exit status of the program.
    pub fn number(self) -> u8
        ensures { result ≡ exit_status self }
    {
        match self {
            Status::Done => 0,
            Status::Usage => 3,
            Status::Refused => 4,
            Status::NoFile => 5,
            Status::ReadFault => 6,
            Status::WriteFault => 7,
            Status::NoMemory => 8,
        }
    }
}

/// What is said, before anything is written.
#[derive(Drop)]
pub enum Reply<'a> {
    /// The place of the first word that doesn't fit the form.
    Misfit(u64),
    /// No file has this name.
    NoFile(&'a str),
    /// The file has more bytes than are read.
    TooLong,
    /// The file of this name couldn't be read.
    ReadFault(&'a str),
    /// What the bytes of the file gave.
    Answered(Input, Answer),
    /// There was no memory.
    NoMemory,
}

// The status of an answer.
fn status_of(answer: &Answer) -> Status
    ensures { result ≡ status_of answer.now }
{
    match answer {
        Answer::Found(_, _) => Status::Done,
        Answer::Refused(_) => Status::Refused,
        Answer::Memory => Status::NoMemory,
    }
}

impl<'a> Reply<'a> {
    // The status that stands for the reply.
    fn status(&self) -> Status
        ensures { result ≡ reply_status self.now }
    {
        match self {
            Reply::Misfit(_) => Status::Usage,
            Reply::NoFile(_) => Status::NoFile,
            Reply::TooLong => Status::Refused,
            Reply::ReadFault(_) => Status::ReadFault,
            Reply::Answered(_, answer) => status_of(answer),
            Reply::NoMemory => Status::NoMemory,
        }
    }
}

// The most bytes of a file that are read.
const FILE_LIMIT: u32 = 16777216;

// What a report tells of its input.
fn input_of(alloc: Global, target: Target) -> Result<Input, AllocError>
    ensures { IfOk result (λ input. input ≡ input_of target.entry) }
{
    match target {
        Target::Raw(params, _) => Ok(Input::Raw(Word::new(alloc, params)?)),
        Target::Method(name) => Ok(Input::Method(Word::new(alloc, name)?)),
    }
}

// What the bytes of the file give.
fn answered<'a>(alloc: Global, asked: &Asked<'a>, bytes: &[u8]) -> Reply<'a>
    requires bytes { length bytes.now ≤ FILE_LIMIT }
    requires text { length asked.now.text.now < 2 ^ 32 }
    requires integers { TakesIntegers asked.now.target }
    ensures says { (words : List (List ℕ)) (seen : Fetching) → AsksFor words asked.now.file.now asked.now.target asked.now.text.now → IsContent seen.files asked.now.file.now bytes.now → Says words seen (reply_status result) (reply_text result) }
    ensures sayable { IsSayable result }
{
    match input_of(alloc, asked.target) {
        Ok(input) => {
            let answer = answer_of(alloc, bytes, asked.target, asked.text);
            Reply::Answered(input, answer)
        }
        Err(_) => Reply::NoMemory,
    }
}

// What the file that the words ask for gives.
fn fetched<'a, S: Shelf>(alloc: Global, asked: &Asked<'a>, shelf: &mut S) -> Reply<'a>
    requires text { length asked.now.text.now < 2 ^ 32 }
    requires integers { TakesIntegers asked.now.target }
    ensures says { (words : List (List ℕ)) → AsksFor words asked.now.file.now asked.now.target asked.now.text.now → Says words (fetching (S.files shelf.old) (S.misses shelf.old) (S.misses shelf.new) (S.faults shelf.old) (S.faults shelf.new)) (reply_status result) (reply_text result) }
    ensures sayable { IsSayable result }
{
    match shelf.fetch(alloc, asked.file, FILE_LIMIT) {
        Ok(Fetched::Bytes(bytes)) => answered(alloc, asked, bytes.as_slice()),
        Ok(Fetched::Absent) => Reply::NoFile(asked.file),
        Ok(Fetched::TooLong) => Reply::TooLong,
        Err(FetchFault::Memory) => Reply::NoMemory,
        Err(FetchFault::Failed) => Reply::ReadFault(asked.file),
    }
}

// What is said to the words.
fn reply_to<'a, S: Shelf>(alloc: Global, words: &'a [Word], shelf: &mut S) -> Reply<'a>
    ensures says { Says words.now (fetching (S.files shelf.old) (S.misses shelf.old) (S.misses shelf.new) (S.faults shelf.old) (S.faults shelf.new)) (reply_status result) (reply_text result) }
    ensures sayable { IsSayable result }
{
    match read_words(words) {
        Ok(asked) => fetched(alloc, &asked, shelf),
        Err(place) => Reply::Misfit(place as u64),
    }
}

/// Does what the words ask for. It always returns.
pub fn pex_one<S: Shelf, O: Sink>(
    alloc: Global,
    words: &[Word],
    shelf: &mut S,
    out: &mut O,
) -> Status
    // Each status but a failed write comes by its cause, and what was written is its text.
    ensures says { result ≢ Status.WriteFault → Wrote words.now (fetching (S.files shelf.old) (S.misses shelf.old) (S.misses shelf.new) (S.faults shelf.old) (S.faults shelf.new)) result (O.written out.old) (O.written out.new) }

    // A failed write is one of the sink's, and left a proper prefix of a text that another status writes.
    ensures stopped { result ≡ Status.WriteFault → WroteFront words.now (fetching (S.files shelf.old) (S.misses shelf.old) (S.misses shelf.new) (S.faults shelf.old) (S.faults shelf.new)) (O.written out.old) (O.written out.new) }
    ensures write_fault { result ≡ Status.WriteFault → Rose (O.faults out.old) (O.faults out.new) }

    // Want of memory leaves what was written as it was.
    ensures memory { result ≡ Status.NoMemory → O.written out.new ≡ O.written out.old }
{
    let reply = reply_to(alloc, words, shelf);
    match put_reply(out, &reply) {
        Ok(()) => reply.status(),
        Err(Stopped) => Status::WriteFault,
    }
}
