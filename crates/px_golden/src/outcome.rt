// What a case comes to.
use crate::setup::Setup;
use anyhow::{Context, bail};
use px_cases::Case;
use px_command::{Status, pex_one};
use px_io::{MemShelf, MemSink};
use std::alloc::Global;
use std::rt::Files;
use std::str;

// How a run of the command ended, and what it wrote.
#[derive(Drop)]
struct Ran {
    status: Status,
    out: MemSink,
}

impl Ran {
    // Whether a write failed, after a proper prefix of this text.
    fn has_stopped(&self, whole: &[u8]) -> bool {
        let written = self.out.bytes();
        self.status == Status::WriteFault
            && written.len() < whole.len()
            && whole.starts_with(written)
    }
}

// Runs the command of a case.
fn run(alloc: Global, setup: Setup) -> anyhow::Result<Ran> {
    let mut out = MemSink::new(alloc, setup.room, setup.failing_writes)?;
    let mut shelf = MemShelf::new(setup.files, setup.failing_fetches);
    let status = pex_one(alloc, setup.words.as_slice(), &mut shelf, &mut out);
    Ok(Ran { status, out })
}

// Runs the command with each smaller room than its whole text needs: the text fills the room, and then a write fails.
fn try_smaller_rooms(
    rt: &(impl Files + AllocGlobal),
    case: &Case,
    whole: &[u8],
) -> anyhow::Result<()> {
    let length = u32::try_from(whole.len()).context("the text is too long")?;
    for room in 0..length {
        let mut setup = Setup::read(rt, case.given())?;
        setup.room = room;
        let ran = run(rt.alloc(), setup)?;
        if !ran.has_stopped(whole) || ran.out.bytes().len() != room as usize {
            bail!("in a room of {room} bytes it comes to something else");
        }
    }
    Ok(())
}

// Runs the command with each of its writes failing, up to a number that no write has: then the whole text is written.
fn try_failing_writes(
    rt: &(impl Files + AllocGlobal),
    case: &Case,
    whole: &[u8],
) -> anyhow::Result<()> {
    for number in 0..u32::MAX {
        let mut setup = Setup::read(rt, case.given())?;
        setup.failing_writes.push(number)?;
        let ran = run(rt.alloc(), setup)?;
        if ran.out.bytes() == whole {
            return Ok(());
        }
        if !ran.has_stopped(whole) {
            bail!("where write {number} fails it comes to something else");
        }
    }
    Ok(())
}

/// What a case comes to: the line `status N`, and the text that the command wrote.
///
/// # Errors
/// A case of another form, a failed write that comes to something else than an end of the text, and want of memory.
pub fn outcome_of(rt: &(impl Files + AllocGlobal), case: &Case) -> anyhow::Result<String> {
    let setup = Setup::read(rt, case.given())?;
    let (tries_rooms, tries_writes) = (setup.tries_smaller_rooms, setup.tries_failing_writes);
    let ran = run(rt.alloc(), setup)?;
    let whole = ran.out.bytes();
    if tries_rooms {
        try_smaller_rooms(rt, case, whole)?;
    }
    if tries_writes {
        try_failing_writes(rt, case, whole)?;
    }
    let number = ran.status.number();
    let text = str::from_utf8(whole).context("the text")?;
    Ok(format!(in rt.alloc(); "status {number}\n{text}")?)
}
