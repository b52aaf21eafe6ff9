// What a case gives to the command.
use anyhow::{Context, bail};
use px_cases::file_of;
use px_io::Word;
use std::alloc::Global;
use std::rt::Files;

// How many bytes the text may have where the case doesn't say.
const ROOM: u32 = 65536;

/// The words of a command line, and what the command meets.
#[derive(Drop)]
pub struct Setup {
    /// The words of the command line.
    pub words: Vec<Word>,
    /// The files that there are, each a name with its content.
    pub files: Vec<(Word, Vec<u8>)>,
    /// The numbers of the fetches that fail.
    pub failing_fetches: Vec<u32>,
    /// The numbers of the writes that fail.
    pub failing_writes: Vec<u32>,
    /// How many bytes the text may have.
    pub room: u32,
    /// Whether the command is also run with each smaller room than its text needs.
    pub tries_smaller_rooms: bool,
    /// Whether the command is also run with each of its writes failing.
    pub tries_failing_writes: bool,
}

fn number_of(text: &str) -> anyhow::Result<u32> {
    Ok(text.parse::<u32>().context("a number is wanted")?)
}

impl Setup {
    fn new(alloc: Global) -> Setup {
        Setup {
            words: Vec::new(alloc),
            files: Vec::new(alloc),
            failing_fetches: Vec::new(alloc),
            failing_writes: Vec::new(alloc),
            room: ROOM,
            tries_smaller_rooms: false,
            tries_failing_writes: false,
        }
    }

    /// What these lines give: `words` and words of the command line between single spaces; `word` and one that has spaces or nothing in it;
    /// `file`, a name and what the file has; `failing-fetch` and the number of a fetch, the first being 0; `room` and how many bytes the text may
    /// have; `smaller-rooms` and `failing-writes`, where the command is also run with each of these.
    ///
    /// # Errors
    /// A line of another form, a file that can't be read, and want of memory.
    pub fn read(rt: &(impl Files + AllocGlobal), lines: &str) -> anyhow::Result<Setup> {
        let mut setup = Setup::new(rt.alloc());
        for line in lines.lines() {
            setup.add(rt, line).context(line)?;
        }
        Ok(setup)
    }

    fn add(&mut self, rt: &(impl Files + AllocGlobal), line: &str) -> anyhow::Result<()> {
        let (key, value) = line.split_once(' ').unwrap_or((line, ""));
        match key {
            "words" => self.add_words(rt.alloc(), value)?,
            "word" => self.add_word(rt.alloc(), value)?,
            "file" => self.add_file(rt, value)?,
            "failing-fetch" => self.failing_fetches.push(number_of(value)?)?,
            "room" => self.room = number_of(value)?,
            "smaller-rooms" => self.tries_smaller_rooms = true,
            "failing-writes" => self.tries_failing_writes = true,
            _ => bail!("{key} is nothing that a case gives"),
        }
        Ok(())
    }

    fn add_word(&mut self, alloc: Global, text: &str) -> anyhow::Result<()> {
        let word = Word::new(alloc, text)?;
        self.words.push(word)?;
        Ok(())
    }

    fn add_words(&mut self, alloc: Global, text: &str) -> anyhow::Result<()> {
        for word in text.split(' ') {
            self.add_word(alloc, word)?;
        }
        Ok(())
    }

    fn add_file(&mut self, rt: &(impl Files + AllocGlobal), text: &str) -> anyhow::Result<()> {
        let (name, content) = text.split_once(' ').unwrap_or((text, ""));
        let bytes = file_of(rt, content)?;
        let name = Word::new(rt.alloc(), name)?;
        self.files.push((name, bytes))?;
        Ok(())
    }
}
