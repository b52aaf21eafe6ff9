// What a case comes to, as text.
use px_chain::Lit;
use std::alloc::{AllocError, Global};
use std::fmt::Write;

/// Lines that are written one after another. Want of memory is remembered, and told at the end.
#[derive(Drop)]
pub struct Transcript {
    alloc: Global,
    text: String,
    has_memory: bool,
}

impl Transcript {
    /// No lines.
    pub fn new(alloc: Global) -> Transcript {
        Transcript {
            alloc,
            text: String::new(alloc),
            has_memory: true,
        }
    }

    /// The allocator of all that the case makes.
    pub fn alloc(&self) -> Global {
        self.alloc
    }

    /// Remembers whether there was memory.
    pub fn note(&mut self, had_memory: bool) {
        self.has_memory = self.has_memory && had_memory;
    }

    // Writes text.
    fn put(&mut self, text: &str) {
        let written = self.text.push_str(text).is_ok();
        self.note(written);
    }

    // Writes a number.
    fn put_number(&mut self, number: u64) {
        let written = write!(self.text, "{number}").is_ok();
        self.note(written);
    }

    /// Writes a line.
    pub fn line(&mut self, text: &str) {
        self.put(text);
        self.put("\n");
    }

    /// Writes a line of a word and a number.
    pub fn count(&mut self, word: &str, number: u64) {
        self.put(word);
        self.put(" ");
        self.put_number(number);
        self.put("\n");
    }

    /// Writes a line of a word and a number of up to 128 bits.
    pub fn total(&mut self, word: &str, number: u128) {
        self.put(word);
        let written = write!(self.text, " {number}\n").is_ok();
        self.note(written);
    }

    /// Writes a line of a word and of literals.
    pub fn literals(&mut self, word: &str, literals: &[Lit]) {
        self.put(word);
        for l in literals {
            self.put(if *l % 2 == 1 { " -" } else { " " });
            self.put_number(u64::from(*l / 2) + 1);
        }
        self.put("\n");
    }

    /// The text.
    ///
    /// # Errors
    /// Want of memory at any time.
    pub fn finish(self) -> Result<String, AllocError> {
        let Transcript {
            alloc: _,
            text,
            has_memory,
        } = self;
        if has_memory {
            Ok(text)
        } else {
            Err(AllocError)
        }
    }
}
