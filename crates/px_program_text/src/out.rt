// Text that is built up.
use std::alloc::{AllocError, Global};

/// Text that is built up piece by piece. A piece for which there is no memory is noted, and told at the end.
#[derive(Drop)]
pub struct Out {
    text: String,
    is_cut: bool,
}

impl Out {
    /// No text yet.
    pub fn new(alloc: Global) -> Out {
        Out {
            text: String::new(alloc),
            is_cut: false,
        }
    }

    /// A text as it is.
    pub fn text(&mut self, text: &str) {
        if self.text.push_str(text).is_err() {
            self.is_cut = true;
        }
    }

    /// A number.
    pub fn digits(&mut self, number: u64) {
        if write!(self.text, "{number}").is_err() {
            self.is_cut = true;
        }
    }

    /// A space and a number in base 16, with at least so many digits.
    pub fn hex(&mut self, number: u64, digits: usize) {
        if write!(self.text, " {number:0digits$X}").is_err() {
            self.is_cut = true;
        }
    }

    /// A space and a word.
    pub fn word(&mut self, word: &str) {
        self.text(" ");
        self.text(word);
    }

    /// A space and a number.
    pub fn number(&mut self, number: u64) {
        self.text(" ");
        self.digits(number);
    }

    /// A word and a number.
    pub fn counted(&mut self, word: &str, number: u32) {
        self.word(word);
        self.number(u64::from(number));
    }

    /// The number of a type.
    pub fn class(&mut self, class: u32) {
        self.text(" #");
        self.digits(u64::from(class));
    }

    /// A word and the number of a type.
    pub fn typed(&mut self, word: &str, class: u32) {
        self.word(word);
        self.class(class);
    }

    /// A word, and where a range begins and ends.
    pub fn range(&mut self, word: &str, from: u32, to: u32) {
        self.counted(word, from);
        self.text("..");
        self.digits(u64::from(to));
    }

    /// The bytes of a name, in quotes.
    pub fn name(&mut self, name: &[u8]) {
        self.text(" \"");
        self.text(str::from_utf8(name).unwrap_or("no text"));
        self.text("\"");
    }

    /// The whole text.
    ///
    /// # Errors
    /// There was no memory for a piece.
    pub fn finish(self) -> Result<String, AllocError> {
        let Out { text, is_cut } = self;
        if is_cut { Err(AllocError) } else { Ok(text) }
    }
}
