// A word of the command line.
ghost use Rattle.std.specs.Prelude.{◌≡◌, ◌<◌, ◌^◌, length, IfOk, OnOk};

use std::alloc::{AllocError, Global};
use std::marker::Model;

/// A word of the command line: a text of fewer than 2^32 bytes. Contracts see its bytes.
#[derive(Drop)]
pub struct Word {
    text: String,
}

impl Model for Word {
    ghost use Rattle.std.specs.Prelude.{List, ℕ, length, ◌<◌, ◌^◌, string_bytes};

    ghost Value = { List ℕ };

    ghost view = { λ w. string_bytes w.text };

    ghost invariant = { λ w. length (string_bytes w.text) < 2 ^ 32 };
}

impl Word {
    /// A word with this text. A longer text is answered as want of memory.
    pub fn new(alloc: Global, text: &str) -> Result<Word, AllocError>
        ensures text { IfOk result (λ word. word ≡ text.now) }
        ensures short { OnOk result (length text.now < 2 ^ 32) }
    {
        if text.len() > u32::MAX as usize {
            return Err(AllocError);
        }
        let text = String::from_str(alloc, text)?;
        Ok(Word { text })
    }

    /// The text of the word.
    pub fn text(&self) -> &str
        ensures value { result.now ≡ self.now }
        ensures short { length result.now < 2 ^ 32 }
    {
        self.text.as_str()
    }
}
