// What one argument word ranges over.
ghost use Rattle.std.specs.Prelude.{◌≡◌, ◌≤◌, ◌<◌, ◌^◌, ◌↔◌, IsTrue};
ghost use Rattle.px_domain.specs.Domain.{IsOf, IsRange, IsShort, low_word, range_size, whole_range, width_of, word_at};
ghost use Rattle.px_domain.specs.Grammar.{is_in};

use crate::place::{is_word, number_of, whole_of, word_of};
use px_program::Place;

// How many numbers there are from one to another.
fn width_of(low: i128, high: i128) -> u128
    requires range { IsShort low high }
    ensures size { result ≡ width_of low high }
    ensures some { 0 < result }
    ensures small { result ≤ 2 ^ 64 }
{
    (high - low + 1) as u128
}

/// The numbers of an integer place from `low` to `high`, both among them.
#[derive(Clone, Copy)]
pub struct Range {
    pub place: Place,
    pub low: i128,
    pub high: i128,
}

impl Range {
    /// All numbers of the place.
    pub fn whole(place: Place) -> Range
        ensures { result ≡ whole_range place }
    {
        let whole = whole_of(place);
        Range {
            place,
            low: whole.low,
            high: whole.high,
        }
    }

    // Whether the number is in the range.
    pub(crate) fn includes(&self, number: i128) -> bool
        ensures { result ≡ is_in self.now number }
    {
        self.low <= number && number <= self.high
    }

    // Whether the word is one of the range's.
    pub(crate) fn has(&self, word: u64) -> bool
        ensures { IsTrue result ↔ IsOf word self.now }
    {
        if !is_word(self.place, word) {
            return false;
        }
        let number = number_of(self.place, word);
        self.low <= number && number <= self.high
    }

    // How many words the range has.
    #[tactic(auto, using(crate::proofs::Widths::short_range))]
    pub(crate) fn size(&self) -> u128
        requires { IsRange self.now }
        ensures size { result ≡ range_size self.now }
        ensures some { 0 < result }
        ensures small { result ≤ 2 ^ 64 }
    {
        width_of(self.low, self.high)
    }

    // The word of a number within the range.
    pub(crate) fn word_at(&self, number: u128) -> u64
        requires range { IsRange self.now }
        requires less { number < range_size self.now }
        ensures { result ≡ word_at self.now number }
    {
        word_of(self.place, self.low + number as i128)
    }

    // The word of the low end.
    pub(crate) fn low_word(&self) -> u64
        requires { IsRange self.now }
        ensures { result ≡ low_word self.now }
    {
        word_of(self.place, self.low)
    }
}
