// Domains and their tuples.
ghost use Rattle.std.specs.Prelude.{◌≡◌, ◌≤◌, ◌<◌, ◌+◌, ◌++◌, ◌∷◌, ◌↔◌, ℕ, List, IfOk, OnOk, IsTrue, SomeIff, length};
ghost use Rattle.std.specs.List.{AllByRecursion};
ghost use Rattle.px_domain.specs.Domain.{AreParts, InDomain, IsPart, IsRange, IsTuple, least_words, ranges_of, ranges_of_part, shape_range, size_of, tuple_of, word_count};

use crate::Range;
use crate::times::push_times;
use px_program::{Place, Words};
use sqlite_items::Items;
use std::alloc::{AllocError, Global};
use std::marker::Model;

/// What one parameter ranges over.
#[derive(Clone, Copy, PartialEq, Eq)]
pub enum Part {
    /// The numbers of an integer place from `low` to `high`, both among them.
    Scalar {
        place: Place,
        low: i128,
        high: i128,
    },
    /// The arrays of such numbers that have from `from` to `to` elements, and `null` where it says so.
    Array {
        element: Place,
        null: bool,
        from: u32,
        to: u32,
        low: i128,
        high: i128,
    },
}

impl Part {
    /// How many argument words the part has.
    pub fn word_count(&self) -> u64
        ensures { result ≡ word_count self.now }
    {
        match *self {
            Part::Scalar { .. } => 1,
            Part::Array { to, .. } => u64::from(to) + 1,
        }
    }
}

// What the number of an array's shape ranges over.
fn shape_range(null: bool, from: u32, to: u32) -> Range
    requires order { from ≤ to }
    requires few { to ≤ 64 }
    ensures { result ≡ shape_range null from to }
{
    let count = if null { to + 2 - from } else { to + 1 - from };
    Range {
        place: Place::U4,
        low: 0,
        high: i128::from(count - 1),
    }
}

// The ranges of a part's words.
fn push_ranges(ranges: &mut Vec<Range>, part: &Part) -> Result<(), AllocError>
    requires { IsPart part.now }
    ensures { OnOk result (ranges.new.items ≡ ranges.old.items ++ ranges_of_part part.now) }
{
    match *part {
        Part::Scalar { place, low, high } => {
            ranges.push(Range { place, low, high })?;
            Ok(())
        }
        Part::Array {
            element,
            null,
            from,
            to,
            low,
            high,
        } => {
            ranges.push(shape_range(null, from, to))?;
            let place = element;
            push_times(ranges, Range { place, low, high }, to)
        }
    }
}

fn ranges_of(alloc: Global, parts: &[Part]) -> Result<Vec<Range>, AllocError>
    requires { AllByRecursion IsPart parts.now }
    ensures { IfOk result (λ ranges. ranges.items ≡ ranges_of parts.now) }
{
    let mut ranges = Vec::new(alloc);
    for part in parts {
        push_ranges(&mut ranges, part)?;
    }
    Ok(ranges)
}

/// A part for each parameter of a program's entry, seen as the list of its parts.
/// Each range is in order and within that of its place, no array has more than 64 elements, and there are at most 256 argument words.
#[derive(Drop)]
pub struct Domain {
    parts: Vec<Part>,
    ranges: Vec<Range>,
}

impl Model for Domain {
    ghost use Rattle.std.specs.Prelude.{List};
    ghost use Rattle.px_domain.specs.declared.domain.Part.{Part};
    ghost use Rattle.px_domain.specs.Domain.{HasRanges};

    ghost Value = { List Part };

    ghost view = { λ d. d.parts.items };

    ghost invariant = { λ d. HasRanges d.parts.items d.ranges.items };
}

impl Domain {
    pub(crate) fn new(alloc: Global, parts: Vec<Part>) -> Result<Domain, AllocError>
        requires { AreParts parts.items }
        ensures { IfOk result (λ d. d ≡ parts.items) }
    {
        let ranges = ranges_of(alloc, parts.as_slice())?;
        Ok(Domain { parts, ranges })
    }

    /// The parts, in the order of the parameters.
    pub fn parts(&self) -> &[Part]
        ensures parts { result.now ≡ self.now }
        ensures are { AreParts self.now }
    {
        self.parts.as_slice()
    }

    /// What each argument word ranges over.
    #[tactic(auto, using(crate::proofs::Words::all_ranges))]
    pub fn ranges(&self) -> &[Range]
        ensures ranges { result.now ≡ ranges_of self.now }
        ensures each { AllByRecursion IsRange (ranges_of self.now) }
        ensures few { length (ranges_of self.now) ≤ 256 }
    {
        self.ranges.as_slice()
    }

    /// Whether the words are in the domain: one for each range, and in it.
    pub fn holds(&self, words: &Words) -> bool
        ensures { IsTrue result ↔ InDomain self.now words.now }
    {
        let ranges = self.ranges();
        if ranges.len() != words.len() {
            return false;
        }
        for (range, word) in ranges.iter().zip(words.as_slice()) {
            if !range.has(*word) {
                return false;
            }
        }
        true
    }

    /// How many tuples of argument words the domain has, where they are at most `most`.
    /// Each words of the domain are the tuple of a number below the count.
    #[tactic(auto, using(crate::proofs::Tuples::every_tuple, crate::proofs::Tuples::some_tuples))]
    pub fn size_within(&self, most: u32) -> Option<u32>
        ensures size { SomeIff result (size_of (ranges_of self.now) ≤ most) (size_of (ranges_of self.now)) }
        ensures some { 0 < size_of (ranges_of self.now) }
        ensures every { (words : List ℕ) → InDomain self.now words → IsTuple (ranges_of self.now) words }
    {
        let most = u128::from(most);
        let mut size = 1;
        for range in self.ranges() {
            size *= range.size();
            if size > most {
                return None;
            }
        }
        if size <= most {
            Some(size as u32)
        } else {
            None
        }
    }

    /// The words of the tuple of a number. Tuples are counted from the low ends on, the last word running fastest.
    pub fn tuple(&self, alloc: Global, number: u32) -> Result<Words, AllocError>
        requires { number < size_of (ranges_of self.now) }
        ensures tuple { IfOk result (λ words. words ≡ tuple_of (ranges_of self.now) number) }
        ensures within { IfOk result (InDomain self.now) }
    {
        let ranges = self.ranges();
        let mut words = vec![in alloc; 0; ranges.len()]?;
        let mut rest = u128::from(number);
        for index in (0..ranges.len()).rev() {
            let range = ranges[index];
            let size = range.size();
            words[index] = range.word_at(rest % size);
            rest /= size;
        }
        Ok(Items::from_vec(words))
    }

    /// The least words of the domain: each is that of its range's low end.
    pub fn least(&self, alloc: Global) -> Result<Words, AllocError>
        ensures least { IfOk result (λ words. words ≡ least_words self.now) }
        ensures within { IfOk result (InDomain self.now) }
    {
        let mut words = Items::new(alloc);
        for range in self.ranges() {
            words.push(range.low_word())?;
        }
        Ok(words)
    }
}
