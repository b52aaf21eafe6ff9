// Reads the groups of a domain's text, byte by byte from left to right.
ghost use Rattle.std.specs.Prelude.{◌≡◌, ◌≤◌, ◌<◌, ◌^◌, ◌≤ℤ◌, ℕ, ℤ, IfOk, drop, length, nat_eq};
ghost use Rattle.std.specs.List.{starts_with};
ghost use Rattle.std.specs.Int.RustNames.{unsigned_abs};
ghost use Rattle.px_domain.specs.Domain.{IsRange, IsSpan};
ghost use Rattle.px_domain.specs.Grammar.{array_at, end_at, expect, group_at, length_range, lengths_at, null_at, number_at, part_at, range_at, scalar_at, span_at};
ghost use Rattle.px_domain.specs.Reading.{Reads, Steps};

use crate::number::{number_of_text, numeral_of};
use crate::place::{Span, whole_of};
use crate::{DomainFault, Given, Part, Range};
use px_program::Place;

// The least and the greatest length of an array.
#[derive(Clone, Copy)]
pub(crate) struct Lengths {
    pub from: u32,
    pub to: u32,
}

// What lengths there may be.
fn length_range() -> Range
    ensures { result ≡ length_range }
{
    Range {
        place: Place::U1,
        low: 0,
        high: 64,
    }
}

// The lengths that a span has.
fn lengths_of(span: &Span) -> Lengths
    requires { IsSpan length_range span.now }
    ensures { result ≡ record { from = unsigned_abs span.now.low; to = unsigned_abs span.now.high } }
{
    Lengths {
        from: span.low as u32,
        to: span.high as u32,
    }
}

// A text, and the place up to which it is read.
#[derive(Drop)]
pub(crate) struct Cursor<'t> {
    pub text: &'t [u8],
    pub at: u32,
    ghost inside: { at ≤ length text.now },
    ghost short: { length text.now < 2 ^ 32 },
}

impl<'t> Cursor<'t> {
    /// A cursor at the first byte of the text.
    pub fn new(text: &'t [u8]) -> Cursor<'t>
        requires { length text.now < 2 ^ 32 }
        ensures text { result.text.now ≡ text.now }
        ensures start { result.at ≡ 0 }
    {
        Cursor { text, at: 0 }
    }

    // The bytes that are not read yet.
    fn rest(&self) -> &'t [u8]
        ensures { result.now ≡ drop self.now.at self.now.text.now }
    {
        &self.text[self.at as usize..]
    }

    /// Steps over these bytes. Where others stand, the fault is at the place that is given.
    pub fn expect(&mut self, bytes: &[u8], fault: u32) -> Result<(), DomainFault>
        ensures steps { Steps result self.new.at (expect bytes.now self.old.text.now self.old.at fault) }
        ensures text { self.new.text.now ≡ self.old.text.now }
    {
        if !self.rest().starts_with(bytes) {
            return Err(DomainFault::Bad { at: fault });
        }
        self.at += bytes.len() as u32;
        Ok(())
    }

    /// Whether these bytes are next.
    pub fn is_next(&self, bytes: &[u8]) -> bool
        ensures { result ≡ starts_with nat_eq (drop self.now.at self.now.text.now) bytes.now }
    {
        self.rest().starts_with(bytes)
    }

    /// A number of the range.
    #[tactic(auto, unfolding(crate::specs::Grammar::number_at))]
    pub fn number(&mut self, range: &Range) -> Result<i128, DomainFault>
        requires { IsRange range.now }
        ensures reads { Reads result self.new.at (number_at range.now self.old.text.now self.old.at) }
        ensures within { IfOk result (λ number. (range.now.low ≤ℤ number) × (number ≤ℤ range.now.high)) }
        ensures text { self.new.text.now ≡ self.old.text.now }
    {
        let numeral = numeral_of(self.rest());
        match number_of_text(numeral) {
            Some(number) if range.includes(number) => {
                self.at += numeral.len() as u32;
                Ok(number)
            }
            _ => Err(DomainFault::Bad { at: self.at }),
        }
    }

    // Two numbers of the range in order, as `LO..HI`. Where there is no `..`, the fault is at the place that is given.
    #[tactic(auto, unfolding(crate::specs::Grammar::span_at))]
    fn span(&mut self, range: &Range, fault: u32) -> Result<Span, DomainFault>
        requires { IsRange range.now }
        ensures reads { Reads result self.new.at (span_at range.now fault self.old.text.now self.old.at) }
        ensures text { self.new.text.now ≡ self.old.text.now }
    {
        let start = self.at;
        let low = self.number(range)?;
        self.expect(b"..", fault)?;
        let high = self.number(range)?;
        if high < low {
            return Err(DomainFault::Bad { at: start });
        }
        Ok(Span { low, high })
    }

    // The whole place, as `*`, or a span.
    #[tactic(auto, using(crate::proofs::Ranges::whole_is_range), unfolding(crate::specs::Grammar::range_at))]
    fn range(&mut self, place: Place) -> Result<Span, DomainFault>
        ensures reads { Reads result self.new.at (range_at place self.old.text.now self.old.at) }
        ensures text { self.new.text.now ≡ self.old.text.now }
    {
        if self.is_next(b"*") {
            self.at += 1;
            return Ok(whole_of(place));
        }
        self.span(&Range::whole(place), self.at)
    }

    // The range of an integer of the place, in parentheses.
    #[tactic(auto, unfolding(crate::specs::Grammar::scalar_at))]
    fn scalar(&mut self, place: Place) -> Result<Part, DomainFault>
        ensures reads { Reads result self.new.at (scalar_at place self.old.text.now self.old.at) }
        ensures text { self.new.text.now ≡ self.old.text.now }
    {
        let start = self.at;
        self.expect(b"(", start)?;
        let Span { low, high } = self.range(place)?;
        self.expect(b")", start)?;
        Ok(Part::Scalar { place, low, high })
    }

    // Whether there is a `?`, which is stepped over.
    fn null(&mut self) -> bool
        ensures null { record { value = result; end = self.new.at } ≡ null_at self.old.text.now self.old.at }
        ensures text { self.new.text.now ≡ self.old.text.now }
    {
        let null = self.is_next(b"?");
        if null {
            self.at += 1;
        }
        null
    }

    // The least and the greatest length of an array, and the `x` behind them.
    #[tactic(auto, unfolding(crate::specs::Grammar::lengths_at))]
    fn lengths(&mut self, group: u32) -> Result<Lengths, DomainFault>
        ensures reads { Reads result self.new.at (lengths_at group self.old.text.now self.old.at) }
        ensures text { self.new.text.now ≡ self.old.text.now }
    {
        let span = self.span(&length_range(), group)?;
        self.expect(b"x", group)?;
        Ok(lengths_of(&span))
    }

    // The lengths and the range of an array's elements, behind the `(` of the group and perhaps a `?`.
    #[tactic(auto, unfolding(crate::specs::Grammar::array_at))]
    fn array(&mut self, element: Place, null: bool, group: u32) -> Result<Part, DomainFault>
        ensures reads { Reads result self.new.at (array_at element null group self.old.text.now self.old.at) }
        ensures text { self.new.text.now ≡ self.old.text.now }
    {
        let Lengths { from, to } = self.lengths(group)?;
        let Span { low, high } = self.range(element)?;
        self.expect(b")", group)?;
        Ok(Part::Array {
            element,
            null,
            from,
            to,
            low,
            high,
        })
    }

    // The group of a parameter.
    #[tactic(auto, unfolding(crate::specs::Grammar::group_at))]
    fn group(&mut self, given: Given) -> Result<Part, DomainFault>
        ensures reads { Reads result self.new.at (group_at given self.old.text.now self.old.at) }
        ensures text { self.new.text.now ≡ self.old.text.now }
    {
        let start = self.at;
        match given {
            Given::Integer(place) => self.scalar(place),
            Given::Array(element) => {
                self.expect(b"(", start)?;
                let null = self.null();
                self.array(element, null, start)
            }
        }
    }

    /// The group of a parameter, where there are at most 256 words with those of the groups before it.
    #[tactic(auto, unfolding(crate::specs::Grammar::part_at))]
    pub fn part(&mut self, given: Given, words: u64) -> Result<Part, DomainFault>
        requires { words ≤ 256 }
        ensures reads { Reads result self.new.at (part_at given words self.old.text.now self.old.at) }
        ensures text { self.new.text.now ≡ self.old.text.now }
    {
        let start = self.at;
        let part = self.group(given)?;
        if words + part.word_count() > 256 {
            return Err(DomainFault::Bad { at: start });
        }
        Ok(part)
    }

    /// That nothing is left.
    pub fn end(&self) -> Result<(), DomainFault>
        ensures { Steps result self.now.at (end_at self.now.text.now self.now.at) }
    {
        if self.at as usize == self.text.len() {
            Ok(())
        } else {
            Err(DomainFault::Bad { at: self.at })
        }
    }
}
