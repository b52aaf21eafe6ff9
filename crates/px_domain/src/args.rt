// Reads arguments of a domain from their text.
ghost use Rattle.std.specs.Prelude.{◌≡◌, ◌≤◌, ◌<◌, ◌^◌, List, ℕ, IfOk, OnOk, codes, length, replicate, ◌++◌};
ghost use Rattle.std.specs.List.{AllByRecursion};
ghost use Rattle.px_domain.specs.Args.{GivesArgs, arg_at, args_at, args_of, array_arg_at, array_words, element_at, elements_at, empty_args, listed_at, null_arg_at, null_words, scalar_arg_at, shape_of, value_at, word_at};
ghost use Rattle.px_domain.specs.Domain.{InDomain, IsPart, IsRange};
ghost use Rattle.px_domain.specs.Reading.{Gathers, GathersAll, Reads};

use crate::cursor::Cursor;
use crate::place::word_of;
use crate::times::push_times;
use crate::{ArgsFault, Domain, DomainFault, Part, Range};
use px_program::Words;
use sqlite_items::Items;
use std::alloc::{AllocError, Global};

// The number of the shape that an array of a length has.
fn shape_of(null: bool, from: u32, length: u32) -> u32
    requires order { from ≤ length }
    requires few { length ≤ 64 }
    ensures { result ≡ shape_of null from length }
{
    if null {
        length + 1 - from
    } else {
        length - from
    }
}

// The words of an array with these elements.
fn array_words(
    alloc: Global,
    null: bool,
    from: u32,
    to: u32,
    range: &Range,
    elements: &[u64],
) -> Result<Words, AllocError>
    requires range { IsRange range.now }
    requires least { from ≤ length elements.now }
    requires greatest { length elements.now ≤ to }
    requires few { to ≤ 64 }
    ensures { IfOk result (λ words. words ≡ array_words null from to range.now elements.now) }
{
    let length = elements.len() as u32;
    let mut words = Vec::new(alloc);
    words.push(u64::from(shape_of(null, from, length)))?;
    words.extend_from_slice(elements)?;
    push_times(&mut words, range.low_word(), to - length)?;
    Ok(Items::from_vec(words))
}

// The words of null.
fn null_words(alloc: Global, to: u32, range: &Range) -> Result<Words, AllocError>
    requires { IsRange range.now }
    ensures { IfOk result (λ words. words ≡ null_words to range.now) }
{
    let mut words = Vec::new(alloc);
    words.push(0)?;
    push_times(&mut words, range.low_word(), to)?;
    Ok(Items::from_vec(words))
}

impl<'t> Cursor<'t> {
    // A number of the range, as its word.
    #[tactic(auto, unfolding(crate::specs::Args::word_at))]
    fn word(&mut self, range: &Range) -> Result<u64, DomainFault>
        requires { IsRange range.now }
        ensures reads { Reads result self.new.at (word_at range.now self.old.text.now self.old.at) }
        ensures text { self.new.text.now ≡ self.old.text.now }
    {
        let number = self.number(range)?;
        Ok(word_of(range.place, number))
    }

    // The same behind a gap.
    #[tactic(auto, unfolding(crate::specs::Args::element_at))]
    fn element(&mut self, range: &Range, gap: &[u8]) -> Result<u64, DomainFault>
        requires { IsRange range.now }
        ensures reads { Reads result self.new.at (element_at range.now gap.now self.old.text.now self.old.at) }
        ensures text { self.new.text.now ≡ self.old.text.now }
    {
        let start = self.at;
        self.expect(gap, start)?;
        self.word(range)
    }

    // Up to so many elements before a `]`, with single spaces.
    fn elements(&mut self, alloc: Global, range: &Range, most: u32) -> Result<Words, DomainFault>
        requires { IsRange range.now }
        ensures gathers { Gathers result self.new.at (elements_at range.now most (codes "") self.old.text.now self.old.at) }
        ensures few { IfOk result (λ words. length words ≤ most) }
        ensures text { self.new.text.now ≡ self.old.text.now }
    {
        let mut words = Items::new(alloc);
        let mut gap: &[u8] = b"";
        for _ in 0..most {
            if self.is_next(b"]") {
                return Ok(words);
            }
            let word = self.element(range, gap)?;
            words.push(word)?;
            gap = b" ";
        }
        Ok(words)
    }

    // An array that isn't null, in its brackets.
    #[tactic(auto, unfolding(crate::specs::Args::listed_at))]
    fn listed(
        &mut self,
        alloc: Global,
        null: bool,
        from: u32,
        to: u32,
        range: &Range,
    ) -> Result<Words, DomainFault>
        requires range { IsRange range.now }
        requires few { to ≤ 64 }
        ensures gathers { Gathers result self.new.at (listed_at null from to range.now self.old.text.now self.old.at) }
        ensures text { self.new.text.now ≡ self.old.text.now }
    {
        let start = self.at;
        self.expect(b"([", start)?;
        let elements = self.elements(alloc, range, to)?;
        self.expect(b"])", start)?;
        if elements.len() < from as usize {
            return Err(DomainFault::Bad { at: start });
        }
        Ok(array_words(alloc, null, from, to, range, elements.as_slice())?)
    }

    // Null, where the array may be.
    #[tactic(auto, unfolding(crate::specs::Args::null_arg_at))]
    fn null_arg(
        &mut self,
        alloc: Global,
        null: bool,
        to: u32,
        range: &Range,
    ) -> Result<Words, DomainFault>
        requires { IsRange range.now }
        ensures gathers { Gathers result self.new.at (null_arg_at null to range.now self.old.text.now self.old.at) }
        ensures text { self.new.text.now ≡ self.old.text.now }
    {
        let start = self.at;
        self.expect(b"(null)", start)?;
        if !null {
            return Err(DomainFault::Bad { at: start });
        }
        Ok(null_words(alloc, to, range)?)
    }

    // Null or a list.
    #[tactic(auto, unfolding(crate::specs::Args::array_arg_at))]
    fn array_arg(
        &mut self,
        alloc: Global,
        null: bool,
        from: u32,
        to: u32,
        range: &Range,
    ) -> Result<Words, DomainFault>
        requires range { IsRange range.now }
        requires few { to ≤ 64 }
        ensures gathers { Gathers result self.new.at (array_arg_at null from to range.now self.old.text.now self.old.at) }
        ensures text { self.new.text.now ≡ self.old.text.now }
    {
        if self.is_next(b"(null)") {
            self.null_arg(alloc, null, to, range)
        } else {
            self.listed(alloc, null, from, to, range)
        }
    }

    // An integer in its parentheses.
    #[tactic(auto, unfolding(crate::specs::Args::scalar_arg_at))]
    fn scalar_arg(&mut self, alloc: Global, range: &Range) -> Result<Words, DomainFault>
        requires { IsRange range.now }
        ensures gathers { Gathers result self.new.at (scalar_arg_at range.now self.old.text.now self.old.at) }
        ensures text { self.new.text.now ≡ self.old.text.now }
    {
        let start = self.at;
        self.expect(b"(", start)?;
        let word = self.word(range)?;
        self.expect(b")", start)?;
        let mut words = Items::new(alloc);
        words.push(word)?;
        Ok(words)
    }

    // What stands for a part.
    #[tactic(auto, unfolding(crate::specs::Args::value_at))]
    fn value(&mut self, alloc: Global, part: &Part) -> Result<Words, DomainFault>
        requires { IsPart part.now }
        ensures gathers { Gathers result self.new.at (value_at part.now self.old.text.now self.old.at) }
        ensures text { self.new.text.now ≡ self.old.text.now }
    {
        match *part {
            Part::Scalar { place, low, high } => {
                self.scalar_arg(alloc, &Range { place, low, high })
            }
            Part::Array {
                element,
                null,
                from,
                to,
                low,
                high,
            } => {
                let place = element;
                self.array_arg(alloc, null, from, to, &Range { place, low, high })
            }
        }
    }

    // A group, whose faults are at its first byte.
    fn arg(&mut self, alloc: Global, part: &Part) -> Result<Words, DomainFault>
        requires { IsPart part.now }
        ensures gathers { Gathers result self.new.at (arg_at part.now self.old.text.now self.old.at) }
        ensures text { self.new.text.now ≡ self.old.text.now }
    {
        let start = self.at;
        match self.value(alloc, part) {
            Err(DomainFault::Bad { .. }) => Err(DomainFault::Bad { at: start }),
            given => given,
        }
    }
}

// A `-`, and nothing behind it.
fn read_none(alloc: Global, mut cursor: Cursor) -> Result<Words, DomainFault>
    requires { cursor.at ≡ 0 }
    ensures { GathersAll result (empty_args cursor.entry.text.now) }
{
    cursor.expect(b"-", 0)?;
    cursor.end()?;
    Ok(Items::new(alloc))
}

// A group for each part, and nothing behind the last.
fn read_each(alloc: Global, mut cursor: Cursor, parts: &[Part]) -> Result<Words, DomainFault>
    requires { AllByRecursion IsPart parts.now }
    ensures { GathersAll result (args_at parts.now cursor.entry.text.now cursor.entry.at) }
{
    let mut words = Items::new(alloc);
    for part in parts {
        words.append(cursor.arg(alloc, part)?)?;
    }
    cursor.end()?;
    Ok(words)
}

// What stands for these parts.
#[tactic(auto, using(crate::proofs::Arguments::without_parts, crate::proofs::Arguments::with_parts))]
fn read_all(alloc: Global, cursor: Cursor, parts: &[Part]) -> Result<Words, DomainFault>
    requires start { cursor.at ≡ 0 }
    requires each { AllByRecursion IsPart parts.now }
    ensures { GathersAll result (args_of parts.now cursor.entry.text.now) }
{
    if parts.is_empty() {
        read_none(alloc, cursor)
    } else {
        read_each(alloc, cursor, parts)
    }
}

impl Domain {
    /// Reads arguments of the domain from their text, as argument words.
    ///
    /// The text is `-` where there are no parameters. Else there is a group for each of them, one after another without spaces: `(7)` for an integer, and for
    /// an array `(null)`, `([])` or `([1 2 3])`, with single spaces. Elements past an array's length have their least words, as those of null have.
    ///
    /// The fault is at the first byte of the first group that is out of form or whose value its part doesn't have, or of what follows the last group or the
    /// `-`, or at the text's length where a group is missing.
    pub fn read_args(&self, alloc: Global, text: &str) -> Result<Words, ArgsFault>
        requires short { length text.now < 2 ^ 32 }
        ensures exact { GivesArgs result (args_of self.now text.now) }
        ensures within { IfOk result (InDomain self.now) }
    {
        match read_all(alloc, Cursor::new(text.as_bytes()), self.parts()) {
            Ok(words) => Ok(words),
            Err(DomainFault::Memory) => Err(ArgsFault::Memory),
            Err(DomainFault::Bad { at }) => Err(ArgsFault::Bad { at }),
        }
    }
}
