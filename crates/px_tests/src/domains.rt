// Domains and arguments as text.
ghost use Rattle.std.specs.Prelude.{◌≡◌, ◌<◌, ◌^◌, ◌++◌, ◌∷◌, [], codes};
ghost use Rattle.std.specs.Fmt.{signed_decimal};
ghost use Rattle.std.specs.List.{AllByRecursion, flat_map};
ghost use Rattle.px_domain.specs.Domain.{AreIn, InDomain, IsPart, ranges_of_part};
ghost use Rattle.px_domain.specs.Place.{number_of, word_bits};
ghost use Rattle.px_domain.specs.Text.{arg_text, arg_texts, args_text, array_text, domain_text, length_in, lengths_text, null_text, number_text, numbers_text, part_text, range_text};
ghost use Rattle.px_io.specs.Puts.{Puts};
ghost use Rattle.px_tests.specs.Numbers.{AreWords, IsCount, spaced_text};

use px_domain::{Domain, Part, Range, number_of, whole_of};
use px_io::Piece::{Number, Signed, Text};
use px_io::{Sink, Stopped, put_pieces};
use px_program::Place;

fn put_range<O: Sink>(out: &mut O, range: &Range) -> Result<(), Stopped>
    ensures { Puts O.written O.faults out.old (range_text range.now.place range.now.low range.now.high) out.new result }
{
    let whole = whole_of(range.place);
    if range.low == whole.low && range.high == whole.high {
        put_pieces(out, &[Text("*")])
    } else {
        put_pieces(out, &[Signed(range.low), Text(".."), Signed(range.high)])
    }
}

fn put_null<O: Sink>(out: &mut O, null: bool) -> Result<(), Stopped>
    ensures { Puts O.written O.faults out.old (null_text null) out.new result }
{
    if null {
        put_pieces(out, &[Text("?")])
    } else {
        put_pieces(out, &[])
    }
}

fn put_lengths<O: Sink>(out: &mut O, from: u32, to: u32) -> Result<(), Stopped>
    ensures { Puts O.written O.faults out.old (lengths_text from to) out.new result }
{
    put_pieces(out, &[Number(from), Text(".."), Number(to), Text("x")])
}

fn put_open<O: Sink>(out: &mut O) -> Result<(), Stopped>
    ensures { Puts O.written O.faults out.old (codes "(") out.new result }
{
    put_pieces(out, &[Text("(")])
}

fn put_close<O: Sink>(out: &mut O) -> Result<(), Stopped>
    ensures { Puts O.written O.faults out.old (codes ")") out.new result }
{
    put_pieces(out, &[Text(")")])
}

// The range and the end of its group.
#[tactic(auto, using(px_io::proofs::Putting::writing))]
fn put_range_close<O: Sink>(out: &mut O, range: &Range) -> Result<(), Stopped>
    ensures { Puts O.written O.faults out.old (range_text range.now.place range.now.low range.now.high ++ codes ")") out.new result }
{
    put_range(out, range)?;
    put_close(out)
}

#[tactic(auto, using(px_io::proofs::Putting::writing))]
fn put_scalar<O: Sink>(out: &mut O, range: &Range) -> Result<(), Stopped>
    ensures { Puts O.written O.faults out.old (codes "(" ++ (range_text range.now.place range.now.low range.now.high ++ codes ")")) out.new result }
{
    put_open(out)?;
    put_range_close(out, range)
}

// The lengths of an array, the range of its elements and the end of its group.
#[tactic(auto, using(px_io::proofs::Putting::writing))]
fn put_lengths_range<O: Sink>(out: &mut O, from: u32, to: u32, range: &Range) -> Result<(), Stopped>
    ensures { Puts O.written O.faults out.old (lengths_text from to ++ (range_text range.now.place range.now.low range.now.high ++ codes ")")) out.new result }
{
    put_lengths(out, from, to)?;
    put_range_close(out, range)
}

// What stands in the group of an array, and its end.
#[tactic(auto, using(px_io::proofs::Putting::writing))]
fn put_shape<O: Sink>(
    out: &mut O,
    null: bool,
    from: u32,
    to: u32,
    range: &Range,
) -> Result<(), Stopped>
    ensures { Puts O.written O.faults out.old (null_text null ++ (lengths_text from to ++ (range_text range.now.place range.now.low range.now.high ++ codes ")"))) out.new result }
{
    put_null(out, null)?;
    put_lengths_range(out, from, to, range)
}

// An array with elements of the range.
#[tactic(auto, using(px_io::proofs::Putting::writing))]
fn put_array<O: Sink>(
    out: &mut O,
    null: bool,
    from: u32,
    to: u32,
    range: &Range,
) -> Result<(), Stopped>
    ensures { Puts O.written O.faults out.old (codes "(" ++ (null_text null ++ (lengths_text from to ++ (range_text range.now.place range.now.low range.now.high ++ codes ")")))) out.new result }
{
    put_open(out)?;
    put_shape(out, null, from, to, range)
}

fn put_part<O: Sink>(out: &mut O, part: &Part) -> Result<(), Stopped>
    ensures { Puts O.written O.faults out.old (part_text part.now) out.new result }
{
    match *part {
        Part::Scalar { place, low, high } => put_scalar(out, &Range { place, low, high }),
        Part::Array {
            element,
            null,
            from,
            to,
            low,
            high,
        } => {
            let place = element;
            put_array(out, null, from, to, &Range { place, low, high })
        }
    }
}

fn put_parts<O: Sink>(out: &mut O, parts: &[Part]) -> Result<(), Stopped>
    ensures { Puts O.written O.faults out.old (flat_map part_text parts.now) out.new result }
{
    for part in parts {
        put_part(out, part)?;
    }
    Ok(())
}

#[tactic(auto, using(px_io::proofs::Putting::writing))]
fn put_all_parts<O: Sink>(out: &mut O, parts: &[Part]) -> Result<(), Stopped>
    ensures { Puts O.written O.faults out.old (domain_text parts.now) out.new result }
{
    match parts {
        [] => put_pieces(out, &[Text("-")]),
        [first, rest @ ..] => {
            put_part(out, first)?;
            put_parts(out, rest)
        }
    }
}

/// Writes a domain.
pub fn put_domain<O: Sink>(out: &mut O, domain: &Domain) -> Result<(), Stopped>
    ensures { Puts O.written O.faults out.old (domain_text domain.now) out.new result }
{
    put_all_parts(out, domain.parts())
}

fn put_number<O: Sink>(out: &mut O, place: Place, word: u64) -> Result<(), Stopped>
    requires { word < 2 ^ word_bits place }
    ensures { Puts O.written O.faults out.old (number_text place word) out.new result }
{
    put_pieces(out, &[Signed(number_of(place, word))])
}

// The number after a space.
fn put_spaced<O: Sink>(out: &mut O, place: Place, word: u64) -> Result<(), Stopped>
    requires { word < 2 ^ word_bits place }
    ensures { Puts O.written O.faults out.old (spaced_text place word) out.new result }
{
    put_pieces(out, &[Text(" "), Signed(number_of(place, word))])
}

// The numbers, each after a space.
fn put_all_spaced<O: Sink>(out: &mut O, place: Place, words: &[u64]) -> Result<(), Stopped>
    requires { AreWords place words.now }
    ensures { Puts O.written O.faults out.old (flat_map (spaced_text place) words.now) out.new result }
{
    for word in words {
        put_spaced(out, place, *word)?;
    }
    Ok(())
}

// The numbers with single spaces between them.
#[tactic(auto, using(px_io::proofs::Putting::writing))]
fn put_numbers<O: Sink>(out: &mut O, place: Place, words: &[u64]) -> Result<(), Stopped>
    requires { AreWords place words.now }
    ensures { Puts O.written O.faults out.old (numbers_text place words.now) out.new result }
{
    match words {
        [] => put_pieces(out, &[]),
        [first, rest @ ..] => {
            put_number(out, place, *first)?;
            put_all_spaced(out, place, rest)
        }
    }
}

fn put_list_open<O: Sink>(out: &mut O) -> Result<(), Stopped>
    ensures { Puts O.written O.faults out.old (codes "([") out.new result }
{
    put_pieces(out, &[Text("([")])
}

fn put_list_close<O: Sink>(out: &mut O) -> Result<(), Stopped>
    ensures { Puts O.written O.faults out.old (codes "])") out.new result }
{
    put_pieces(out, &[Text("])")])
}

// The numbers and the end of their list.
#[tactic(auto, using(px_io::proofs::Putting::writing))]
fn put_numbers_close<O: Sink>(out: &mut O, place: Place, words: &[u64]) -> Result<(), Stopped>
    requires { AreWords place words.now }
    ensures { Puts O.written O.faults out.old (numbers_text place words.now ++ codes "])") out.new result }
{
    put_numbers(out, place, words)?;
    put_list_close(out)
}

#[tactic(auto, using(px_io::proofs::Putting::writing))]
fn put_list<O: Sink>(out: &mut O, place: Place, words: &[u64]) -> Result<(), Stopped>
    requires { AreWords place words.now }
    ensures { Puts O.written O.faults out.old (codes "([" ++ (numbers_text place words.now ++ codes "])")) out.new result }
{
    put_list_open(out)?;
    put_numbers_close(out, place, words)
}

// The first elements, as many as the array has, or `null`.
fn put_elements<O: Sink>(
    out: &mut O,
    element: Place,
    count: Option<u64>,
    elements: &[u64],
) -> Result<(), Stopped>
    requires words { AreWords element elements.now }
    requires few { IsCount count elements.now }
    ensures { Puts O.written O.faults out.old (array_text element count elements.now) out.new result }
{
    match count {
        None => put_pieces(out, &[Text("(null)")]),
        Some(count) => put_list(out, element, &elements[..count as usize]),
    }
}

// The length that the number of a shape stands for, or `None` for null.
fn length_in(null: bool, from: u32, shape: u64) -> Option<u64>
    requires { shape < 2 ^ 32 }
    ensures { result ≡ length_in null from shape }
{
    if !null {
        Some(u64::from(from) + shape)
    } else if shape == 0 {
        None
    } else {
        Some(u64::from(from) + (shape - 1))
    }
}

fn put_integer<O: Sink>(out: &mut O, place: Place, word: u64) -> Result<(), Stopped>
    requires { word < 2 ^ word_bits place }
    ensures { Puts O.written O.faults out.old (codes "(" ++ (signed_decimal (number_of place word) ++ (codes ")" ++ []))) out.new result }
{
    put_pieces(out, &[Text("("), Signed(number_of(place, word)), Text(")")])
}

// The argument of a part, by its first word and the others.
#[tactic(auto, using(crate::proofs::Words::element_words, crate::proofs::Words::count_by, crate::proofs::Words::shape_short))]
fn put_value<O: Sink>(out: &mut O, part: &Part, word: u64, elements: &[u64]) -> Result<(), Stopped>
    requires part { IsPart part.now }
    requires within { AreIn (ranges_of_part part.now) (word ∷ elements.now) }
    ensures { Puts O.written O.faults out.old (arg_text part.now (word ∷ elements.now)) out.new result }
{
    match *part {
        Part::Scalar { place, .. } => put_integer(out, place, word),
        Part::Array {
            element,
            null,
            from,
            ..
        } => put_elements(out, element, length_in(null, from, word), elements),
    }
}

fn put_arg<O: Sink>(out: &mut O, part: &Part, words: &[u64]) -> Result<(), Stopped>
    requires part { IsPart part.now }
    requires within { AreIn (ranges_of_part part.now) words.now }
    ensures { Puts O.written O.faults out.old (arg_text part.now words.now) out.new result }
{
    match words {
        [] => put_pieces(out, &[]),
        [word, elements @ ..] => put_value(out, part, *word, elements),
    }
}

// Writes the arguments of the parts, each by its own words.
#[tactic(auto, using(crate::proofs::Words::split_enough, crate::proofs::Words::own_words, crate::proofs::Words::other_words, crate::proofs::Words::other_parts))]
fn put_arg_texts<O: Sink>(out: &mut O, parts: &[Part], words: &[u64]) -> Result<(), Stopped>
    requires parts { AllByRecursion IsPart parts.now }
    requires within { InDomain parts.now words.now }
    ensures { Puts O.written O.faults out.old (arg_texts parts.now words.now) out.new result }
{
    match parts {
        [] => put_pieces(out, &[]),
        [part, parts @ ..] => {
            let (own, words) = words.split_at(part.word_count() as usize);
            put_arg(out, part, own)?;
            put_arg_texts(out, parts, words)
        }
    }
}

#[tactic(auto, using(px_io::proofs::Putting::writing))]
fn put_all_args<O: Sink>(out: &mut O, parts: &[Part], words: &[u64]) -> Result<(), Stopped>
    requires parts { AllByRecursion IsPart parts.now }
    requires within { InDomain parts.now words.now }
    ensures { Puts O.written O.faults out.old (args_text parts.now words.now) out.new result }
{
    if parts.is_empty() {
        put_pieces(out, &[Text("-")])
    } else {
        put_arg_texts(out, parts, words)
    }
}

/// Writes a tuple of the domain.
pub fn put_args<O: Sink>(out: &mut O, domain: &Domain, words: &[u64]) -> Result<(), Stopped>
    requires { InDomain domain.now words.now }
    ensures { Puts O.written O.faults out.old (args_text domain.now words.now) out.new result }
{
    put_all_args(out, domain.parts(), words)
}
