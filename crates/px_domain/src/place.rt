// The numbers and the argument words of integer places: Partition I, 8.2.2 and 12.1.
ghost use Rattle.std.specs.Prelude.{◌≡◌, ◌<◌, ◌^◌, ◌≤ℤ◌, ◌↔◌, IsTrue};
ghost use Rattle.px_domain.specs.Place.{high_end, is_signed, is_wide, low_end, number_of, word_bits, word_of};

use px_program::Place;

/// The numbers from one to another.
#[derive(Clone, Copy, PartialEq, Eq)]
pub struct Span {
    pub low: i128,
    pub high: i128,
}

/// All numbers of an integer place.
pub fn whole_of(place: Place) -> Span
    ensures low { result.low ≡ low_end place }
    ensures high { result.high ≡ high_end place }
{
    let (low, high) = match place {
        Place::Bool => (0, 1),
        Place::Char | Place::U2 => (0, u16::MAX as i128),
        Place::I1 => (i8::MIN as i128, i8::MAX as i128),
        Place::U1 => (0, u8::MAX as i128),
        Place::I2 => (i16::MIN as i128, i16::MAX as i128),
        Place::I4 => (i32::MIN as i128, i32::MAX as i128),
        Place::U4 => (0, u32::MAX as i128),
        Place::I8 | Place::N => (i64::MIN as i128, i64::MAX as i128),
        Place::U8 | Place::UN => (0, u64::MAX as i128),
        Place::Ref(_) => (0, 0),
    };
    Span { low, high }
}

// Whether the argument words of a place have 64 bits.
fn is_wide(place: Place) -> bool
    ensures { result ≡ is_wide place }
{
    matches!(place, Place::I8 | Place::U8 | Place::N | Place::UN)
}

// Whether the numbers of a place have a sign.
fn is_signed(place: Place) -> bool
    ensures { result ≡ is_signed place }
{
    matches!(
        place,
        Place::I1 | Place::I2 | Place::I4 | Place::I8 | Place::N
    )
}

// How many different words a place's width allows.
fn word_count(place: Place) -> u128
    ensures { result ≡ 2 ^ word_bits place }
{
    if is_wide(place) { 1 << 64 } else { 1 << 32 }
}

// Whether the word has the place's width.
pub(crate) fn is_word(place: Place, word: u64) -> bool
    ensures { IsTrue result ↔ (word < 2 ^ word_bits place) }
{
    u128::from(word) < word_count(place)
}

/// The number that an argument word is for an integer place.
pub fn number_of(place: Place, word: u64) -> i128
    requires { word < 2 ^ word_bits place }
    ensures { result ≡ number_of place word }
{
    let count = word_count(place);
    let number = i128::from(word);
    if is_signed(place) && u128::from(word) >= count / 2 {
        number - count as i128
    } else {
        number
    }
}

// The argument word of a number of a place.
pub(crate) fn word_of(place: Place, number: i128) -> u64
    requires low { low_end place ≤ℤ number }
    requires high { number ≤ℤ high_end place }
    ensures { result ≡ word_of place number }
{
    if number < 0 {
        (number + word_count(place) as i128) as u64
    } else {
        number as u64
    }
}
