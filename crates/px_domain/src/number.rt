// Numbers in decimal.
ghost use Rattle.std.specs.Prelude.{◌≡◌, length, take_while};
ghost use Rattle.std.specs.Char.{is_ascii_digit};
ghost use Rattle.px_domain.specs.declared.range.Range.{Range};
ghost use Rattle.px_domain.specs.Domain.{IsRange};
ghost use Rattle.px_domain.specs.Grammar.{in_range, number_of_text, numeral_of};

use itoa::Buffer;

// How many digits the text begins with.
fn digit_count(text: &[u8]) -> usize
    ensures { result ≡ length (take_while is_ascii_digit text.now) }
{
    text.iter().take_while(|byte| byte.is_ascii_digit()).count()
}

// The longest run of digits, perhaps behind a `-`, that the text begins with.
pub(crate) fn numeral_of(text: &[u8]) -> &[u8]
    ensures { result.now ≡ numeral_of text.now }
{
    let sign = usize::from(text.starts_with(b"-"));
    let digits = digit_count(&text[sign..]);
    &text[..sign + digits]
}

// The number whose decimal the text is, as far as a range may have it.
pub(crate) fn number_of_text(text: &[u8]) -> Option<i128>
    ensures { (range : Range) → IsRange range → in_range range result ≡ in_range range (number_of_text text.now) }
{
    let number = std::str::from_utf8(text).ok()?.parse::<i128>().ok()?;
    let mut buffer = Buffer::new();
    if buffer.format(number).as_bytes() == text {
        Some(number)
    } else {
        None
    }
}
