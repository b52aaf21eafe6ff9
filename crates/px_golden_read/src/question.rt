// Questions about what is read.

/// A question: its word, and the numbers after it. What is no number counts as 0.
#[derive(Clone, Copy)]
pub struct Question<'a> {
    pub word: &'a str,
    pub first: u32,
    pub second: u32,
}

// A number of base 16; a longer one keeps its last eight digits.
fn hex(digits: &str) -> u32 {
    let mut number = 0u32;
    for digit in digits.chars() {
        number = number
            .wrapping_mul(16)
            .wrapping_add(digit.to_digit(16).unwrap_or(0));
    }
    number
}

// A number of base 10, or after `0x` of base 16.
fn number(word: &str) -> u32 {
    match word.strip_prefix("0x") {
        Some(digits) => hex(digits),
        None => word.parse::<u32>().unwrap_or(0),
    }
}

impl<'a> Question<'a> {
    /// The question that a line asks: a word and up to two numbers, of base 10 or after `0x` of base 16.
    pub fn of(line: &'a str) -> Question<'a> {
        let (word, rest) = line.split_once(' ').unwrap_or((line, ""));
        let (first, second) = rest.split_once(' ').unwrap_or((rest, ""));
        Question {
            word,
            first: number(first),
            second: number(second),
        }
    }
}
