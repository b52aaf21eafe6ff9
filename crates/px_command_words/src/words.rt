// The words of the command line: `explore-raw FILE PARAMS --domain TEXT` and `explore FILE METHOD --domain TEXT`.
ghost use Rattle.std.specs.Prelude.{◌≡◌, ◌<◌, ◌≤◌, ◌^◌, None, length, is_some, option_copied, true, IfOk, IfSome, MatchResult, Some};
ghost use Rattle.std.specs.List.{AllByRecursion};
ghost use Rattle.px_program.specs.Formed.{IsInteger};
ghost use Rattle.px_command_words.specs.Words.{AsksFor, IsTyped, TakesIntegers, begins_with_pair, command_in, command_of, fits, is_command, is_file, is_filled, is_method, is_target, misfit, pairs_in, places_by, word_of};

use px_io::Word;
use px_program::Place;

/// What is explored.
#[derive(Clone, Copy)]
pub enum Target<'a> {
    /// A raw body: the names of the types of its parameters, as they stand, and what the parameters hold.
    Raw(&'a str, &'static [Place]),
    /// A method of an assembly, by its name.
    Method(&'a str),
}

/// What the words ask for.
#[derive(Clone, Copy)]
pub struct Asked<'a> {
    /// The name of the file that has the body or the assembly.
    pub file: &'a str,
    /// What is explored of it.
    pub target: Target<'a>,
    /// The text of the domain.
    pub text: &'a str,
}

// The places that the names of the parameters' types stand for.
fn places_by(params: &str) -> Option<&'static [Place]>
    ensures places { option_copied result ≡ places_by params.now }
    ensures integers { IfSome result (λ places. AllByRecursion IsInteger places.now) }
    ensures few { IfSome result (λ places. length places.now ≤ 16) }
{
    match params {
        "-" => Some(&[]),
        "int32" => Some(&[Place::I4]),
        "int32,int32" => Some(&[Place::I4, Place::I4]),
        "int32,int32,int32" => Some(&[Place::I4, Place::I4, Place::I4]),
        "int32,int32,int32,int32" => Some(&[Place::I4, Place::I4, Place::I4, Place::I4]),
        _ => None,
    }
}

// Whether the word may be a file's name.
fn is_file(word: &str) -> bool
    ensures { result ≡ is_file word.now }
{
    match word.as_bytes() {
        [] => false,
        [first, ..] => *first != b'-',
    }
}

// Whether the bytes begin with `::`.
fn begins_with_pair(bytes: &[u8]) -> bool
    ensures { result ≡ begins_with_pair bytes.now }
{
    match bytes {
        [first, second, ..] => *first == b':' && *second == b':',
        _ => false,
    }
}

// How often `::` stands in the bytes; three colons hold it twice.
fn pairs_in(bytes: &[u8]) -> u64
    ensures { result ≡ pairs_in bytes.now }
{
    let mut pairs = 0;
    let mut rest = bytes;
    while let [_, behind @ ..] = rest {
        if begins_with_pair(rest) {
            pairs += 1;
        }
        rest = behind;
    }
    pairs
}

// Whether the word may be a method's name.
fn is_method(word: &str) -> bool
    ensures { result ≡ is_method word.now }
{
    let bytes = word.as_bytes();
    is_file(word) && pairs_in(bytes) == 1 && !bytes.starts_with(b"::") && !bytes.ends_with(b"::")
}

// Whether the word is a command.
fn is_command(word: &str) -> bool
    ensures { result ≡ is_command word.now }
{
    word == "explore-raw" || word == "explore"
}

// Whether the word may say what is explored by the command.
fn is_target(command: &str, word: &str) -> bool
    ensures { result ≡ is_target command.now word.now }
{
    if command == "explore" {
        is_method(word)
    } else {
        places_by(word).is_some()
    }
}

// Whether the word fits its place in the form of the command.
fn fits(command: &str, place: usize, word: &str) -> bool
    ensures { result ≡ fits command.now place word.now }
{
    match place {
        0 => is_command(word),
        1 => is_file(word),
        2 => is_target(command, word),
        3 => word == "--domain",
        4 => !word.is_empty(),
        _ => false,
    }
}

// The first word, which is the command.
fn command_in(words: &[Word]) -> &str
    ensures { result.now ≡ command_in words.now }
{
    match words {
        [] => "",
        [command, ..] => command.text(),
    }
}

// The first word that fits nothing, or the place after the last where one is missing.
fn misfit(words: &[Word]) -> Option<usize>
    ensures { result ≡ misfit words.now }
{
    let command = command_in(words);
    for (place, word) in words.iter().enumerate() {
        if !fits(command, place, word.text()) {
            return Some(place);
        }
    }
    if words.len() == 5 {
        None
    } else {
        Some(words.len())
    }
}

// What a command explores by a word that fits.
fn target_of<'a>(command: &str, word: &'a str) -> Target<'a>
    requires command { is_command command.now ≡ true }
    requires fits { is_target command.now word.now ≡ true }
    ensures command { command.now ≡ command_of result }
    ensures word { word.now ≡ word_of result }
    ensures typed { IsTyped result }
    ensures integers { TakesIntegers result }
{
    if command == "explore" {
        return Target::Method(word);
    }
    match places_by(word) {
        Some(places) => Target::Raw(word, places),
        None => unreachable!(),
    }
}

// What words of the form ask for.
fn asked_by(words: &[Word]) -> Asked
    requires { misfit words.now ≡ None }
    ensures asks { AsksFor words.now result.file.now result.target result.text.now }
    ensures short { length result.text.now < 2 ^ 32 }
    ensures integers { TakesIntegers result.target }
{
    let target = target_of(words[0].text(), words[2].text());
    Asked {
        file: words[1].text(),
        target,
        text: words[4].text(),
    }
}

/// What the words ask for. The error is the place of the first word that doesn't fit the form,
/// or the number of words where one is missing.
pub fn read_words(words: &[Word]) -> Result<Asked, usize>
    ensures asks { IfOk result (λ a. AsksFor words.now a.file.now a.target a.text.now) }
    ensures short { IfOk result (λ a. length a.text.now < 2 ^ 32) }
    ensures integers { IfOk result (λ a. TakesIntegers a.target) }
    ensures misfit { MatchResult result (λ _. misfit words.now ≡ None) (λ place. misfit words.now ≡ Some place) }
{
    match misfit(words) {
        Some(place) => Err(place),
        None => Ok(asked_by(words)),
    }
}
