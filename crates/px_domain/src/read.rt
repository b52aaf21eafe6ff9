// Reads a domain from its text.
ghost use Rattle.std.specs.Prelude.{◌≡◌, ◌<◌, ◌≤◌, ◌^◌, length, map, Ok, IfOk};
ghost use Rattle.std.specs.List.{AllByRecursion};
ghost use Rattle.px_program.specs.Arguments.{AreGiven, arguments_of};
ghost use Rattle.px_domain.specs.Givens.{AreFor, IsGiven, given_in, givens_of};
ghost use Rattle.px_domain.specs.Grammar.{Gives, domain_of, empty_domain, groups_at};
ghost use Rattle.px_domain.specs.Text.{domain_text};

use crate::cursor::Cursor;
use crate::{Domain, DomainFault, Given, givens_of};
use px_program::Program;
use std::alloc::Global;

/// Reads the domain of a program's entry from its text, as `read_domain_for` does for its parameters.
pub fn read_domain(alloc: Global, text: &str, program: &Program) -> Result<Domain, DomainFault>
    requires short { length text.now < 2 ^ 32 }
    requires given { AreGiven program.now.types (arguments_of program.now) }
    ensures exact { Gives result (domain_of (givens_of program.now) text.now) }
    ensures for_program { IfOk result (AreFor program.now) }

    // What is written of the domain is read as the same domain.
    ensures read_back { IfOk result (λ d. domain_of (givens_of program.now) (domain_text d) ≡ Ok d) }
{
    let params = givens_of(alloc, program)?;
    read_domain_for(alloc, text, params.as_slice())
}

/// Reads a domain for these parameters from its text.
///
/// The text is `-` where there are none. Else there is a group for each of them, one after another without spaces:
/// - of an integer, `(*)` for all numbers of its place, or `(LO..HI)` with two decimal numbers in order;
/// - of an array, the same of its elements behind the least and the greatest length, as `(0..3x*)`, and behind a `?` where it may be null, as `(?1..2x0..9)`.
///   A length is at most 64.
///
/// A number has no leading zero, and `-0` is none. There are at most 256 argument words.
///
/// The text is read from left to right, and the first fault is at the first byte of
/// - a number that is out of form or of its range, or of what stands there in place of a number or a `*`;
/// - the first of two numbers, where the second is less, or where no `..` follows it, unless it is a length;
/// - the group, where anything else of it is missing, or where its words are too many;
/// - what follows the last group, or the `-`.
pub fn read_domain_for(alloc: Global, text: &str, params: &[Given]) -> Result<Domain, DomainFault>
    requires short { length text.now < 2 ^ 32 }
    requires integers { AllByRecursion IsGiven params.now }
    ensures exact { Gives result (domain_of params.now text.now) }
    ensures params { IfOk result (λ d. map given_in d ≡ params.now) }

    // What is written of the domain is read as the same domain.
    ensures read_back { IfOk result (λ d. domain_of params.now (domain_text d) ≡ Ok d) }
{
    read_parts(alloc, Cursor::new(text.as_bytes()), params)
}

// What stands for these parameters.
#[tactic(auto, using(crate::proofs::Groups::without_params, crate::proofs::Groups::with_params))]
fn read_parts(alloc: Global, cursor: Cursor, params: &[Given]) -> Result<Domain, DomainFault>
    requires start { cursor.at ≡ 0 }
    requires integers { AllByRecursion IsGiven params.now }
    ensures { Gives result (domain_of params.now cursor.entry.text.now) }
{
    if params.is_empty() {
        read_empty(alloc, cursor)
    } else {
        read_groups(alloc, cursor, params)
    }
}

// A `-`, and nothing behind it.
fn read_empty(alloc: Global, mut cursor: Cursor) -> Result<Domain, DomainFault>
    requires { cursor.at ≡ 0 }
    ensures { Gives result (empty_domain cursor.entry.text.now) }
{
    cursor.expect(b"-", 0)?;
    cursor.end()?;
    Ok(Domain::new(alloc, Vec::new(alloc))?)
}

// A group for each parameter, and nothing behind the last.
fn read_groups(alloc: Global, mut cursor: Cursor, params: &[Given]) -> Result<Domain, DomainFault>
    requires { AllByRecursion IsGiven params.now }
    ensures { Gives result (groups_at params.now 0 cursor.entry.text.now cursor.entry.at) }
{
    let mut parts = Vec::new(alloc);
    let mut words = 0;
    for given in params {
        let part = cursor.part(*given, words)?;
        words += part.word_count();
        parts.push(part)?;
    }
    cursor.end()?;
    Ok(Domain::new(alloc, parts)?)
}
