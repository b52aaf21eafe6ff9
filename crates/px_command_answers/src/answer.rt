// What the bytes of a file and the text of a domain give.
ghost use Rattle.std.specs.Prelude.{◌≡◌, ◌<◌, ◌≤◌, ◌^◌, ℕ, List, Ok, length, true};
ghost use Rattle.px_domain.specs.Domain.{ranges_of, size_of};
ghost use Rattle.px_domain.specs.Givens.{AreFor, givens_of};
ghost use Rattle.px_domain.specs.Grammar.{domain_of};
ghost use Rattle.px_program.specs.Arguments.{AreGiven, arguments_of};
ghost use Rattle.px_program.specs.Formed.{IsWellFormed};
ghost use Rattle.px_verify.specs.Verdict.{IsTyped};
ghost use Rattle.px_command_answers.specs.Answers.{Explains, HasCause, is_explored};
ghost use Rattle.px_command_words.specs.Words.{TakesIntegers};

use crate::form::is_explored;
use crate::method::answer_of_method;
use crate::raw::answer_of_raw;
use px_code::BodyKind;
use px_command_words::Target;
use px_domain::{Domain, DomainFault, read_domain};
use px_meta::MetaKind;
use px_pe::PeFault;
use px_program::{Bounds, Limits, Program};
use px_session::explore_one;
use px_simple::{Simple, SimpleFault, simple};
use px_tables::TableFault;
use px_tests::Findings;
use px_verify::{Verified, VerifyFault, verify};
use px_verify_flow::VerifyKind;
use px_verify_kinds::Kind;
use sqlite_items::Items;
use std::alloc::Global;

/// Why what the words ask for isn't explored.
#[derive(Drop)]
pub enum Refusal {
    /// The image's first fault.
    Pe(PeFault),
    /// The first fault of the metadata's tables.
    Tables(TableFault),
    /// The first fault of the metadata's rows, and the token of its row.
    Meta(MetaKind, u32),
    /// No method has the name.
    NoMethod,
    /// More than one method has the name.
    Ambiguous,
    /// The method has no body that can be read.
    NoBody,
    /// The first parameter of the method, counted from 0, that can't be given.
    BadParameter(u32),
    /// The method needs an object, and its class has no constructor that makes one of nothing.
    NoMaker,
    /// A body's first fault, its place, and the number of the body's method.
    Body(BodyKind, u32, u32),
    /// The raw body names a signature of locals, which only an assembly has.
    RawLocals,
    /// The first instruction that the typing refuses, by its method's number and its offset, what it finds on the stack, with the bottom first, and what is wrong.
    Verify {
        method: u32,
        offset: u32,
        stack: Items<Kind>,
        kind: VerifyKind,
    },
    /// The place of the first fault of the domain's text.
    Domain(u32),
    /// The body, the method or the domain is of a form that isn't explored yet.
    Unsupported,
}

/// What is answered, before anything is written.
#[derive(Drop)]
pub enum Answer {
    /// A report of this program.
    Found(Simple, Findings),
    Refused(Refusal),
    /// There was no memory.
    Memory,
}

// How far a run goes where the words don't say.
const BOUNDS: Bounds = Bounds {
    steps: 2000,
    depth: 128,
    length: 16,
};

// How far an exploration goes where the words don't say.
const LIMITS: Limits = Limits {
    runs: 1000,
    spent: 64,
    conflicts: 1000,
};

// The most tuples that are run.
const MOST_TUPLES: u32 = 1000;

// What exploring a program of the form that is explored gives.
#[tactic(auto, using(crate::proofs::Exploring::places_are))]
fn explored(alloc: Global, program: Simple, domain: Domain) -> Answer
    requires typed { IsTyped program }
    requires form { is_explored program ≡ true }
    requires parts { AreFor program domain }
    requires few { size_of (ranges_of domain) ≤ MOST_TUPLES }
    ensures { (text : List ℕ) → domain_of (givens_of program) text ≡ Ok domain → HasCause program text result }
{
    match explore_one(alloc, &program, domain, BOUNDS, LIMITS) {
        Ok(findings) => Answer::Found(program, findings),
        Err(_) => Answer::Memory,
    }
}

// What a typed program gives over a domain.
#[tactic(auto, using(crate::proofs::Exploring::unsupported_form, crate::proofs::Exploring::unsupported_size, crate::proofs::Exploring::unsupported_code))]
fn of_domain(alloc: Global, verified: Verified, domain: Domain) -> Answer
    requires typed { IsTyped verified }
    requires parts { AreFor verified domain }
    ensures { (text : List ℕ) → domain_of (givens_of verified) text ≡ Ok domain → HasCause verified text result }
{
    if !is_explored(verified.program()) {
        return Answer::Refused(Refusal::Unsupported);
    }
    if domain.size_within(MOST_TUPLES).is_none() {
        return Answer::Refused(Refusal::Unsupported);
    }
    match simple(alloc, verified) {
        Ok(program) => explored(alloc, program, domain),
        Err(SimpleFault::Memory) => Answer::Memory,
        Err(SimpleFault::At(_)) => Answer::Refused(Refusal::Unsupported),
    }
}

// What a typed program gives over the domain of the text.
fn of_verified(alloc: Global, verified: Verified, text: &str) -> Answer
    requires typed { IsTyped verified }
    requires text { length text.now < 2 ^ 32 }
    requires given { AreGiven verified.types (arguments_of verified) }
    ensures { HasCause verified text.now result }
{
    match read_domain(alloc, text, verified.program()) {
        Ok(domain) => of_domain(alloc, verified, domain),
        Err(DomainFault::Memory) => Answer::Memory,
        Err(DomainFault::Bad { at }) => Answer::Refused(Refusal::Domain(at)),
    }
}

/// What a program gives over the domain of the text.
pub fn told(alloc: Global, program: Program, text: &str) -> Answer
    requires formed { IsWellFormed program }
    requires text { length text.now < 2 ^ 32 }
    requires given { AreGiven program.types (arguments_of program) }
    ensures { HasCause program text.now result }
{
    match verify(alloc, program) {
        Ok(verified) => of_verified(alloc, verified, text),
        Err(VerifyFault::Memory) => Answer::Memory,
        Err(
            VerifyFault::Bad {
                method,
                offset,
                stack,
                kind,
            },
        ) => Answer::Refused(Refusal::Verify {
            method,
            offset,
            stack,
            kind,
        }),
    }
}

/// What the bytes of a file and the text of a domain give, with what is explored of the file: the first refusal in the order of
/// the file, the method and its body, its linking, its typing, the text of the domain, the form of the method and the size of the domain, or a report.
pub fn answer_of(alloc: Global, bytes: &[u8], target: Target, text: &str) -> Answer
    requires bytes { length bytes.now < 2 ^ 31 }
    requires text { length text.now < 2 ^ 32 }
    requires integers { TakesIntegers target }
    ensures { Explains bytes.now target.entry text.now result }
{
    match target {
        Target::Raw(_, places) => answer_of_raw(alloc, bytes, places, text),
        Target::Method(name) => answer_of_method(alloc, bytes, name, text),
    }
}
