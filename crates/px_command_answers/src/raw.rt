// What the bytes of a raw body give.
ghost use Rattle.std.specs.Prelude.{◌≡◌, ◌<◌, ◌≤◌, ◌^◌, ℕ, List, Ok, IfErr, IfOk, length};
ghost use Rattle.std.specs.List.{AllByRecursion};
ghost use Rattle.px_code.specs.Body.{IsFormed, body_of};
ghost use Rattle.px_link.specs.Link.{BlamesRaw};
ghost use Rattle.px_link.specs.Raw.{program_of};
ghost use Rattle.px_program.specs.Arguments.{AreGiven, arguments_of};
ghost use Rattle.px_program.specs.Formed.{IsInteger, IsWellFormed};
ghost use Rattle.px_command_answers.specs.Answers.{ExplainsRaw, no_arrays};

use crate::answer::{Answer, Refusal, told};
use px_code::{Body, BodyFault, read_body};
use px_link::{RawFault, link_raw};
use px_program::{Place, Program};
use std::alloc::{AllocError, Global};

// No parameter is an array.
fn no_arrays(alloc: Global, places: &[Place]) -> Result<Vec<bool>, AllocError>
    ensures { IfOk result (λ arrays. arrays.items ≡ no_arrays places.now) }
{
    places.iter().map(|_| false).collect(alloc)
}

// The program of a body none of whose parameters is an array.
fn program_of(alloc: Global, body: &Body, places: &[Place]) -> Result<Program, RawFault>
    requires formed { IsFormed body.now }
    requires few { length places.now ≤ 16 }
    requires integers { AllByRecursion IsInteger places.now }
    ensures program { IfOk result (λ p. p ≡ program_of body.now places.now (no_arrays places.now)) }
    ensures well_formed { IfOk result IsWellFormed }
    ensures arguments { IfOk result (λ program. AreGiven program.types (arguments_of program)) }
    ensures no_locals { IfOk result (λ _. body.now.locals_token ≡ 0) }
    ensures fault { IfErr result (BlamesRaw body.now) }
{
    let arrays = no_arrays(alloc, places)?;
    link_raw(alloc, body, places, &arrays)
}

// The answer to a body that isn't linked.
fn unlinked(fault: RawFault) -> Answer
    ensures { (bytes : List ℕ) (places : List Place) (text : List ℕ) (body : Body) → body_of bytes ≡ Ok body → BlamesRaw body fault → ExplainsRaw bytes places text result }
{
    match fault {
        RawFault::Memory => Answer::Memory,
        RawFault::RawLocals => Answer::Refused(Refusal::RawLocals),
    }
}

// What a body gives over the domain of the text.
fn linked(alloc: Global, body: &Body, places: &[Place], text: &str) -> Answer
    requires formed { IsFormed body.now }
    requires text { length text.now < 2 ^ 32 }
    requires few { length places.now ≤ 16 }
    requires integers { AllByRecursion IsInteger places.now }
    ensures { (bytes : List ℕ) → body_of bytes ≡ Ok body.now → ExplainsRaw bytes places.now text.now result }
{
    match program_of(alloc, body, places) {
        Ok(program) => told(alloc, program, text),
        Err(fault) => unlinked(fault),
    }
}

/// What the bytes of a body give, with parameters of these places: the first refusal in the order of the body, its linking,
/// its typing, the text of the domain, the form of the body and the size of the domain, or a report.
pub fn answer_of_raw(alloc: Global, bytes: &[u8], places: &[Place], text: &str) -> Answer
    requires bytes { length bytes.now < 2 ^ 31 }
    requires text { length text.now < 2 ^ 32 }
    requires few { length places.now ≤ 16 }
    requires integers { AllByRecursion IsInteger places.now }
    ensures { ExplainsRaw bytes.now places.now text.now result }
{
    match read_body(alloc, bytes) {
        Ok(body) => linked(alloc, &body, places, text),
        Err(BodyFault::Memory) => Answer::Memory,
        Err(BodyFault::Bad { kind, at }) => Answer::Refused(Refusal::Body(kind, at, 0)),
    }
}
