// Raw bodies, linked.
ghost use Rattle.std.specs.Prelude.{◌≡◌, ◌<◌, ◌≤◌, ◌^◌, length, IsTrue};
ghost use Rattle.std.specs.List.{AllByRecursion};
ghost use Rattle.px_code.specs.Body.{IsFormed};
ghost use Rattle.px_program.specs.Formed.{IsInteger};

use crate::linking::put_body_fault;
use anyhow::bail;
use px_code::{Body, BodyFault, read_body};
use px_link::{RawFault, link_raw};
use px_program::{Place, Program};
use px_program_text::{Out, integer_word, put_program};
use std::alloc::Global;

static INTEGERS: [Place; 12] = [
    Place::Bool,
    Place::Char,
    Place::I1,
    Place::U1,
    Place::I2,
    Place::U2,
    Place::I4,
    Place::U4,
    Place::I8,
    Place::U8,
    Place::N,
    Place::UN,
];

// The parameters of a raw method: the places of integers, and which of them are those of an array's elements.
#[derive(Drop)]
struct Params {
    places: Vec<Place>,
    arrays: Vec<bool>,
}

// Why the bytes of a raw body give no program: there are too many parameters, the body isn't read, or it isn't linked.
#[derive(Drop)]
enum NoProgram {
    TooMany,
    Unread(BodyFault),
    Unlinked(RawFault),
}

fn integer_named(word: &str) -> Option<Place> {
    for place in &INTEGERS {
        if integer_word(*place) == word {
            return Some(*place);
        }
    }
    None
}

// The parameters of these words, each an integer's, or an integer's and `[]`.
fn params_of(alloc: Global, words: &str) -> anyhow::Result<Params> {
    let mut params = Params {
        places: Vec::new(alloc),
        arrays: Vec::new(alloc),
    };
    for word in words.split_whitespace() {
        let element = word.strip_suffix("[]");
        match integer_named(element.unwrap_or(word)) {
            Some(place) => params.places.push(place)?,
            None => bail!("{word} is no integer"),
        }
        params.arrays.push(element.is_some())?;
    }
    Ok(params)
}

fn are_integers(places: &[Place]) -> bool
    ensures { IsTrue result → AllByRecursion IsInteger places.now }
{
    match places {
        [] => true,
        [Place::Ref(_), ..] => false,
        [_, rest @ ..] => are_integers(rest),
    }
}

// The program of a body.
fn program_of(alloc: Global, body: &Body, params: &Params) -> Result<Program, NoProgram>
    requires { IsFormed body.now }
{
    let places = params.places.as_slice();
    let arrays = params.arrays.as_slice();
    if places.len() > 16 || arrays.len() != places.len() || !are_integers(places) {
        return Err(NoProgram::TooMany);
    }
    link_raw(alloc, body, places, arrays).map_err(NoProgram::Unlinked)
}

// The program of the bytes of a body.
fn linked(alloc: Global, bytes: &[u8], params: &Params) -> Result<Program, NoProgram>
    requires { length bytes.now < 2 ^ 31 }
{
    match read_body(alloc, bytes) {
        Ok(body) => program_of(alloc, &body, params),
        Err(fault) => Err(NoProgram::Unread(fault)),
    }
}

// The line of a body that isn't linked.
fn put_raw_fault(out: &mut Out, fault: RawFault) {
    match fault {
        RawFault::Memory => out.text("fault Memory\n"),
        RawFault::RawLocals => out.text("fault RawLocals\n"),
    }
}

// The line of what gives no program.
fn put_fault(out: &mut Out, fault: &NoProgram) {
    match fault {
        NoProgram::TooMany => out.text("more than 16 parameters\n"),
        NoProgram::Unread(fault) => put_body_fault(out, *fault, 0),
        NoProgram::Unlinked(fault) => put_raw_fault(out, *fault),
    }
}

/// Adds the program of the bytes of a body with parameters of these words, or why there is none.
pub fn put_raw(
    out: &mut Out,
    alloc: Global,
    bytes: &[u8],
    words: &str,
    all: bool,
) -> anyhow::Result<()>
    requires { length bytes.now < 2 ^ 31 }
{
    let params = params_of(alloc, words)?;
    match linked(alloc, bytes, &params) {
        Ok(program) => put_program(out, &program, all),
        Err(fault) => put_fault(out, &fault),
    }
    Ok(())
}
