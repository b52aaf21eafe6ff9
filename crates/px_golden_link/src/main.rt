//! Programs that are linked from raw bodies and assemblies, written as assemblies and linked again: the cases of `data/`.
#![tactic(auto)]

ghost use Rattle.std.specs.Prelude.{◌≡◌, ◌<◌, ◌^◌, length};
ghost use Rattle.px_asm_law_relink.specs.Linked.{IsLinked};

mod bodies;
mod bytes;
mod linking;
mod raw;

use crate::bodies::put_rewritten;
use crate::bytes::put_asked;
use crate::linking::{again, file_of, linked, put_fault};
use crate::raw::put_raw;
use anyhow::bail;
use px_cases::{Case, Tally, file_of as given_file};
use px_program::Program;
use px_program_text::{Out, put_program, text_of};
use std::alloc::{AllocError, Global};
use std::fs;
use std::rt::Files;

// Whether a case asks for the types of the library too.
fn is_whole(case: &Case) -> bool {
    case.value("types") == Some("all")
}

// What a linked program is once it is written, beside what it was.
fn outcome_of(
    alloc: Global,
    program: &Program,
    file: &[u8],
    name: &str,
) -> Result<&'static str, AllocError> {
    let text = text_of(alloc, program)?;
    again(alloc, file, name, text.as_str())
}

// Adds what a linked program is once it is written, and the bytes of its file that are asked for.
fn put_written(
    out: &mut Out,
    alloc: Global,
    program: &Program,
    name: &str,
    case: &Case,
) -> Result<(), AllocError>
    requires { IsLinked program.now }
{
    match file_of(alloc, program)? {
        Some(file) => {
            out.text("written again: ");
            out.text(outcome_of(alloc, program, &file, name)?);
            out.text("\n");
            put_asked(out, case, &file);
        }
        None => out.text("not written\n"),
    }
    Ok(())
}

// Adds the program of a method of an assembly, and what it is once it is written.
fn put_linked(
    out: &mut Out,
    alloc: Global,
    file: &[u8],
    name: &str,
    case: &Case,
) -> Result<(), AllocError>
    requires { length file.now < 2 ^ 31 }
{
    match linked(alloc, file, name) {
        Ok(program) => {
            put_program(out, &program, is_whole(case));
            put_written(out, alloc, &program, name, case)
        }
        Err(fault) => {
            put_fault(out, &fault);
            Ok(())
        }
    }
}

// The line that asks for a method.
fn put_question(out: &mut Out, name: &str) {
    out.text("link");
    out.word(name);
    out.text("\n");
}

// Adds what a line of a case asks of its file.
fn put_answer(
    out: &mut Out,
    alloc: Global,
    case: &Case,
    file: &[u8],
    key: &str,
    value: &str,
) -> anyhow::Result<()>
    requires { length file.now < 2 ^ 31 }
{
    match key {
        "link" => {
            put_question(out, value);
            Ok(put_linked(out, alloc, file, value, case)?)
        }
        "raw" => put_raw(out, alloc, file, value, is_whole(case)),
        "body" => {
            put_rewritten(out, alloc, file);
            Ok(())
        }
        _ => Ok(()),
    }
}

// Adds what all lines of a case ask of its file.
fn put_answers(out: &mut Out, alloc: Global, case: &Case, file: &[u8]) -> anyhow::Result<()> {
    if file.len() >= 1 << 31 {
        bail!("the file is too long");
    }
    for line in case.given().lines() {
        let (key, value) = line.split_once(' ').unwrap_or((line, ""));
        put_answer(out, alloc, case, file, key, value)?;
    }
    Ok(())
}

// What a case comes to.
fn answer(rt: &(impl Files + AllocGlobal), case: &Case) -> anyhow::Result<String> {
    let alloc = rt.alloc();
    let file = given_file(rt, case.value("file").unwrap_or("hex"))?;
    let mut out = Out::new(alloc);
    put_answers(&mut out, alloc, case, &file)?;
    Ok(out.finish()?)
}

// Runs the case of a path.
fn run(
    rt: &(impl Files + AllocGlobal + Print),
    path: &str,
    tally: &mut Tally,
) -> anyhow::Result<()> {
    let case = Case::read(rt, path)?;
    let text = answer(rt, &case)?;
    Ok(tally.judge(rt, &case, text.as_str())?)
}

fn main(rt: HostRuntime) -> anyhow::Result<()> {
    let mut tally = Tally::new();
    let index = fs::read_to_string(&rt, "INDEX")?;
    for path in index.lines() {
        run(&rt, path, &mut tally)?;
    }
    Ok(tally.close(&rt)?)
}
