//! Reads the files of the cases in `data/`, and prints where what is read differs from what a case expects.
//!
//! A case has a line that says what it shows, a line `file` with the bytes of a file, a line `read` with what they are read as (`image`, `tables`,
//! `metadata`, `body`, or the signature of a `method`, of a `field`, of `locals` or of a `type`), and then lines that ask: for copies of the file,
//! as `copy the mark stands at the end: 60=3C03`, and by questions, as `at 8192 128`. After `expect` each of these stands with its answer.
#![tactic(auto)]

mod answers;
mod body;
mod image;
mod members;
mod metadata;
mod pieces;
mod question;
mod signature;
mod tables;

use answers::put_answers;
use px_cases::{Case, Tally};
use std::fs;

// Judges a case, whose answers are written into an empty text.
fn judge(rt: &HostRuntime, tally: &mut Tally, text: &mut String, path: &str) -> anyhow::Result<()> {
    let case = Case::read(rt, path)?;
    put_answers(rt, text, &case)?;
    Ok(tally.judge(rt, &case, text.as_str())?)
}

fn main(rt: HostRuntime) -> anyhow::Result<()> {
    let index = fs::read_to_string(&rt, "INDEX")?;
    let mut text = String::new(rt.alloc());
    let mut tally = Tally::new();
    for path in index.lines() {
        text.clear();
        judge(&rt, &mut tally, &mut text, path)?;
    }
    Ok(tally.close(&rt)?)
}
