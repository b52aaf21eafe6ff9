// How many cases hold.
use crate::case::Case;
use std::io;

/// How many cases came to what was expected, and how many didn't.
#[derive(Clone, Copy)]
pub struct Tally {
    held: u32,
    differed: u32,
}

impl Tally {
    /// No case was run.
    pub fn new() -> Tally {
        Tally {
            held: 0,
            differed: 0,
        }
    }

    /// Counts a case, and prints how what it came to differs from what is expected: the first line that does.
    pub fn judge(&mut self, rt: &impl Print, case: &Case, got: &str) -> io::Result<()> {
        if got == case.expected() {
            self.held = self.held.saturating_add(1);
            return Ok(());
        }
        self.differed = self.differed.saturating_add(1);
        rt.println(case.path())?;
        rt.println(case.title())?;
        put_difference(rt, case.expected(), got)
    }

    /// Prints how many cases differed, and that all others hold.
    pub fn close(&self, rt: &impl Print) -> io::Result<()> {
        let differed = self.differed;
        println!(rt; "{differed} differed; all others hold")
    }
}

// The first line in which two texts differ, of each.
fn put_difference(rt: &impl Print, expected: &str, got: &str) -> io::Result<()> {
    let mut wanted = expected.lines();
    for line in got.lines() {
        let want = wanted.next().unwrap_or("(no line)");
        if want != line {
            return put_lines(rt, want, line);
        }
    }
    put_lines(
        rt,
        wanted.next().unwrap_or("(another end of line)"),
        "(no line)",
    )
}

fn put_lines(rt: &impl Print, want: &str, line: &str) -> io::Result<()> {
    println!(rt; "  expected {want}")?;
    println!(rt; "  got      {line}")
}
