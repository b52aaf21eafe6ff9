//! Finds an argument tuple for each path of a method.
#![tactic(auto)]

use px_command::{Status, pex_one};
use px_io::{FileShelf, StdSink, Word};
use std::alloc::{AllocError, Global};
use std::env;
use std::io::ErrorKind;
use std::process::ExitCode;

// The words of the command line, without the program's name.
// Where one of them isn't text there are none, so that the command line is one that is out of form.
fn words_of(rt: &HostRuntime) -> Result<Vec<Word>, AllocError> {
    let mut words = Vec::new(rt.alloc());
    let args = match env::args(rt) {
        Ok(args) => args,
        Err(e) if e.kind() == ErrorKind::OutOfMemory => return Err(AllocError),
        Err(_) => return Ok(words),
    };
    for arg in args.skip(1) {
        words.push(Word::new(rt.alloc(), arg.as_str())?)?;
    }
    Ok(words)
}

fn main(rt: HostRuntime) -> ExitCode {
    let status = match words_of(&rt) {
        Ok(words) => {
            let mut shelf = FileShelf::new(&rt);
            let mut out = StdSink::new(&rt);
            pex_one(rt.alloc(), words.as_slice(), &mut shelf, &mut out)
        }
        Err(_) => Status::NoMemory,
    };
    ExitCode::from(status.number())
}
