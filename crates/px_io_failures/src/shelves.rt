// What shelves answer, with ample memory.
use px_io::{FetchFault, Fetched, FileShelf, MemShelf, Shelf, Word};
use std::alloc::{AllocError, Global};
use std::fs;
use std::process::Abort;
use std::test::Fail;

// The answer of a fetch through the bound: the content, or a word for another answer.
fn shown<S: Shelf>(
    shelf: &mut S,
    alloc: Global,
    name: &str,
    limit: u32,
) -> Result<Vec<u8>, AllocError> {
    match shelf.fetch(alloc, name, limit) {
        Ok(Fetched::Bytes(bytes)) => Ok(bytes),
        Ok(Fetched::Absent) => b"absent".to_vec(alloc),
        Ok(Fetched::TooLong) => b"too long".to_vec(alloc),
        Err(FetchFault::Memory) => b"memory".to_vec(alloc),
        Err(FetchFault::Failed) => b"failed".to_vec(alloc),
    }
}

// A call: the name, the limit, and the answer that is wanted.
type Call = (&'static str, u32, &'static [u8]);

fn check_calls<S: Shelf>(
    rt: &impl Abort,
    alloc: Global,
    shelf: &mut S,
    calls: &[Call],
) -> Result<(), Fail> {
    for (name, limit, want) in calls {
        let answer = shown(shelf, alloc, name, *limit)?;
        assert!(rt; answer.as_slice() == *want, "{name} within {limit}");
    }
    Ok(())
}

fn file(alloc: Global, name: &str, content: &[u8]) -> Result<(Word, Vec<u8>), AllocError> {
    Ok((Word::new(alloc, name)?, content.to_vec(alloc)?))
}

// Of two files of one name the first counts; the third call fails.
static IN_MEMORY: [Call; 5] = [
    ("first", 5, b"12345"),
    ("first", 4, b"too long"),
    ("first", 5, b"failed"),
    ("second", 5, b"absent"),
    ("empty", 0, b""),
];

#[test]
fn a_shelf_in_memory_answers_by_name_length_and_call(rt: HostRuntime) -> Result<(), Fail> {
    let alloc = rt.alloc();
    let mut files = Vec::new(alloc);
    files.push(file(alloc, "first", b"12345")?)?;
    files.push(file(alloc, "first", b"other")?)?;
    files.push(file(alloc, "empty", b"")?)?;
    let mut shelf = MemShelf::new(files, [2].to_vec(alloc)?);
    check_calls(&rt, alloc, &mut shelf, &IN_MEMORY)?;
    let counts = shelf.counts();
    assert!(rt; counts.faults == 1 && counts.misses == 2);
    Ok(())
}

// A folder opens, and doesn't read.
static OF_FILES: [Call; 5] = [
    ("short", 5, b"12345"),
    ("short", 4, b"too long"),
    ("long", 39999, b"too long"),
    ("missing", 5, b"absent"),
    (".", 5, b"failed"),
];

#[test]
fn a_shelf_of_files_reads_them(rt: HostRuntime) -> Result<(), Fail> {
    let alloc = rt.alloc();
    let mut long = Vec::new(alloc);
    for n in 0..40000u32 {
        long.push((n % 251) as u8)?;
    }
    fs::write(&rt, "short", "12345")?;
    fs::write(&rt, "long", long.as_slice())?;
    let mut shelf = FileShelf::new(&rt);
    check_calls(&rt, alloc, &mut shelf, &OF_FILES)?;
    let whole = shown(&mut shelf, alloc, "long", 40000)?;
    assert!(rt; whole == long);
    fs::remove_file(&rt, "short")?;
    fs::remove_file(&rt, "long")?;
    Ok(())
}

#[test]
fn a_word_has_its_text(rt: HostRuntime) -> Result<(), Fail> {
    for text in ["", "explore", "é"] {
        let word = Word::new(rt.alloc(), text)?;
        assert!(rt; word.text() == text);
    }
    Ok(())
}
