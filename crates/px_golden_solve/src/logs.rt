// Logs of conflicts.
use crate::literals::{literal_of, literals_of, number_of};
use crate::transcript::Transcript;
use px_chain::{Chain, Cnf, Log, LogEntry, LogFault, check_log};
use sqlite_items::Items;

// A step of a chain, as `3/1`: on variable 3, with clause 1.
fn step_of(word: &str) -> (u32, u64) {
    let (variable, number) = word.split_once('/').unwrap_or((word, ""));
    (literal_of(variable) / 2, u64::from(number_of(number)))
}

// A chain, as `0 3/1 2/4 = 1 -5`: the first clause, the steps, and the claim.
fn chain_of(told: &mut Transcript, text: &str) -> Chain {
    let (steps, claim) = text.split_once('=').unwrap_or((text, ""));
    let (first, steps) = steps.split_once(' ').unwrap_or((steps, ""));
    let mut rest = Items::new(told.alloc());
    for word in steps.split_whitespace() {
        told.note(rest.push(step_of(word)).is_ok());
    }
    Chain {
        claim: Items::from_vec(literals_of(told, claim)),
        first: u64::from(number_of(first)),
        rest,
    }
}

/// An entry, as `-2 -3 then -1 by 0 3/1 = 2`: the decisions, the last one, and the chain.
pub fn entry_of(told: &mut Transcript, text: &str) -> LogEntry {
    let (decisions, rest) = text.split_once("then ").unwrap_or(("", text));
    let (last, chain) = rest.split_once(" by ").unwrap_or((rest, ""));
    LogEntry {
        decisions: Items::from_vec(literals_of(told, decisions)),
        last: literal_of(last),
        chain: chain_of(told, chain),
    }
}

/// Writes what the checker of logs says.
pub fn put_checked(told: &mut Transcript, cnf: &Cnf, log: &Log) {
    if log.len() >= 1_000_000 {
        return told.line("a long log");
    }
    match check_log(told.alloc(), cnf, log) {
        Ok(()) => told.line("genuine"),
        Err(LogFault::BadEntry { entry }) => told.count("bad entry", u64::from(entry)),
        Err(LogFault::Memory) => told.note(false),
    }
}
