// What a report is written from.
use px_domain::Domain;
use px_io::Word;
use px_program::{Bounds, Limits, Record};
use sqlite_items::Items;

/// What was explored.
#[derive(Drop)]
pub enum Input {
    /// A raw method, by the names of its parameters' types.
    Raw(Word),
    /// A method of an assembly, by its name.
    Method(Word),
}

/// What an exploration found: a record for each path, and the number of sides of their tree that lead nowhere.
#[derive(Drop)]
pub struct Findings {
    pub domain: Domain,
    pub bounds: Bounds,
    pub limits: Limits,
    pub records: Items<Record>,
    pub refuted: u64,
}
