// What a run of a program is.
use sqlite_items::Items;

/// What is decided at a site.
#[derive(Clone, Copy, PartialEq, Eq)]
pub enum SiteKind {
    Shape,
    Branch,
    Switch,
    Bounds,
    Zero,
    Overflow,
    Length,
    Index,
    Assume,
    Assert,
}

/// Where an event happens, by method number and offset, and how many sides it has.
#[derive(Clone, Copy, PartialEq, Eq)]
pub struct Site {
    pub method: u32,
    pub offset: u32,
    pub kind: SiteKind,
    pub arity: u32,
}

/// A site that a run came to, and the side that it took there, below the arity. A list of events is a path.
#[derive(Clone, Copy, PartialEq, Eq)]
pub struct Event {
    pub site: Site,
    pub side: u32,
}

/// How far a run may go: its steps, its frames and the lengths of the arrays that it makes.
#[derive(Clone, Copy, PartialEq, Eq)]
pub struct Bounds {
    pub steps: u32,
    pub depth: u32,
    pub length: u32,
}

/// How far an exploration may go: its runs, its spent sides and the conflicts for each side.
#[derive(Clone, Copy, PartialEq, Eq)]
pub struct Limits {
    pub runs: u32,
    pub spent: u32,
    pub conflicts: u32,
}

/// The argument words of a run, as patterns.
pub type Words = Items<u64>;

/// What a method returned.
#[derive(Clone, Copy, PartialEq, Eq)]
pub enum Value {
    Nothing,
    /// The pattern of an integer.
    Number(u64),
    Null,
    Object,
}

/// How a run ended.
#[derive(Clone, Copy, PartialEq, Eq)]
pub enum End {
    Returned(Value),
    /// An exception of the type of this number left the method.
    Threw(u32),
    AssertFailed,
    Assumed,
    StepBound,
    DepthBound,
    HeapBound,
    /// The run came to an instruction that isn't run: the method's number and the offset.
    Outside(u32, u32),
}

/// A run: its words, its events with one gap each, and its end.
/// A gap is how far the words were from the other side: Xie, Tillmann, de Halleux and Schulte, DSN 2009.
#[derive(Drop)]
pub struct Record {
    pub words: Words,
    pub events: Items<Event>,
    pub gaps: Items<u64>,
    pub end: End,
}
