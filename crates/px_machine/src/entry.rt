// What a stack holds, and what is decided at a site.
use px_program::Event;

/// The kinds of numbers that a stack tells apart: Partition III, 1.1.1, without floats.
#[derive(Clone, Copy, PartialEq, Eq)]
pub enum NumberKind {
    /// A number of 32 bits.
    I,
    /// A number of 64 bits.
    L,
    /// A native number, of 64 bits here.
    N,
}

/// What stands on a stack: a number with its kind, or a reference.
#[derive(Clone, Copy, PartialEq, Eq)]
pub enum Entry<W> {
    Number { kind: NumberKind, scalar: W },
    /// The reference to nothing.
    Null,
    /// The reference to the cell of this number in the heap.
    Cell(u32),
}

/// A site that a run came to, with what is known of it beside the side that was taken.
#[derive(Clone, Copy)]
pub struct Choice<W> {
    pub event: Event,
    /// How far the run was from the other side: Xie, Tillmann, de Halleux and Schulte, DSN 2009. It is 1 at sites that aren't branches on numbers.
    pub gap: u64,
    /// The scalar whose word is the side that was taken.
    pub side: W,
}

/// What began a block of a clause: Partition I, 12.4.2.5.
#[derive(Clone, Copy, PartialEq, Eq)]
pub enum Cause {
    /// The exception in this cell, for which a handler was asked at this offset.
    Exception { cell: u32, at: u32 },
    /// A `leave` from an offset to another one.
    Leave { from: u32, to: u32 },
}
