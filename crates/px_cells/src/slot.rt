// What frames and cells of the heap hold.

/// What a stack, an argument, a local, a field or an element holds: a scalar or a reference (Partition I, 8.2.1, without floats).
#[derive(Clone, Copy, PartialEq, Eq)]
pub enum Slot<W> {
    /// A scalar.
    Number(W),
    /// The reference to nothing.
    Null,
    /// The reference to the cell of this number in the heap.
    Cell(u32),
}
