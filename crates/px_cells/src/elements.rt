// Elements of arrays.

/// What has 64 bits where an element is read or written, and else has 32.
#[derive(Clone, Copy)]
pub struct Widths {
    /// The index.
    pub index: bool,
    /// The elements.
    pub element: bool,
}
