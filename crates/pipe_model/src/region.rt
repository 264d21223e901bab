//! Regions of a program's text.

/// A region of a program's text. A local belongs to the region that contains its `let`.
#[derive(Clone, Copy)]
pub enum Region {
    /// The declarations of cells.
    Cells,
    /// What runs before the loop.
    Init,
    /// The test of the loop.
    Test,
    /// The body of the loop.
    Body,
    /// What runs after the loop.
    Last,
}
