//! Elements of the two order lists, down-first and right-first, that belong to stage instances (Xu,
//! Lee and Agrawal, "Efficient Parallel Determinacy Race Detection for Two-Dimensional Dags", PPoPP
//! 2018).

/// An element of each list, kept for an instance that has not started.
#[derive(Clone, Copy)]
pub struct Placeholder {
    /// The element of the down-first list.
    pub down_first: u32,
    /// The element of the right-first list.
    pub right_first: u32,
}

/// The elements of an instance that has started, and the placeholders that it added.
#[derive(Clone, Copy)]
pub struct Marks {
    /// The instance's element of the down-first list.
    pub down_first: u32,
    /// The instance's element of the right-first list.
    pub right_first: u32,
    /// For the next instance of the same iteration.
    pub down: Placeholder,
    /// For an instance of the next iteration.
    pub right: Placeholder,
}
