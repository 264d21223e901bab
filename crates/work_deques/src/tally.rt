//! Which tasks a deque may hold, and how they are counted.

use std::collections::LinkedList;

/// A test of tasks, and a number for each, by which tallies count it. It has no calls, and is a
/// parameter of the deques: each task in them meets it.
pub trait TaskTest<T> {
    ghost use Rattle.std.specs.Prelude.{ℕ};

    /// Whether a task may be in a deque.
    ghost meets: { T → Type 0 };

    /// The number of a task.
    ghost tag: { T → ℕ };
}

/// What one end of a deque has put in and taken out, by the numbers of the tasks, oldest first, and how
/// many parts it has of the right to know the deque's account. Only contracts speak of tallies; no
/// value of this type is made.
pub struct Tally {
    pub parts: u64,
    pub put: LinkedList<u64>,
    pub taken: LinkedList<u64>,
}
