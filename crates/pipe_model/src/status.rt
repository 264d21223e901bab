//! The status of an iteration.

use crate::column::ColumnEnd;
use crate::node::Kind;

/// The status of an iteration that has begun.
#[derive(Clone, Copy, PartialEq, Eq)]
pub enum Status {
    /// It runs its current instance, the last of its column.
    Running,
    /// Its current instance has ended. The next has this kind and stage number, and is not entered
    /// yet.
    Pending(Kind, i64),
    /// It has ended.
    Completed(ColumnEnd),
}
