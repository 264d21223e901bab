//! Reports of determinacy races.

use crate::access::{AccessKind, CellId};
use crate::list::ListOf;
use crate::node::NodeId;

/// A racy cell with two conflicting accesses of parallel instances, the earlier one first, each
/// with its instance, stage number and kind.
#[derive(Clone, Copy, PartialEq, Eq)]
pub struct Report {
    /// The cell on which the two race.
    pub cell: CellId,
    /// The instance of the access that was made first.
    pub earlier: NodeId,
    /// The stage number of that instance.
    pub earlier_number: i64,
    /// Whether that access reads or writes.
    pub earlier_kind: AccessKind,
    /// The instance of the access that was made later.
    pub later: NodeId,
    /// The stage number of that instance.
    pub later_number: i64,
    /// Whether that access reads or writes.
    pub later_kind: AccessKind,
}

/// At most one report for each cell, rising by cell.
pub type Reports = ListOf<Report>;
