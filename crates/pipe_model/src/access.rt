//! Accesses to cells.

use crate::list::ListOf;
use crate::node::NodeId;

/// A cell: 0 is the input's cursor, 1 is the output, declared cells follow from 2 in order, an
/// array's elements one after the other.
#[derive(Clone, Copy, PartialEq, Eq)]
pub struct CellId(pub u32);

/// Whether a cell is read or written.
#[derive(Clone, Copy, PartialEq, Eq)]
pub enum AccessKind {
    /// The value of the cell is read.
    Read,
    /// A value is written to the cell.
    Write,
}

/// One access to a cell.
#[derive(Clone, Copy, PartialEq, Eq)]
pub struct Access {
    /// Which cell.
    pub cell: CellId,
    /// Whether it was read or written.
    pub kind: AccessKind,
    /// The value that was read or written.
    pub value: i64,
}

/// An access and the stage instance that made it.
#[derive(Clone, Copy)]
pub struct NodeAccess {
    /// The instance that made it.
    pub node: NodeId,
    /// The access.
    pub access: Access,
}

/// Accesses in the order in which they were made.
pub type Accesses = ListOf<Access>;

/// Accesses with their instances, in the order in which they were made.
pub type NodeAccesses = ListOf<NodeAccess>;
