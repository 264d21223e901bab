//! Nodes of the pipeline dag: the stage instances of iterations.

use crate::list::ListOf;

/// How a stage instance was entered (Lee et al., "On-the-Fly Pipeline Parallelism", SPAA 2013).
#[derive(Clone, Copy, PartialEq, Eq)]
pub enum Kind {
    /// The first instance of an iteration, which includes the loop's test.
    Zero,
    /// By `pipe_wait`, after the left neighbour has passed the stage.
    Wait,
    /// By `pipe_continue`, without waiting.
    Continue,
}

/// A stage instance: its stage number and how it was entered.
#[derive(Clone, Copy, PartialEq, Eq)]
pub struct Node {
    /// The stage number: 0 in the first instance of a column, and rising along it.
    pub number: i64,
    /// How the instance was entered.
    pub kind: Kind,
}

/// The name of a stage instance: its iteration, and its index in the column, both counted from 0.
#[derive(Clone, Copy, PartialEq, Eq)]
pub struct NodeId {
    /// The number of the iteration, and of its column.
    pub iteration: u32,
    /// The index in the column.
    pub index: u32,
}

/// The stage instances of a column, in order.
pub type Nodes = ListOf<Node>;

/// Names of stage instances.
pub type NodeIds = ListOf<NodeId>;
