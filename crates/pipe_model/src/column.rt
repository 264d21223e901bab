//! Columns of the pipeline dag: iterations as lists of their stage instances.

use crate::list::ListOf;
use crate::node::Nodes;
use crate::trap::Trap;

/// How an iteration ended.
#[derive(Clone, Copy, PartialEq, Eq)]
pub enum ColumnEnd {
    /// At the end of the loop's body.
    End,
    /// By a false test, which closes the loop.
    Closed,
    /// By a trap, which in instance 0 closes the loop too.
    Trapped(Trap),
}

/// An iteration: its stage instances in order, and its end if it has ended.
#[derive(Drop)]
pub struct Column {
    /// The stage instances that were entered.
    pub nodes: Nodes,
    /// The end; `None` while the iteration goes on.
    pub end: Option<ColumnEnd>,
}

/// The columns of a dag, iteration 0 first.
pub type Columns = ListOf<Column>;
