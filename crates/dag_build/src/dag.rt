//! The dag of columns, with jumps that decide which instances precede which.

ghost use Rattle.std.specs.Prelude.{◌≡◌, ◌<◌, ◌≤◌, ◌+◌, ◌↔◌, length, IfOk, IsTrue};
ghost use Rattle.pipe_model.specs.Races.Columns.{nodes_at, IsNodeOf, node_columns};
ghost use Rattle.pipe_model.specs.Races.Dag.{Precedes};
ghost use Rattle.dag_build.specs.Jumps.{MovesTo};
ghost use Rattle.dag_build.specs.NodeColumns.{AreRising};

use crate::jumps::{Jumps, jumped, levels, nodes_of};
use pipe_model::column::{Column, Columns};
use pipe_model::list::ListOf;
use pipe_model::memory::NoMemory;
use pipe_model::node::{Node, NodeId, Nodes};
use std::alloc::Global;
use std::marker::Model;

/// The dag of columns of instances, redundant edges included. Contracts see it as these columns.
#[derive(Drop)]
pub struct Dag {
    columns: ListOf<Nodes>,
    levels: ListOf<Jumps>,
}

impl Model for Dag {
    ghost use Rattle.std.specs.Prelude.{List};
    ghost use Rattle.pipe_model.specs.declared.node.Node.{Node};
    ghost use Rattle.dag_build.specs.Jumps.{AreLevels};

    ghost Value = { List (List Node) };

    ghost view = { λ d. d.columns };

    ghost invariant = { λ d. AreLevels d.columns d.levels };
}

// The columns without their ends.
fn copied_columns(alloc: Global, columns: &[Column]) -> Result<ListOf<Nodes>, NoMemory>
    ensures { IfOk result (λ copies. copies ≡ node_columns columns.now) }
{
    let mut copies = ListOf::with_capacity(alloc, columns.len())?;
    for column in columns {
        let nodes = Vec::from_slice(alloc, column.nodes.as_slice())?;
        copies.push(ListOf::from_vec(nodes))?;
    }
    Ok(copies)
}

impl Dag {
    /// Returns the dag of the columns, whose stage numbers must rise. The dag takes one word for
    /// each instance and each doubling of the number of columns. Returns an error only if memory
    /// runs out.
    pub fn of(alloc: Global, columns: &Columns) -> Result<Dag, NoMemory>
        requires { AreRising (node_columns columns.now) }
        ensures { IfOk result (λ dag. dag ≡ node_columns columns.now) }
    {
        let columns = copied_columns(alloc, columns.as_slice())?;
        let levels = levels(alloc, columns.as_slice())?;
        Ok(Dag { columns, levels })
    }

    /// Returns the instances of column `i`; none if there is no such column.
    pub(crate) fn nodes(&self, i: usize) -> &[Node]
        ensures { result.now ≡ nodes_at self.now i }
    {
        nodes_of(self.columns.as_slice(), i)
    }

    /// Returns the first index of column `to` that is reachable from index `place` or a later index
    /// of column `from`; the length of column `to` if there is none.
    pub(crate) fn moved(&self, from: usize, place: usize, to: usize) -> usize
        requires order { from ≤ to }
        requires within { to < length self.now }
        ensures { MovesTo self.now from place to result }
    {
        if from == to {
            return place;
        }
        let columns = self.columns.as_slice();
        let levels = self.levels.as_slice();
        let mut column = from;
        let mut front = place;
        for k in (0..levels.len()).rev() {
            (column, front) = jumped(columns, &levels[k], column, front, to);
        }
        front
    }

    /// Returns whether a path of at least one edge leads from `a` to `b`. Takes one or two look-ups
    /// for each doubling of the number of columns.
    pub fn precedes(&self, a: NodeId, b: NodeId) -> bool
        requires a_in { IsNodeOf self.now a }
        requires b_in { IsNodeOf self.now b }
        ensures { IsTrue result ↔ Precedes self.now a b }
    {
        if b.iteration < a.iteration {
            return false;
        }
        if b.iteration == a.iteration {
            return a.index < b.index;
        }
        let front = self.moved(a.iteration as usize, a.index as usize, b.iteration as usize);
        front <= b.index as usize
    }
}
