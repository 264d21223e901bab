//! The heaviest path to an instance, traced back through the table.

ghost use Rattle.std.specs.Prelude.{◌≡◌, ◌<◌, ℕ, length, IfOk};
ghost use Rattle.pipe_model.specs.declared.node.NodeId.{NodeId};
ghost use Rattle.pipe_model.specs.Races.Columns.{AreColumns};
ghost use Rattle.pipe_span.specs.HeaviestPaths.{IsTraced, path_weight};
ghost use Rattle.pipe_span.specs.Tables.{AreFew, AreRows, HasPredecessor, IsIn, entry_to, predecessor_of, weight_to};

use crate::entry::{Predecessor, Row};
use crate::rows::entries_of;
use pipe_model::memory::NoMemory;
use pipe_model::node::{NodeId, Nodes};
use std::alloc::Global;

// The instance from which the heaviest path to `x` comes, if it has a predecessor.
fn before(rows: &[Row], x: NodeId) -> Option<NodeId>
    requires bounded { AreFew rows.now }
    requires within { IsIn rows.now x }
    requires predecessor { HasPredecessor rows.now x }
    ensures { result ≡ predecessor_of x (entry_to rows.now x).predecessor }
{
    let entry = entries_of(rows, x.iteration as usize)[x.index as usize];
    match entry.predecessor {
        Predecessor::Absent => None,
        Predecessor::Above => Some(NodeId {
            iteration: x.iteration,
            index: x.index - 1,
        }),
        Predecessor::Left(j) => Some(NodeId {
            iteration: x.iteration - 1,
            index: j as u32,
        }),
    }
}

/// Returns the heaviest path to `last`; of several, the one that the rules for equal weights choose.
/// Returns an error only if memory runs out.
pub fn traced(
    alloc: Global,
    columns: &[Nodes],
    weights: &[u64],
    rows: &[Row],
    last: NodeId,
) -> Result<Vec<NodeId>, NoMemory>
    requires columns { AreColumns columns.now }
    requires bounded { AreFew rows.now }
    requires rows { AreRows columns.now weights.now rows.now }
    requires last { IsIn rows.now last }
    ensures traced { IfOk result (λ path. IsTraced columns.now weights.now last path.items) }
    ensures weight { IfOk result (λ path. path_weight columns.now weights.now path.items ≡ weight_to rows.now last) }
{
    let mut path = Vec::new(alloc);
    let mut x = last;
    while let Some(y) = before(rows, x) {
        path.push(x)?;
        x = y;
    }
    path.push(x)?;
    path.reverse();
    Ok(path)
}
