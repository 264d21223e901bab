//! The stage numbers of columns.

ghost use Rattle.std.specs.Prelude.{◌≡◌, IfOk, map};
ghost use Rattle.left_parent.specs.Parents.{numbers_of};
ghost use Rattle.pipe_model.specs.Races.Columns.{node_columns};
ghost use Rattle.pipe_model.specs.declared.node.Node.{Node as PlainNode};

use pipe_model::column::Column;
use pipe_model::list::{ListOf, Numbers};
use pipe_model::memory::NoMemory;
use pipe_model::node::Node;
use std::alloc::Global;

// The stage numbers of a column.
fn stage_numbers(alloc: Global, nodes: &[Node]) -> Result<Numbers, NoMemory>
    ensures { IfOk result (λ numbers. numbers ≡ map (λ (n : PlainNode). n.number) nodes.now) }
{
    let mut numbers = ListOf::with_capacity(alloc, nodes.len())?;
    for node in nodes {
        numbers.push(node.number)?;
    }
    Ok(numbers)
}

/// Returns the stage numbers of each column. Returns an error only if memory runs out.
pub(crate) fn column_numbers(alloc: Global, columns: &[Column]) -> Result<ListOf<Numbers>, NoMemory>
    ensures { IfOk result (λ rows. rows ≡ numbers_of (node_columns columns.now)) }
{
    let mut rows = ListOf::with_capacity(alloc, columns.len())?;
    for column in columns {
        rows.push(stage_numbers(alloc, column.nodes.as_slice())?)?;
    }
    Ok(rows)
}
