//! The left parents of instances.

ghost use Rattle.std.specs.Prelude.{◌≡◌, ◌<◌, ◌^◌, ℕ, List, length, map};
ghost use Rattle.left_parent.specs.Parents.{IsAbove, numbers_of, parent_by};
ghost use Rattle.pipe_model.specs.Orders.LeftParent.{last_up_to, left_parent};
ghost use Rattle.pipe_model.specs.Races.Columns.{IsNodeOf, IsRising, nodes_at, node_columns};
ghost use Rattle.pipe_model.specs.declared.node.Node.{Node as PlainNode};

use crate::search::find;
use crate::started::StartedNode;
use pipe_model::column::Column;
use pipe_model::list::Numbers;
use pipe_model::node::{Kind, Node, NodeId};

// The left parent of an instance below a head, from the numbers of the left column and the joined
// index of the instance above.
fn parent_below(node: Node, numbers: &[i64], joined: u32) -> Option<u32>
    requires rising { (nodes : List PlainNode) × (numbers.now ≡ map (λ n. n.number) nodes) × IsRising nodes }
    requires bounded { length numbers.now < 2 ^ 32 }
    ensures { (nodes : List PlainNode) → numbers.now ≡ map (λ n. n.number) nodes → result ≡ parent_by node.kind joined
        (last_up_to nodes node.number) }
{
    match node.kind {
        Kind::Wait => find(numbers, node.number, joined),
        Kind::Zero | Kind::Continue => None,
    }
}

/// Returns the index in the left column of the left parent of `x`, if it has one. `numbers` has the
/// stage numbers of each column, and `above` is the instance above `x`, if there is one. Binary search.
pub fn left_index(
    columns: &[Column],
    numbers: &[Numbers],
    x: NodeId,
    above: Option<StartedNode>,
) -> Option<u32>
    requires node { IsNodeOf (node_columns columns.now) x }
    requires numbers { numbers.now ≡ numbers_of (node_columns columns.now) }
    requires rising { (i : ℕ) → IsRising (nodes_at (node_columns columns.now) i) }
    requires bounded { (i : ℕ) → length (nodes_at (node_columns columns.now) i) < 2 ^ 32 }
    requires above { IsAbove (node_columns columns.now) x.iteration x.index above }
    ensures { result ≡ left_parent (node_columns columns.now) x.iteration x.index }
{
    if x.iteration == 0 {
        return None;
    }
    match above {
        None => Some(0),
        Some(above) => {
            let node = columns[x.iteration as usize].nodes.as_slice()[x.index as usize];
            let left = numbers[x.iteration as usize - 1].as_slice();
            parent_below(node, left, above.joined)
        }
    }
}
