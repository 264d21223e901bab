//! The instances that have started so far, in a row for each column.

ghost use Rattle.std.specs.Prelude.{◌≡◌, ◌<◌, ◌+◌, ◌-◌, ℕ, Some, None, length, option_map};
ghost use Rattle.order_2d.specs.StartedNodes.{node_in, row_at};

use left_parent::started::StartedNode;
use pipe_model::list::ListOf;
use pipe_model::marks::Marks;
use pipe_model::node::NodeId;

/// The started instances of a column, in order.
pub type StartedColumn = ListOf<StartedNode>;

/// Returns the instance above `x`, if `x` is not a head.
pub(crate) fn above(rows: &[StartedColumn], x: NodeId) -> Option<StartedNode>
    requires begun { x.iteration < length rows.now }
    requires started { (k : ℕ) → x.index ≡ k + 1 → k < length (row_at rows.now x.iteration) }
    ensures none { x.index ≡ 0 → result ≡ None }
    ensures some { (k : ℕ) → x.index ≡ k + 1 → result ≡ Some (node_in (row_at rows.now x.iteration) k) }
{
    if x.index == 0 {
        return None;
    }
    let row = rows[x.iteration as usize].as_slice();
    Some(row[x.index as usize - 1])
}

/// Returns the marks of a started instance.
pub(crate) fn marks_of(node: Option<StartedNode>) -> Option<Marks>
    ensures { result ≡ option_map (λ n. n.marks) node }
{
    match node {
        Some(node) => Some(node.marks),
        None => None,
    }
}

/// Returns the marks of the left parent of `x`, whose index in the left column is given.
pub(crate) fn left_marks(rows: &[StartedColumn], x: NodeId, left: Option<u32>) -> Option<Marks>
    requires begun { x.iteration < length rows.now }
    requires column { (j : ℕ) → left ≡ Some j → 0 < x.iteration }
    requires started { (j : ℕ) → left ≡ Some j → j < length (row_at rows.now (x.iteration - 1)) }
    ensures none { left ≡ None → result ≡ None }
    ensures some { (j : ℕ) → left ≡ Some j → result ≡ Some (node_in (row_at rows.now (x.iteration - 1)) j).marks }
{
    match left {
        Some(j) => {
            let row = rows[x.iteration as usize - 1].as_slice();
            Some(row[j as usize].marks)
        }
        None => None,
    }
}
