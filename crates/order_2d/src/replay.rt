//! The two orders of a run that has been logged.

ghost use Rattle.std.specs.Prelude.{◌≡◌, ◌↔◌, ◌<◌, ◌≤◌, ◌+◌, ◌*◌, ◌++◌, ◌∷◌, [], All, IfOk, OnOk, length, slice_set};
ghost use Rattle.order_2d.specs.LogStarts.{IsOwnLog, log_columns, log_starts};
ghost use Rattle.order_2d.specs.OrderPairs.{AreInserted, HasRoom, down_taken, marks_after, right_taken, with_start};
ghost use Rattle.order_2d.specs.ReplayedOrders.{OrdersArePrecedes, marks_of_starts};
ghost use Rattle.order_2d.specs.StartedNodes.{CanReplay, HasLists, HasStarted, no_rows, row_at, started_node};
ghost use Rattle.pipe_model.specs.Orders.GrowingLists.{AreIn};
ghost use Rattle.pipe_model.specs.Orders.OrderList.{list_of_log};
ghost use Rattle.pipe_model.specs.Orders.Starts.{IsStarted, start_at};
ghost use Rattle.pipe_model.specs.Orders.TwoOrders.{down_first_log, right_first_log};
ghost use Rattle.pipe_model.specs.Races.Columns.{IsNodeOf, node_columns};
ghost use Rattle.pipe_model.specs.declared.node.NodeId.{NodeId as PlainNodeId};

use crate::list_writer::{ListWriter, OwnedList};
use crate::numbers::column_numbers;
use crate::rows::{StartedColumn, above, left_marks, marks_of};
use crate::starts::{MOST_STARTS, starts_of_log};
use crate::two_orders::TwoOrders;
use left_parent::parents::left_index;
use left_parent::started::{StartedNode, joined_index};
use pipe_model::column::Column;
use pipe_model::event::RunLog;
use pipe_model::list::{ListOf, Numbers};
use pipe_model::marks::Marks;
use pipe_model::memory::NoMemory;
use pipe_model::node::{NodeId, NodeIds};
use std::alloc::Global;

/// The two orders of a run.
#[derive(Drop)]
pub struct Replayed<L: ListWriter + Drop> {
    /// The two lists.
    pub orders: TwoOrders<L>,
    /// The instances, in the order in which they started.
    pub nodes: NodeIds,
    /// The marks of each instance, in the same order.
    pub marks: Vec<Marks>,
    /// The instances of each column, in order, with their marks.
    pub rows: Vec<StartedColumn>,
}

// Starts an instance with these parents; with none it is the first.
fn start_with<L: ListWriter + Drop>(
    orders: &mut TwoOrders<L>,
    up: Option<Marks>,
    left: Option<Marks>,
) -> Marks
    requires inserted { AreInserted (length orders.old.down.log) up left }
    requires room { HasRoom orders.old }
    ensures marks { result ≡ marks_after (length orders.old.down.log) (down_taken up left) (right_taken up left) }
    ensures lists { orders.new ≡ with_start orders.old (down_taken up left) (right_taken up left) }
{
    match (up, left) {
        (None, None) => orders.start_first(),
        (up, left) => orders.start_node(up, left),
    }
}

// Starts instance `m` of `starts`; the rows have those before it.
fn start_next<L: ListWriter + Drop>(
    orders: &mut TwoOrders<L>,
    columns: &[Column],
    numbers: &[Numbers],
    rows: &[StartedColumn],
    starts: &[NodeId],
    m: usize,
) -> StartedNode
    requires run { CanReplay (node_columns columns.now) starts.now numbers.now }
    requires next { m < length starts.now }
    requires rows { HasStarted (node_columns columns.now) starts.now m rows.now }
    requires lists { HasLists (node_columns columns.now) starts.now m orders.old }
    ensures node { result ≡ started_node (node_columns columns.now) starts.now (start_at starts.now m).iteration
        (start_at starts.now m).index }
    ensures lists { HasLists (node_columns columns.now) starts.now (m + 1) orders.new }
{
    let x = starts[m];
    let above = above(rows, x);
    let left = left_index(columns, numbers, x, above);
    let marks = start_with(orders, marks_of(above), left_marks(rows, x, left));
    StartedNode {
        marks,
        joined: joined_index(left, above),
    }
}

// Appends a started instance to the row of its column.
fn push_started(
    rows: &mut Vec<StartedColumn>,
    iteration: u32,
    node: StartedNode,
) -> Result<(), NoMemory>
    requires { iteration < length rows.old.items }
    ensures { OnOk result (rows.new.items ≡ slice_set rows.old.items iteration (row_at rows.old.items iteration ++ node ∷ [])) }
{
    let row = &mut rows[iteration as usize];
    row.push(node)?;
    Ok(())
}

// An empty row for each column, with room for its instances.
fn empty_rows(alloc: Global, columns: &[Column]) -> Result<Vec<StartedColumn>, NoMemory>
    ensures { IfOk result (λ rows. rows.items ≡ no_rows columns.now) }
{
    let mut rows = Vec::with_capacity(alloc, columns.len())?;
    for column in columns {
        rows.push(ListOf::with_capacity(alloc, column.nodes.len())?)?;
    }
    Ok(rows)
}

// Starts all instances of `starts`, and returns the marks of each, in order and by columns.
fn start_all<L: ListWriter + Drop>(
    alloc: Global,
    columns: &[Column],
    numbers: &[Numbers],
    starts: &[NodeId],
    orders: &mut TwoOrders<L>,
) -> Result<(Vec<Marks>, Vec<StartedColumn>), NoMemory>
    requires run { CanReplay (node_columns columns.now) starts.now numbers.now }
    requires lists { HasLists (node_columns columns.now) starts.now 0 orders.old }
    ensures lists { OnOk result (HasLists (node_columns columns.now) starts.now (length starts.now) orders.new) }
    ensures marks { IfOk result (λ r. r.0.items ≡ marks_of_starts (node_columns columns.now) starts.now starts.now) }
    ensures rows { IfOk result (λ r. HasStarted (node_columns columns.now) starts.now (length starts.now) r.1.items) }
{
    let mut rows = empty_rows(alloc, columns)?;
    let mut marks = Vec::with_capacity(alloc, starts.len())?;
    for m in 0..starts.len() {
        let node = start_next(orders, columns, numbers, rows.as_slice(), starts, m);
        push_started(&mut rows, starts[m].iteration, node)?;
        marks.push(node.marks)?;
    }
    Ok((marks, rows))
}

// Two orders with room for `count` instances.
fn empty_orders<L: OwnedList + Drop>(alloc: Global, count: usize) -> Result<TwoOrders<L>, NoMemory>
    requires { count ≤ MOST_STARTS }
    ensures down { IfOk result (λ o. (o.down.log ≡ []) × (2 * count < o.down.capacity)) }
    ensures right { IfOk result (λ o. (o.right.log ≡ []) × (2 * count < o.right.capacity)) }
{
    let capacity = 2 * count as u32 + 1;
    let down = L::with_capacity(alloc, capacity)?;
    let right = L::with_capacity(alloc, capacity)?;
    Ok(TwoOrders::new(down, right))
}

/// Returns the two orders of a run: those of its starts, in the order of its events. The caller picks
/// the kind of the lists: plain ones (`OmList`), or ones that wait for a question (`LateList`). Of two
/// instances one is before the other in both lists exactly if it precedes it in the dag of the
/// columns. The instances are those of the columns, and their marks are in both lists. The events
/// other than accesses must be a run of the control part that starts at most 262,145 instances, and
/// the columns those that they make. Returns an error only if memory runs out.
pub fn replay<L: OwnedList + Drop>(alloc: Global, run_log: &RunLog) -> Result<Replayed<L>, NoMemory>
    requires own { IsOwnLog run_log.now }
    requires bounded { length (log_starts run_log.now.events) ≤ MOST_STARTS }
    ensures nodes { IfOk result (λ r. r.nodes ≡ log_starts run_log.now.events) }
    ensures down { IfOk result (λ r. r.orders.down.log ≡ down_first_log (log_starts run_log.now.events)) }
    ensures right { IfOk result (λ r. r.orders.right.log ≡ right_first_log (log_columns run_log.now.events)
        (log_starts run_log.now.events)) }
    ensures marks { IfOk result (λ r. r.marks.items ≡ marks_of_starts (log_columns run_log.now.events) (log_starts run_log.now.events)
        (log_starts run_log.now.events)) }
    ensures rows { IfOk result (λ r. HasStarted (log_columns run_log.now.events) (log_starts run_log.now.events)
        (length (log_starts run_log.now.events)) r.rows.items) }
    ensures placed { IfOk result (λ r. All (AreIn (list_of_log r.orders.down.log) (list_of_log r.orders.right.log)) r.marks.items) }
    ensures instances { IfOk result (λ r. (x : PlainNodeId) → IsStarted r.nodes x ↔ IsNodeOf (log_columns run_log.now.events) x) }
    ensures orders { IfOk result (λ r. OrdersArePrecedes (log_columns run_log.now.events) r.nodes r.marks.items r.orders) }
{
    let columns = run_log.columns.as_slice();
    let starts = starts_of_log(alloc, run_log.events.as_slice())?;
    let numbers = column_numbers(alloc, columns)?;
    let mut orders = empty_orders(alloc, starts.len())?;
    let (marks, rows) = start_all(
        alloc,
        columns,
        numbers.as_slice(),
        starts.as_slice(),
        &mut orders,
    )?;
    Ok(Replayed {
        orders,
        nodes: starts,
        marks,
        rows,
    })
}
