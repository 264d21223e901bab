//! A run whose instances have started in both order lists, and the histories of its cells.

ghost use Rattle.std.specs.Prelude.{◌≡◌, ◌<◌, ◌++◌, ◌∷◌, [], ℕ, List};
ghost use Rattle.order_2d.specs.StartedNodes.{started_node};
ghost use Rattle.pipe_model.specs.Races.CellRaces.{NotedAccess, noted_access};
ghost use Rattle.pipe_model.specs.Races.Columns.{IsNodeOf, node_columns};
ghost use Rattle.race_detection.specs.NotedRuns.{AreListsOf, HasNoted, IsReplayOf};

use access_history::history::{History, MarkedNode};
use left_parent::started::StartedNode;
use order_2d::late_list::LateList;
use order_2d::late_orders::LateOrders;
use order_2d::rows::StartedColumn;
use order_2d::two_orders::TwoOrders;
use pipe_model::access::NodeAccess;
use pipe_model::column::Columns;
use pipe_model::node::{NodeId, NodeIds};

/// A run whose instances have started.
#[derive(Drop)]
pub(crate) struct StartedRun<'a> {
    /// The columns of the run.
    pub columns: &'a Columns,
    /// Its instances, in the order in which they started.
    pub nodes: NodeIds,
    /// The instances of each column, in order, with their marks.
    pub rows: Vec<StartedColumn>,
}

// What is known of an instance that has started.
fn started_node(run: &StartedRun<'_>, node: NodeId) -> StartedNode
    requires run { IsReplayOf (node_columns run.now.columns.now) run.now.nodes run.now.rows.items }
    requires inside { IsNodeOf (node_columns run.now.columns.now) node }
    ensures { result ≡ started_node (node_columns run.now.columns.now) run.now.nodes node.iteration node.index }
{
    let row = run.rows[node.iteration as usize].as_slice();
    row[node.index as usize]
}

/// Notes an access in the history of its cell.
pub(crate) fn note(
    run: &StartedRun<'_>,
    orders: &mut TwoOrders<LateList>,
    history: &mut History,
    access: NodeAccess,
)
    requires run { IsReplayOf (node_columns run.now.columns.now) run.now.nodes run.now.rows.items }
    requires lists { AreListsOf (node_columns run.now.columns.now) run.now.nodes orders.old }
    requires inside { IsNodeOf (node_columns run.now.columns.now) access.node }
    requires noted { (accesses : List NotedAccess) × HasNoted (node_columns run.now.columns.now) run.now.nodes accesses history.old }
    ensures noted { (accesses : List NotedAccess) → HasNoted (node_columns run.now.columns.now) run.now.nodes accesses history.old
        → HasNoted (node_columns run.now.columns.now) run.now.nodes (accesses ++ noted_access access.node access.access.kind ∷ [])
        history.new }
    ensures lists { AreListsOf (node_columns run.now.columns.now) run.now.nodes orders.new }
{
    let started = started_node(run, access.node);
    let who = MarkedNode {
        node: access.node,
        marks: started.marks,
    };
    history.note_joined(
        who,
        Some(started.joined),
        access.access.kind,
        &mut LateOrders { orders },
    );
}
