//! The accesses to a cell, and their first race.

ghost use Rattle.std.specs.Prelude.{◌≡◌, ℕ, All};
ghost use Rattle.access_history.specs.CellAccesses.{AgreeOnAll, ReportsFirst, noted_accesses};
ghost use Rattle.access_history.specs.KeptInstances.{IsHistoryAfter};
ghost use Rattle.access_history.specs.declared.cell_accesses.CellAccess.{CellAccess as PlainAccess};
ghost use Rattle.pipe_model.specs.Orders.GrowingLists.{AreIn, KeepsOrder};
ghost use Rattle.pipe_model.specs.declared.node.NodeId.{NodeId as PlainNodeId};
ghost use Rattle.run_laws.specs.OrderRaces.{AreOrders};

use crate::history::{History, MarkedNode};
use pipe_model::access::AccessKind;
use pipe_model::orders::Orders;

/// An access to a cell.
#[derive(Clone, Copy)]
pub struct CellAccess {
    /// The instance that makes it.
    pub who: MarkedNode,
    /// Whether it reads or writes.
    pub kind: AccessKind,
}

/// Returns the history of the accesses to a cell, noted in order. Its report is the first race, for
/// any two total orders of the instances that agree with the lists: the later access is the first
/// that has an earlier conflicting access of another instance which is not before it in both
/// orders, and the earlier access is such a one; there is no report exactly if no access has one. The
/// elements of all instances must be in the lists. Does not allocate.
pub fn history_of<O: Orders>(accesses: &[CellAccess], orders: &mut O) -> History
    requires in_lists { All (λ (a : PlainAccess). AreIn (O.down_first orders.old) (O.right_first orders.old) a.who.marks) accesses.now }
    ensures history { (down right : PlainNodeId → ℕ)
        → AgreeOnAll (O.down_first orders.old) (O.right_first orders.old) down right accesses.now
        → IsHistoryAfter down right (noted_accesses accesses.now) result }
    ensures first { (down right : PlainNodeId → ℕ)
        → AgreeOnAll (O.down_first orders.old) (O.right_first orders.old) down right accesses.now
        → AreOrders down right (noted_accesses accesses.now)
        → ReportsFirst down right (noted_accesses accesses.now) result.report }
    ensures down { KeepsOrder (O.down_first orders.old) (O.down_first orders.new) }
    ensures right { KeepsOrder (O.right_first orders.old) (O.right_first orders.new) }
    ensures unchanged { O.identity orders.new ≡ O.identity orders.old }
{
    let mut history = History::new();
    for access in accesses {
        history.note(access.who, access.kind, orders);
    }
    history
}
