//! The orders by which access histories are right at the end of a run.

ghost use Rattle.hall_laws.specs.HallOrders.{WholeOrdersAgree};

/// A shard has seen a part of each order list of the book. For instances whose elements are in these
/// parts, the orders of the whole lists agree with the parts, as `History::note` requires.
pub fn whole_orders_agree()
    ensures { WholeOrdersAgree }
{}
