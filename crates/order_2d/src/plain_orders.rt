//! Questions about two lists that do not change meanwhile.

ghost use Rattle.std.specs.Prelude.{◌≡◌, ◌↔◌, IsTrue, true, []};
ghost use Rattle.pipe_model.specs.Orders.OrderList.{IsBeforeIn, IsLog, has, list_of_log};

use crate::two_orders::TwoOrders;
use om_list::om_list::OmList;
use pipe_model::marks::Marks;
use pipe_model::orders::Orders;
use std::marker::Model;

/// A view of the two lists, for questions. Contracts see their logs.
#[derive(Drop)]
pub struct PlainOrders<'a> {
    down: &'a OmList,
    right: &'a OmList,
}

impl<'a> Model for PlainOrders<'a> {
    ghost use Rattle.pipe_model.specs.Orders.OrderList.{IsLog};
    ghost use Rattle.order_2d.specs.OrderPairs.{OrderLogs};

    ghost Value = { OrderLogs };

    ghost view = { λ o. record { down = o.down.now.log; right = o.right.now.log } };

    ghost invariant = { λ o. IsLog 1 o.down.now.log × IsLog 1 o.right.now.log };
}

impl TwoOrders<OmList> {
    /// Returns a view of the two lists, for questions about their order.
    pub fn view(&self) -> PlainOrders<'_>
        ensures { result ≡ record { down = self.now.down.log; right = self.now.right.log } }
    {
        PlainOrders {
            down: &self.down,
            right: &self.right,
        }
    }
}

// Whether an element of a list is before another.
fn is_before(list: &OmList, x: u32, y: u32) -> bool
    requires log { IsLog 1 list.now.log }
    requires first { has x (list_of_log list.now.log) ≡ true }
    requires second { has y (list_of_log list.now.log) ≡ true }
    ensures { IsTrue result ↔ IsBeforeIn (list_of_log list.now.log) x y }
{
    list.before(x, y)
}

impl<'a> Orders for PlainOrders<'a> {
    ghost down_first = { λ o. list_of_log o.down };

    ghost right_first = { λ o. list_of_log o.right };

    ghost identity = { λ o. [] };

    fn down_before(&mut self, a: &Marks, b: &Marks) -> bool {
        is_before(self.down, a.down_first, b.down_first)
    }

    fn right_before(&mut self, a: &Marks, b: &Marks) -> bool {
        is_before(self.right, a.right_first, b.right_first)
    }
}
