//! Questions about two lists whose new elements wait for a question.

ghost use Rattle.std.specs.Prelude.{◌≡◌, ◌↔◌, IsTrue, true, []};
ghost use Rattle.pipe_model.specs.Orders.OrderList.{IsLog, IsBeforeIn, has, list_of_log};

use crate::late_list::LateList;
use crate::two_orders::TwoOrders;
use pipe_model::marks::Marks;
use pipe_model::orders::Orders;

/// The two lists, for questions.
#[derive(Drop)]
pub struct LateOrders<'a> {
    /// The lists.
    pub orders: &'a mut TwoOrders<LateList>,
}

impl TwoOrders<LateList> {
    /// Returns whether an element of the down-first list is before another. Both must be in the list.
    pub fn is_down_before(&mut self, x: u32, y: u32) -> bool
        requires first { has x (list_of_log self.old.down.log) ≡ true }
        requires second { has y (list_of_log self.old.down.log) ≡ true }
        ensures order { IsTrue result ↔ IsBeforeIn (list_of_log self.old.down.log) x y }
        ensures unchanged { self.new ≡ self.old }
    {
        self.down.before(x, y)
    }

    /// Returns whether an element of the right-first list is before another. Both must be in the list.
    pub fn is_right_before(&mut self, x: u32, y: u32) -> bool
        requires first { has x (list_of_log self.old.right.log) ≡ true }
        requires second { has y (list_of_log self.old.right.log) ≡ true }
        ensures order { IsTrue result ↔ IsBeforeIn (list_of_log self.old.right.log) x y }
        ensures unchanged { self.new ≡ self.old }
    {
        self.right.before(x, y)
    }
}

impl<'a> Orders for LateOrders<'a> {
    ghost use Rattle.order_2d.specs.SeenOrders.{lists_identity};
    ghost use Rattle.pipe_model.specs.Orders.OrderList.{list_of_log};

    ghost down_first = { λ o. list_of_log o.orders.now.down.log };

    ghost right_first = { λ o. list_of_log o.orders.now.right.log };

    ghost identity = { λ o. lists_identity o.orders.ghost_name o.orders.now };

    fn down_before(&mut self, a: &Marks, b: &Marks) -> bool {
        self.orders.is_down_before(a.down_first, b.down_first)
    }

    fn right_before(&mut self, a: &Marks, b: &Marks) -> bool {
        self.orders.is_right_before(a.right_first, b.right_first)
    }
}
