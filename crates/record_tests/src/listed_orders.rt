//! Two orders that are given as lists.

ghost use Rattle.std.specs.Prelude.{◌≡◌, IsTrue, true, []};
ghost use Rattle.std.specs.Bool.{OnTrue};
ghost use Rattle.pipe_model.specs.Orders.GrowingLists.{AreIn};
ghost use Rattle.pipe_model.specs.Orders.OrderList.{has, place};

use pipe_model::marks::Marks;
use pipe_model::orders::Orders;

/// The elements in down-first and in right-first.
#[derive(Drop)]
pub(crate) struct ListedOrders<'a> {
    pub down: &'a [u32],
    pub right: &'a [u32],
}

// The index of an element; the length if it is not in the list.
fn place_of(list: &[u32], element: u32) -> usize
    ensures { result ≡ place element list.now }
{
    for (i, x) in list.iter().enumerate() {
        if *x == element {
            return i;
        }
    }
    list.len()
}

fn is_in(list: &[u32], element: u32) -> bool
    ensures { OnTrue result (has element list.now ≡ true) }
{
    for x in list {
        if *x == element {
            return true;
        }
    }
    false
}

impl<'a> ListedOrders<'a> {
    /// Whether the elements of the instance are in both lists.
    pub fn has(&self, marks: &Marks) -> bool
        ensures { OnTrue result (AreIn self.now.down.now self.now.right.now marks.now) }
    {
        is_in(self.down, marks.down_first) && is_in(self.right, marks.right_first)
    }
}

impl<'a> Orders for ListedOrders<'a> {
    ghost down_first = { λ o. o.down.now };

    ghost right_first = { λ o. o.right.now };

    ghost identity = { λ o. [] };

    fn down_before(&mut self, a: &Marks, b: &Marks) -> bool {
        place_of(self.down, a.down_first) < place_of(self.down, b.down_first)
    }

    fn right_before(&mut self, a: &Marks, b: &Marks) -> bool {
        place_of(self.right, a.right_first) < place_of(self.right, b.right_first)
    }
}
