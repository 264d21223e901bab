//! The two lists, and the marks of each start.

ghost use Rattle.std.specs.Prelude.{◌≡◌, ◌≤◌, [], length, IsSome, ◌⊎◌};
ghost use Rattle.order_2d.specs.OrderPairs.{AreInserted, HasRoom, OrderPair, down_taken, marks_after, right_taken, with_start};

use crate::list_writer::ListWriter;
use pipe_model::marks::{Marks, Placeholder};
use std::marker::Model;

/// The down-first and the right-first list.
#[derive(Drop)]
pub struct TwoOrders<L: ListWriter + Drop> {
    pub(crate) down: L,
    pub(crate) right: L,
}

impl<L: ListWriter + Drop> Model for TwoOrders<L> {
    ghost use Rattle.std.specs.Prelude.{◌≡◌, length};
    ghost use Rattle.pipe_model.specs.Orders.OrderList.{IsLog};
    ghost use Rattle.order_2d.specs.OrderPairs.{OrderPair};

    ghost Value = { OrderPair };

    ghost view = { λ o. record { down = L.list o.down; right = L.list o.right } };

    ghost invariant = { λ o. (length (L.list o.down).log ≡ length (L.list o.right).log) × IsLog 1 (L.list o.down).log
        × IsLog 1 (L.list o.right).log };
}

impl<L: ListWriter + Drop> TwoOrders<L> {
    /// Returns the two orders of no instances. Both lists must have element 0 alone.
    pub fn new(down: L, right: L) -> TwoOrders<L>
        requires down { (L.list down).log ≡ [] }
        requires right { (L.list right).log ≡ [] }
        ensures { result ≡ record { down = L.list down; right = L.list right } }
    {
        TwoOrders { down, right }
    }

    // Takes an element of each list, and inserts two new ones after it.
    fn start(&mut self, down_first: u32, right_first: u32) -> Marks
        requires down { down_first ≤ length self.old.down.log }
        requires right { right_first ≤ length self.old.down.log }
        requires room { HasRoom self.old }
        ensures marks { result ≡ marks_after (length self.old.down.log) down_first right_first }
        ensures lists { self.new ≡ with_start self.old down_first right_first }
    {
        let (down_child, next_head) = self.down.insert_pair_after(down_first);
        let (right_child, down_child_last) = self.right.insert_pair_after(right_first);
        Marks {
            down_first,
            right_first,
            down: Placeholder {
                down_first: down_child,
                right_first: down_child_last,
            },
            right: Placeholder {
                down_first: next_head,
                right_first: right_child,
            },
        }
    }

    /// Starts instance (0, 0), which has no parents and takes element 0 of both lists. Both lists
    /// need room for two elements.
    pub fn start_first(&mut self) -> Marks
        requires { HasRoom self.old }
        ensures marks { result ≡ marks_after (length self.old.down.log) 0 0 }
        ensures lists { self.new ≡ with_start self.old 0 0 }
    {
        self.start(0, 0)
    }

    /// Starts an instance, given the marks of its parents: `up` is the instance above it in its
    /// column, and `left` the source of its edge from the column to the left, unless that edge is
    /// redundant. At least one must be given, and both lists need room for two elements. The orders
    /// are those of the dag only if no placeholder is taken twice. Constant time but for new labels.
    pub fn start_node(&mut self, up: Option<Marks>, left: Option<Marks>) -> Marks
        requires parent { IsSome up ⊎ IsSome left }
        requires inserted { AreInserted (length self.old.down.log) up left }
        requires room { HasRoom self.old }
        ensures marks { result ≡ marks_after (length self.old.down.log) (down_taken up left) (right_taken up left) }
        ensures lists { self.new ≡ with_start self.old (down_taken up left) (right_taken up left) }
    {
        let down_first = match (up, left) {
            (Some(up), _) => up.down.down_first,
            (None, Some(left)) => left.right.down_first,
            (None, None) => 0,
        };
        let right_first = match (up, left) {
            (_, Some(left)) => left.right.right_first,
            (Some(up), None) => up.down.right_first,
            (None, None) => 0,
        };
        self.start(down_first, right_first)
    }
}
