//! Questions about two order lists, down-first and right-first (Xu, Lee and Agrawal, PPoPP 2018).

use crate::marks::Marks;

/// Two order lists that say which of two instances comes first in each. A question may make the
/// lists longer, since other threads may have added elements; it never changes the order of the
/// elements that were in them.
pub trait Orders {
    ghost use Rattle.std.specs.Prelude.{◌≡◌, ◌↔◌, IsTrue, List, ℕ};
    ghost use Rattle.pipe_model.specs.Orders.GrowingLists.{AreIn, KeepsOrder};
    ghost use Rattle.pipe_model.specs.Orders.OrderList.{IsBeforeIn};

    /// The down-first list.
    ghost down_first: { Self → List ℕ };

    /// The right-first list.
    ghost right_first: { Self → List ℕ };

    /// Which lists these are, if there are several; a question does not change it.
    ghost identity: { Self → List (List ℕ) };

    /// Returns whether the first instance is strictly before the second in the down-first list.
    /// Both must be in the lists.
    fn down_before(&mut self, a: &Marks, b: &Marks) -> bool
        requires first { AreIn (down_first self.old) (right_first self.old) a.now }
        requires second { AreIn (down_first self.old) (right_first self.old) b.now }
        ensures order { IsTrue result ↔ IsBeforeIn (down_first self.old) a.now.down_first b.now.down_first }
        ensures down { KeepsOrder (down_first self.old) (down_first self.new) }
        ensures right { KeepsOrder (right_first self.old) (right_first self.new) }
        ensures unchanged { identity self.new ≡ identity self.old };

    /// Returns whether the first instance is strictly before the second in the right-first list.
    /// Both must be in the lists.
    fn right_before(&mut self, a: &Marks, b: &Marks) -> bool
        requires first { AreIn (down_first self.old) (right_first self.old) a.now }
        requires second { AreIn (down_first self.old) (right_first self.old) b.now }
        ensures order { IsTrue result ↔ IsBeforeIn (right_first self.old) a.now.right_first b.now.right_first }
        ensures down { KeepsOrder (down_first self.old) (down_first self.new) }
        ensures right { KeepsOrder (right_first self.old) (right_first self.new) }
        ensures unchanged { identity self.new ≡ identity self.old };
}
