//! Questions about two lists into which another thread may be inserting.

ghost use Rattle.std.specs.Prelude.{◌≡◌, ◌↔◌, IfOk, IsTrue, true};
ghost use Rattle.om_shared.specs.SharedLists.{identity_of};
ghost use Rattle.order_2d.specs.SeenOrders.{AreOf, AreSameLists, HasSeen};
ghost use Rattle.pipe_model.specs.Orders.OrderList.{IsLog, IsBeforeIn, has, list_of_log};

use crate::two_orders::TwoOrders;
use om_shared::pass::OmPass;
use om_shared::writer::OmWriter;
use pipe_model::marks::Marks;
use pipe_model::memory::NoMemory;
use pipe_model::orders::Orders;
use std::marker::Model;
use std::sync::Wait;

/// A pass to each of two lists, down-first and right-first. Contracts see which lists they are, and
/// the logs that were seen.
#[derive(Drop)]
pub struct TwoPasses {
    down: OmPass,
    right: OmPass,
}

impl Model for TwoPasses {
    ghost use Rattle.om_shared.specs.SharedLists.{identity_of};
    ghost use Rattle.pipe_model.specs.Orders.OrderList.{IsLog};
    ghost use Rattle.pipe_frame.specs.Ties.{SeenLists};

    ghost Value = { SeenLists };

    ghost view = { λ p. record {
      down = identity_of p.down.table;
      right = identity_of p.right.table;
      down_log = p.down.log;
      right_log =
          p.right.log;
    } };

    ghost invariant = { λ p. IsLog 1 p.down.log × IsLog 1 p.right.log };
}

impl TwoPasses {
    /// Returns the two passes as one value.
    pub fn new(down: OmPass, right: OmPass) -> TwoPasses
        requires down { IsLog 1 down.log }
        requires right { IsLog 1 right.log }
        ensures { result ≡ record {
          down = identity_of down.table;
          right = identity_of right.table;
          down_log = down.log;
          right_log =
              right.log;
        } }
    {
        TwoPasses { down, right }
    }

    /// Sees what either has seen, of both lists. Both must be of the same lists.
    pub fn meet(&mut self, other: &mut TwoPasses)
        requires { AreSameLists self.old other.old }
        ensures own { HasSeen self.new self.old }
        ensures theirs { HasSeen self.new other.old }
        ensures logs { IsLog 1 self.new.down_log × IsLog 1 self.new.right_log }
        ensures lists { AreSameLists self.new self.old }
        ensures other { other.new ≡ other.old }
    {
        self.down.meet(&mut other.down);
        self.right.meet(&mut other.right);
    }

    /// Returns two further passes, which have seen the same. Returns an error only if memory runs out;
    /// then nothing has changed.
    pub fn split(&mut self) -> Result<TwoPasses, NoMemory>
        ensures unchanged { self.new ≡ self.old }
        ensures new { IfOk result (λ p. p ≡ self.old) }
    {
        let down = self.down.split()?;
        let right = self.right.split()?;
        Ok(TwoPasses { down, right })
    }

    /// Returns whether both lists had been settled a moment ago. Questions wait until the writer of the
    /// lists settles them: with this hint a caller settles before it asks.
    pub fn are_settled(&self) -> bool {
        self.down.is_settled() && self.right.is_settled()
    }

    // Whether an element of the down-first list is before another.
    fn is_down_before<R: Wait>(&mut self, rt: &R, x: u32, y: u32) -> bool
        requires first { has x (list_of_log self.old.down_log) ≡ true }
        requires second { has y (list_of_log self.old.down_log) ≡ true }
        ensures order { IsTrue result ↔ IsBeforeIn (list_of_log self.old.down_log) x y }
        ensures unchanged { self.new ≡ self.old }
    {
        self.down.precedes(rt, x, y)
    }

    // Whether an element of the right-first list is before another.
    fn is_right_before<R: Wait>(&mut self, rt: &R, x: u32, y: u32) -> bool
        requires first { has x (list_of_log self.old.right_log) ≡ true }
        requires second { has y (list_of_log self.old.right_log) ≡ true }
        ensures order { IsTrue result ↔ IsBeforeIn (list_of_log self.old.right_log) x y }
        ensures unchanged { self.new ≡ self.old }
    {
        self.right.precedes(rt, x, y)
    }
}

impl TwoOrders<OmWriter> {
    /// Lets the insertions from now on get their labels only once the lists are settled.
    pub fn defer(&mut self)
        ensures unchanged { self.new ≡ self.old }
    {
        self.down.defer();
        self.right.defer();
    }

    /// Gives all elements their labels, so that questions need not wait. From now on each insertion
    /// gives its element a label at once.
    pub fn settle(&mut self)
        ensures unchanged { self.new ≡ self.old }
    {
        self.down.settle();
        self.right.settle();
    }

    /// Shows the passes all insertions so far. They must be of these lists.
    pub fn confirm(&mut self, passes: &mut TwoPasses)
        requires { AreOf passes.old self.old }
        ensures unchanged { self.new ≡ self.old }
        ensures down { passes.new.down_log ≡ self.old.down.log }
        ensures right { passes.new.right_log ≡ self.old.right.log }
        ensures lists { AreSameLists passes.new passes.old }
        ensures later { HasSeen passes.new passes.old }
        ensures logs { IsLog 1 passes.new.down_log × IsLog 1 passes.new.right_log }
    {
        self.down.confirm(&mut passes.down);
        self.right.confirm(&mut passes.right);
    }
}

/// Two passes, with the runtime that lets a question wait.
#[derive(Drop)]
pub struct Asking<'a, R: Wait> {
    /// The runtime.
    pub rt: &'a R,
    /// The passes.
    pub passes: &'a mut TwoPasses,
}

impl<'a, R: Wait> Orders for Asking<'a, R> {
    ghost use Rattle.order_2d.specs.SeenOrders.{question_identity};
    ghost use Rattle.pipe_model.specs.Orders.OrderList.{list_of_log};

    ghost down_first = { λ o. list_of_log o.passes.now.down_log };

    ghost right_first = { λ o. list_of_log o.passes.now.right_log };

    ghost identity = { λ o. question_identity o.passes.ghost_name o.passes.now };

    fn down_before(&mut self, a: &Marks, b: &Marks) -> bool {
        self.passes
            .is_down_before(self.rt, a.down_first, b.down_first)
    }

    fn right_before(&mut self, a: &Marks, b: &Marks) -> bool {
        self.passes
            .is_right_before(self.rt, a.right_first, b.right_first)
    }
}
