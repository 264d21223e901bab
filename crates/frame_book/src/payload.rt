//! What a token carries.

ghost use Rattle.std.specs.Prelude.{◌≡◌, ℕ, ℤ, List, []};
ghost use Rattle.pipe_model.specs.Language.SyntaxTree.{SyntaxTree};
ghost use Rattle.frame_book.specs.CallEffects.{SameTieButLogs, identities_of_orders};
ghost use Rattle.pipe_frame.specs.Ties.{BelongsTo};

use order_2d::list_writer::ListWriter;
use order_2d::two_orders::TwoOrders;
use pipe_frame::stands::Stands;

/// A payload that learns of the iterations that begin with it, and of the instances that start.
pub trait Payload<L: ListWriter + Drop>: Stands + Drop {
    /// Goes to the start of an iteration.
    fn begin(&mut self, iteration: u32)
        ensures ready { (tree : SyntaxTree) (input : List ℤ) → Self.whole tree self.old → Self.ready_at tree input self.new iteration [] }
        ensures tie { Self.tie self.new ≡ Self.tie self.old };

    /// Notes that an instance has started, so that the payload knows all elements of the lists. They
    /// must be those to which it belongs.
    fn started(&mut self, orders: &mut TwoOrders<L>)
        requires { BelongsTo (Self.tie self.old) (identities_of_orders orders.old) }
        ensures whole { (tree : SyntaxTree) → Self.whole tree self.old → Self.whole tree self.new }
        ensures ready { (tree : SyntaxTree) (input : List ℤ) (i : ℕ) (replies : List (List ℤ))
            → Self.ready_at tree input self.old i replies → Self.ready_at tree input self.new i replies }
        ensures tie { SameTieButLogs (Self.tie self.new) (Self.tie self.old) orders.old }
        ensures orders { orders.new ≡ orders.old };
}
