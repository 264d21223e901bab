//! Payloads that carry the seats of running instances.

ghost use Rattle.std.specs.Prelude.{◌≡◌, ◌↔◌, ℕ, ℤ, List, Option, Some, None};
ghost use Rattle.std.specs.Borrow.{sem};

use crate::run_seat::RunSeat;
use crate::seat_place::SeatPlace;
use frame_book::payload::Payload;
use om_shared::writer::OmWriter;
use order_2d::two_passes::TwoPasses;

/// A payload that carries the seat of a running instance, and passes to the order lists.
pub trait Carrier: Payload<OmWriter> {
    ghost use Rattle.std.specs.Prelude.{◌≡◌, ℕ, ℤ, List, Option};
    ghost use Rattle.pipe_model.specs.Language.SyntaxTree.{SyntaxTree};
    ghost use Rattle.pipe_frame.specs.Ties.{SeenLists};
    ghost use Rattle.hall_table.specs.Lending.{LendsPasses, tie_of};
    ghost use Rattle.hall_table.specs.declared.run_seat.RunSeat.{RunSeat};

    /// The order lists as far as its passes have seen them.
    ghost lists: { Self → SeenLists };

    /// Its seat, if it has one.
    ghost seat: { Self → Option RunSeat };

    /// The payload with other passes.
    ghost with_lists: { Self → SeenLists → Self };

    /// The payload with this seat, or with none.
    ghost with_seat: { Self → Option RunSeat → Self };

    /// Takes out its seat, if it has one.
    fn take_seat(&mut self) -> SeatPlace
        ensures seat { result ≡ seat self.old }
        ensures payload { self.new ≡ with_seat self.old None };

    /// Puts a seat in.
    fn put_seat(&mut self, run: RunSeat)
        ensures { self.new ≡ with_seat self.old (Some run) };

    /// Lends its passes.
    fn passes(&mut self) -> &mut TwoPasses
        ensures* writes_back { sem 𝓛 (LendsPasses Self.row with_lists self.entry result) }
        ensures value { result.now ≡ lists self.old };

    /// Its tie is made of the ties of its passes and its seat.
    ghost tied: { (x : Self) → Self.tie x ≡ tie_of (lists x) (seat x) };

    /// The seat that was put in is there, and the passes are the same.
    ghost seat_is: { (x : Self) (s : Option RunSeat) → (seat (with_seat x s) ≡ s) × (lists (with_seat x s) ≡ lists x) };

    /// A payload with the passes that it has is the same.
    ghost lists_are: { (x : Self) → with_lists x (lists x) ≡ x };

    /// A seat changes nothing else.
    ghost seat_whole: { (tree : SyntaxTree) (x : Self) (s : Option RunSeat) → Self.whole tree x → Self.whole tree (with_seat x s) };

    ghost seat_ready: { (tree : SyntaxTree) (input : List ℤ) (x : Self) (s : Option RunSeat) (i : ℕ) (replies : List (List ℤ))
        → Self.ready_at tree input x i replies → Self.ready_at tree input (with_seat x s) i replies };
}
