//! The calls of the book, by the seats of workers.

ghost use Rattle.std.specs.Prelude.{◌≡◌, ◌∷◌, ◌++◌, ◌+◌, [], ℕ, Option, None, Some, IfSome, true};
ghost use Rattle.atomic_table.specs.Table.{Me};
ghost use Rattle.pipe_model.specs.Runs.RunLogs.{state_after};
ghost use Rattle.pipe_model.specs.Language.Programs.{pipeline_of};
ghost use Rattle.pipe_frame.specs.CallResults.{AdvanceReturns, BeginReturns, EnterReturns, advance_events, begin_events, enter_events};
ghost use Rattle.pipe_frame.specs.HallViews.{BeginsWith, RescueSees, Sees};
ghost use Rattle.pipe_frame.specs.Replies.{IsPerformed, replies_of};
ghost use Rattle.pipe_frame.specs.StageEndCases.{NamesNextStage};
ghost use Rattle.pipe_frame.specs.RunningTokens.{IsTokenOf};
ghost use Rattle.pipe_frame.specs.SeatedTokens.{IsGivenToken, IsSeated, seated_entries, seated_replies};
ghost use Rattle.pipe_frame.specs.TokenCounts.{Exchanges, tokens_begun, tokens_entered, tokens_next, tokens_rescued};
ghost use Rattle.pipe_frame.specs.TokenFields.{fields_of};
ghost use Rattle.pipe_frame.specs.ResultTokens.{IfGo, IfStarted, IfToken};
ghost use Rattle.frame_book.specs.BookStates.{BookState, events_of, state_of};
ghost use Rattle.frame_book.specs.GivenTokens.{IsGivenBy};
ghost use Rattle.pipe_frame.specs.CallResults.{StartsNothing};
ghost use Rattle.hall_table.specs.BookCalls.{IsBookCall};
ghost use Rattle.hall_table.specs.HallRule.{view_of};
ghost use Rattle.hall_table.specs.SeatViews.{InstanceData, constants_of};
ghost use Rattle.hall_table.specs.Steps.{ViewAndSlots, after_book, new_instance, without_run};
ghost use Rattle.hall_table.specs.WorkerSeats.{HasTaken, HoldsBook, IsDataOf, IsIdle, StaysIdle, hall_of, name_of};
ghost use Rattle.hall_table.specs.declared.run_seat.RunSeat.{RunSeat};
ghost use Rattle.hall_table.specs.declared.slot.Slot.{Slot as SlotOf};

use atomic_table::Seat;
use frame_book::book::Book;
use hall_table::carrier::Carrier;
use hall_table::locks::Locks;
use hall_table::rule::SplitsWorker;
use hall_table::run_seat::RunSeat;
use hall_table::slot::Slot;
use hall_table::view::View;
use om_shared::writer::OmWriter;
use pipe_frame::results::{Begun, Next, Rescue};
use pipe_frame::token::FrameToken;
use pipe_frame::trace::Trace;
use pipe_model::stage::StageEnd;
use std::sync::Wait;

// Takes the book, for a worker.
fn take_book<R: Wait, M: Carrier>(rt: &R, hall: &Locks<M>, seat: &mut Seat<Slot<M>, View>)
    requires own { seat.old.table_id ≡ hall.now.table.shared.table_id }
    requires idle { IsIdle seat.old.me }
    ensures own { seat.new.table_id ≡ seat.old.table_id }
    ensures taken { (b : BookState) × HasTaken seat.old.me seat.new.me b None }
{
    hall.take_book(rt, seat);
}

// Takes the seat out of a payload that has one.
pub(crate) fn take_seat_of<M: Carrier>(payload: &mut M) -> RunSeat
    requires there { (r : RunSeat) × (M.seat payload.old ≡ Some r) }
    ensures seat { M.seat payload.old ≡ Some result }
    ensures payload { payload.new ≡ M.with_seat payload.old None }
{
    payload.take_seat().into_seat()
}

// Takes in the seat of the token's instance, and then the book.
fn take_back<R: Wait, M: Carrier>(
    rt: &R,
    hall: &Locks<M>,
    seat: &mut Seat<Slot<M>, View>,
    token: &mut FrameToken<M>,
)
    requires own { seat.old.table_id ≡ hall.now.table.shared.table_id }
    requires idle { IsIdle seat.old.me }
    requires out { IsSeated (hall_of seat.old.table_id seat.old.me) (fields_of token.old) (M.tie token.old.payload) }
    ensures own { seat.new.table_id ≡ seat.old.table_id }
    ensures taken { (b : BookState) × (d : InstanceData) × HasTaken seat.old.me seat.new.me b (Some d)
        × IsDataOf b (fields_of token.old) (M.tie token.old.payload) d }
    ensures token { token.new ≡ record token.old { payload = M.with_seat token.old.payload None } }
{
    let run = take_seat_of(&mut token.payload);
    hall.join_instance(seat, run);
    hall.take_book(rt, seat);
}

// Gives the book back beside a token that it has given.
fn return_token<M: Carrier>(
    hall: &Locks<M>,
    seat: &mut Seat<Slot<M>, View>,
    token: FrameToken<M>,
) -> FrameToken<M>
    requires own { seat.old.table_id ≡ hall.now.table.shared.table_id }
    requires call { (b : BookState) × (c : BookState) × (back : Option InstanceData) × HoldsBook seat.old.me b c back
        × IsBookCall b back c (Some (new_instance c (fields_of token))) × (seat.old.me.0.it.constants ≡ Some (constants_of c))
        × IsGivenBy M.ready_at M.tie c token }
    ensures own { seat.new.table_id ≡ seat.old.table_id }
    ensures given { (c : BookState) → seat.old.me.1 ≡ (0, SlotOf.Book c) ∷ []
        → seat.new.me ≡ (view_of (without_run (after_book seat.old.me.0.it c None)), []) }
    ensures same { (r : RunSeat) × (result ≡ record token { payload = M.with_seat token.payload (Some r) }) }
    ensures token { IsGivenToken M.ready_at M.tie (hall_of seat.old.table_id seat.old.me) result }
    ensures runs { (c : BookState) → seat.old.me.1 ≡ (0, SlotOf.Book c) ∷ [] → IsTokenOf (events_of c.log) (fields_of result) }
{
    hall.return_book_and_token(seat, token)
}

/// Begins the next iteration, for a worker with this seat.
pub fn begin_at<R: Wait, M: Carrier>(
    rt: &R,
    hall: &Locks<M>,
    seat: &mut Seat<Slot<M>, View>,
) -> Begun<M>
    requires own { seat.old.table_id ≡ hall.now.table.shared.table_id }
    requires idle { IsIdle seat.old.me }
    ensures own { seat.new.table_id ≡ seat.old.table_id }
    ensures idle { StaysIdle seat.old.me seat.new.me }
    ensures sees { Sees seat.old.me.0.it.seen seat.new.me.0.it.seen (begin_events result)
        (λ s. BeginReturns (hall_of seat.old.table_id seat.old.me).limit s result) }
    ensures tokens { Exchanges (tokens_begun result) 0 seat.old.me.0.it.tokens seat.new.me.0.it.tokens }
    ensures runs { IfStarted result (λ t. IsTokenOf seat.new.me.0.it.seen (fields_of t)) }
    ensures token { IfStarted result (IsGivenToken M.ready_at M.tie (hall_of seat.old.table_id seat.old.me)) }
{
    take_book(rt, hall, seat);
    let slot = seat.slot_mut(&hall.table.shared, 0);
    let lent = slot.book_mut();
    let begun = lent.begin();
    let _ = lent.entries();
    match begun {
        Begun::Started(token) => Begun::Started(return_token(hall, seat, token)),
        begun => {
            hall.return_book(seat);
            begun
        }
    }
}

/// Starts the instance for which the right neighbour of an iteration waits, if it may start.
pub fn check_right_at<R: Wait, M: Carrier>(
    rt: &R,
    hall: &Locks<M>,
    seat: &mut Seat<Slot<M>, View>,
    iteration: u32,
) -> Option<FrameToken<M>>
    requires own { seat.old.table_id ≡ hall.now.table.shared.table_id }
    requires idle { IsIdle seat.old.me }
    ensures own { seat.new.table_id ≡ seat.old.table_id }
    ensures idle { StaysIdle seat.old.me seat.new.me }
    ensures sees { Sees seat.old.me.0.it.seen seat.new.me.0.it.seen (enter_events result) (λ s. EnterReturns s (iteration + 1) result) }
    ensures tokens { Exchanges (tokens_entered result) 0 seat.old.me.0.it.tokens seat.new.me.0.it.tokens }
    ensures runs { IfSome result (λ t. IsTokenOf seat.new.me.0.it.seen (fields_of t)) }
    ensures token { IfSome result (IsGivenToken M.ready_at M.tie (hall_of seat.old.table_id seat.old.me)) }
{
    take_book(rt, hall, seat);
    let slot = seat.slot_mut(&hall.table.shared, 0);
    let lent = slot.book_mut();
    let entered = lent.check_right(iteration);
    let _ = lent.entries();
    match entered {
        Some(token) => Some(return_token(hall, seat, token)),
        None => {
            hall.return_book(seat);
            None
        }
    }
}

/// Returns something to do for a worker that has nothing.
pub fn rescue_at<R: Wait, M: Carrier>(
    rt: &R,
    hall: &Locks<M>,
    seat: &mut Seat<Slot<M>, View>,
) -> Rescue<M>
    requires own { seat.old.table_id ≡ hall.now.table.shared.table_id }
    requires idle { IsIdle seat.old.me }
    ensures own { seat.new.table_id ≡ seat.old.table_id }
    ensures idle { StaysIdle seat.old.me seat.new.me }
    ensures sees { RescueSees (hall_of seat.old.table_id seat.old.me).limit seat.old.me.0.it.seen seat.new.me.0.it.seen result }
    ensures tokens { Exchanges (tokens_rescued result) 0 seat.old.me.0.it.tokens seat.new.me.0.it.tokens }
    ensures runs { IfToken result (λ t. IsTokenOf seat.new.me.0.it.seen (fields_of t)) }
    ensures token { IfToken result (IsGivenToken M.ready_at M.tie (hall_of seat.old.table_id seat.old.me)) }
{
    take_book(rt, hall, seat);
    let slot = seat.slot_mut(&hall.table.shared, 0);
    let lent = slot.book_mut();
    let found = lent.rescue();
    let _ = lent.entries();
    match found {
        Rescue::Token(token) => Rescue::Token(return_token(hall, seat, token)),
        found => {
            hall.return_book(seat);
            found
        }
    }
}

/// Leaves an instance that has made no access to others.
pub fn leave_ready_at<R: Wait, M: Carrier>(
    rt: &R,
    hall: &Locks<M>,
    seat: &mut Seat<Slot<M>, View>,
    mut token: FrameToken<M>,
)
    requires own { seat.old.table_id ≡ hall.now.table.shared.table_id }
    requires idle { IsIdle seat.old.me }
    requires out { IsSeated (hall_of seat.old.table_id seat.old.me) (fields_of token) (M.tie token.payload) }
    requires fresh { seated_entries (M.tie token.payload) ≡ [] }
    requires ready { M.ready_at (hall_of seat.old.table_id seat.old.me).tree (hall_of seat.old.table_id seat.old.me).input token.payload
        token.iteration (seated_replies (M.tie token.payload)) }
    ensures own { seat.new.table_id ≡ seat.old.table_id }
    ensures idle { StaysIdle seat.old.me seat.new.me }
    ensures sees { Sees seat.old.me.0.it.seen seat.new.me.0.it.seen [] (λ s. Unit {0}) }
    ensures tokens { Exchanges 0 1 seat.old.me.0.it.tokens seat.new.me.0.it.tokens }
{
    take_back(rt, hall, seat, &mut token);
    let slot = seat.slot_mut(&hall.table.shared, 0);
    let lent = slot.book_mut();
    lent.leave_ready(token);
    let _ = lent.entries();
    hall.return_book(seat);
}

// Returns the iteration, if its right neighbour has nothing to start.
fn barred_right<M: Carrier>(book: &Book<M, OmWriter>, iteration: u32) -> Option<u32>
    ensures { IfSome result (λ i. StartsNothing (state_of book.now) (i + 1)) }
{
    if book.right_may_start(iteration) {
        return None;
    }
    Some(iteration)
}

/// Ends the instance of the token. Notes its iteration in `barred` if the right neighbour has nothing to
/// start then: `check_right_at` would return `None` after the events seen.
pub fn advance_at<R: Wait, M: Carrier>(
    rt: &R,
    hall: &Locks<M>,
    seat: &mut Seat<Slot<M>, View>,
    barred: &mut Option<u32>,
    mut token: FrameToken<M>,
    end: StageEnd,
    trace: Trace,
) -> Next<M>
    requires own { seat.old.table_id ≡ hall.now.table.shared.table_id }
    requires idle { IsIdle seat.old.me }
    requires out { IsSeated (hall_of seat.old.table_id seat.old.me) (fields_of token) (M.tie token.payload) }
    requires trace { trace ≡ seated_entries (M.tie token.payload) }
    requires whole { M.whole (hall_of seat.old.table_id seat.old.me).tree token.payload }
    requires performs { IsPerformed (pipeline_of (hall_of seat.old.table_id seat.old.me).tree
        (hall_of seat.old.table_id seat.old.me).input) token.iteration (seated_replies (M.tie token.payload)) trace end }
    requires ready { NamesNextStage end → M.ready_at (hall_of seat.old.table_id seat.old.me).tree
        (hall_of seat.old.table_id seat.old.me).input token.payload token.iteration
        (seated_replies (M.tie token.payload) ++ replies_of trace ∷ []) }
    requires stopped { end ≡ StageEnd.Stopped → (state_after seat.old.me.0.it.seen).stopped ≡ true }
    ensures own { seat.new.table_id ≡ seat.old.table_id }
    ensures idle { StaysIdle seat.old.me seat.new.me }
    ensures sees { Sees seat.old.me.0.it.seen seat.new.me.0.it.seen (advance_events token.iteration end result)
        (λ s. AdvanceReturns s token.iteration token.index end result) }
    ensures tokens { Exchanges (tokens_next result) 1 seat.old.me.0.it.tokens seat.new.me.0.it.tokens }
    ensures runs { IfGo result (λ t. IsTokenOf seat.new.me.0.it.seen (fields_of t)) }
    ensures token { IfGo result (IsGivenToken M.ready_at M.tie (hall_of seat.old.table_id seat.old.me)) }
    ensures barred { IfSome barred.new (λ i. StartsNothing (state_after seat.new.me.0.it.seen) (i + 1)) }
{
    let iteration = token.iteration;
    *barred = None;
    take_back(rt, hall, seat, &mut token);
    let slot = seat.slot_mut(&hall.table.shared, 0);
    let lent = slot.book_mut();
    let next = lent.advance(token, end, trace);
    let _ = lent.entries();
    match next {
        Next::Go(token) => Next::Go(return_token(hall, seat, token)),
        next => {
            *barred = barred_right(lent, iteration);
            hall.return_book(seat);
            next
        }
    }
}

// Stops the run.
pub(crate) fn stop_at<R: Wait, M: Carrier>(rt: &R, hall: &Locks<M>, seat: &mut Seat<Slot<M>, View>)
    requires own { seat.old.table_id ≡ hall.now.table.shared.table_id }
    requires idle { IsIdle seat.old.me }
    ensures own { seat.new.table_id ≡ seat.old.table_id }
    ensures idle { StaysIdle seat.old.me seat.new.me }
    ensures later { BeginsWith seat.new.me.0.it.seen seat.old.me.0.it.seen }
    ensures stopped { (state_after seat.new.me.0.it.seen).stopped ≡ true }
    ensures tokens { seat.new.me.0.it.tokens ≡ seat.old.me.0.it.tokens }
{
    take_book(rt, hall, seat);
    let slot = seat.slot_mut(&hall.table.shared, 0);
    let lent = slot.book_mut();
    lent.stop();
    let _ = lent.entries();
    hall.return_book(seat);
}

// Has the order lists labelled, by a seat that is split off for this: the given seat, of a worker or of
// an instance, stays as it is.
pub(crate) fn settle_beside<R: Wait, M: Carrier>(
    rt: &R,
    hall: &Locks<M>,
    seat: &mut Seat<Slot<M>, View>,
)
    requires own { seat.old.table_id ≡ hall.now.table.shared.table_id }
    ensures own { (seat.new.table_id ≡ seat.old.table_id) × (seat.new.id ≡ seat.old.id) }
    ensures unchanged { seat.new.me ≡ seat.old.me }
{
    let mut own = hall.table.shared.split_seat::<SplitsWorker>(seat);
    hall.take_book(rt, &mut own);
    let slot = own.slot_mut(&hall.table.shared, 0);
    let lent = slot.book_mut();
    lent.settle_orders();
    hall.return_book(&mut own);
}
