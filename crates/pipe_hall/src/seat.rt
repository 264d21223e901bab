//! The hall as a worker sees it.

ghost use Rattle.std.specs.Prelude.{◌≡◌};
ghost use Rattle.pipe_frame.specs.HallViews.{BeginsWith};
ghost use Rattle.pipe_frame.specs.TokenCounts.{no_tokens};
ghost use Rattle.hall_table.specs.Steps.{both_counts};
ghost use Rattle.hall_table.specs.WorkerSeats.{IsSameHall};

use atomic_table::Seat;
use hall_calls::hall::{HallKey, HallOf};
use hall_calls::instance::access_at;
use hall_calls::worker::{advance_at, begin_at, check_right_at, leave_ready_at, rescue_at};
use hall_table::carrier::Carrier;
use hall_table::rule::{JoinsWorker, Meets, SplitsWorker};
use hall_table::slot::Slot;
use hall_table::view::View;
use pipe_frame::hall::Hall;
use pipe_frame::results::{Begun, Next, Reply, Rescue};
use pipe_frame::token::FrameToken;
use pipe_frame::trace::Trace;
use pipe_model::access::CellId;
use pipe_model::stage::StageEnd;
use std::marker::Model;
use std::sync::Wait;

/// A worker's seat beside its hall. Contracts see which hall it is, the events of the book that it has
/// seen, and how many tokens its calls have given and taken back. `access` waits for the lock of one
/// shard, and asks the order lists without the lock of the book; if it may have to ask them before they
/// have labels, it first waits for the lock of the book, without a shard, and labels them. The other
/// calls of `Hall` wait for the lock of the book, once each, but for `check_right`: `advance` looks at the
/// right neighbour too, and if that has nothing to start, a `check_right` right after it returns `None`
/// by that look. An access whose ticket would be above 2^62 is not made, and stops the run as one that
/// runs out of memory does.
#[derive(Drop)]
pub struct HallSeat<'a, M: Carrier> {
    hall: &'a HallOf<M>,
    seat: Seat<Slot<M>, View>,
    // The iteration whose right neighbour has nothing to start, if the last call has seen that.
    barred: Option<u32>,
}

impl<'a, M: Carrier> Model for HallSeat<'a, M> {
    ghost use Rattle.pipe_model.specs.contracts.tree.Expr as expr;
    ghost use Rattle.pipe_model.specs.contracts.tree.Stmt as stmt;
    ghost use Rattle.std.specs.Coded.{codes};
    ghost use Rattle.std.specs.Prelude.{◌≡◌};
    ghost use Rattle.std.specs.Prelude.{◌+◌, IfSome};
    ghost use Rattle.pipe_model.specs.Runs.RunLogs.{state_after};
    ghost use Rattle.pipe_frame.specs.CallResults.{StartsNothing};
    ghost use Rattle.hall_table.specs.WorkerSeats.{IsIdle, WorkerSeat};

    ghost Value = { WorkerSeat };

    ghost coded = { Prim.hlevel (codes, expr.the_row.coded, stmt.the_row.coded) };

    ghost view = { λ s. record {
      hall = record { table = s.seat.table_id; constants = s.seat.me.0.it.constants };
      seen =
          s.seat.me.0.it.seen;
      tokens = s.seat.me.0.it.tokens;
    } };

    ghost invariant = { λ s. IsIdle s.seat.me × (s.seat.table_id ≡ s.hall.now.hall.table)
        × IfSome s.barred (λ i. StartsNothing (state_after s.seat.me.0.it.seen) (i + 1)) };
}

impl<'a, M: Carrier> Hall<M> for HallSeat<'a, M> {
    ghost use Rattle.std.specs.Prelude.{◌≡◌, ◌++◌, ◌∷◌, [], true};
    ghost use Rattle.pipe_model.specs.Language.Programs.{pipeline_of};
    ghost use Rattle.pipe_model.specs.Runs.ControlRun.{ControlRun};
    ghost use Rattle.pipe_model.specs.Runs.RunLogs.{state_after};
    ghost use Rattle.pipe_frame.specs.CallResults.{AdvanceReturns, advance_events};
    ghost use Rattle.pipe_frame.specs.HallViews.{Sees};
    ghost use Rattle.pipe_frame.specs.Replies.{IsPerformed, replies_of};
    ghost use Rattle.pipe_frame.specs.ResultTokens.{IfGo};
    ghost use Rattle.pipe_frame.specs.RunningTokens.{IsTokenOf};
    ghost use Rattle.pipe_frame.specs.SeatedTokens.{IsGivenToken, IsSeated, seated_entries, seated_replies};
    ghost use Rattle.pipe_frame.specs.StageEndCases.{NamesNextStage};
    ghost use Rattle.pipe_frame.specs.TokenCounts.{Exchanges, tokens_next};
    ghost use Rattle.pipe_frame.specs.TokenFields.{fields_of};
    ghost use Rattle.hall_table.specs.WorkerSeats.{hall_name};

    ghost named = { λ s. hall_name s.hall };

    ghost seen = { λ s. s.seen };

    ghost tokens = { λ s. s.tokens };

    fn begin<R: Wait>(&mut self, rt: &R) -> Begun<M> {
        let hall = self.hall;
        self.barred = None;
        begin_at(rt, &hall.locks, &mut self.seat)
    }

    fn advance<R: Wait>(
        &mut self,
        rt: &R,
        token: FrameToken<M>,
        end: StageEnd,
        trace: Trace,
    ) -> Next<M>
        requires out { IsSeated (hall_name self.old.hall) (fields_of token) (M.tie token.payload) }
        requires trace { trace ≡ seated_entries (M.tie token.payload) }
        requires whole { M.whole (hall_name self.old.hall).tree token.payload }
        requires performs { IsPerformed (pipeline_of (hall_name self.old.hall).tree (hall_name self.old.hall).input) token.iteration
            (seated_replies (M.tie token.payload)) trace end }
        requires ready { NamesNextStage end → M.ready_at (hall_name self.old.hall).tree (hall_name self.old.hall).input token.payload
            token.iteration (seated_replies (M.tie token.payload) ++ replies_of trace ∷ []) }
        requires stopped { end ≡ StageEnd.Stopped → (state_after self.old.seen).stopped ≡ true }
        ensures named { hall_name self.new.hall ≡ hall_name self.old.hall }
        ensures sees { Sees self.old.seen self.new.seen (advance_events token.iteration end result)
            (λ s. AdvanceReturns s token.iteration token.index end result) }
        ensures tokens { Exchanges (tokens_next result) 1 self.old.tokens self.new.tokens }
        ensures seen_runs { ControlRun (hall_name self.new.hall).limit self.new.seen (state_after self.new.seen) }
        ensures token { IfGo result (IsGivenToken M.ready_at M.tie (hall_name self.old.hall)) }
        ensures runs { IfGo result (λ t. IsTokenOf self.new.seen (fields_of t)) }
    {
        let hall = self.hall;
        advance_at(
            rt,
            &hall.locks,
            &mut self.seat,
            &mut self.barred,
            token,
            end,
            trace,
        )
    }

    fn check_right<R: Wait>(&mut self, rt: &R, iteration: u32) -> Option<FrameToken<M>> {
        if self.barred == Some(iteration) {
            return None;
        }
        let hall = self.hall;
        self.barred = None;
        check_right_at(rt, &hall.locks, &mut self.seat, iteration)
    }

    fn rescue<R: Wait>(&mut self, rt: &R) -> Rescue<M> {
        let hall = self.hall;
        self.barred = None;
        rescue_at(rt, &hall.locks, &mut self.seat)
    }

    fn leave_ready<R: Wait>(&mut self, rt: &R, token: FrameToken<M>)
        requires out { IsSeated (hall_name self.old.hall) (fields_of token) (M.tie token.payload) }
        requires fresh { seated_entries (M.tie token.payload) ≡ [] }
        requires ready { M.ready_at (hall_name self.old.hall).tree (hall_name self.old.hall).input token.payload token.iteration
            (seated_replies (M.tie token.payload)) }
        ensures named { hall_name self.new.hall ≡ hall_name self.old.hall }
        ensures sees { Sees self.old.seen self.new.seen [] (λ s. Unit {0}) }
        ensures tokens { Exchanges 0 1 self.old.tokens self.new.tokens }
        ensures seen_runs { ControlRun (hall_name self.new.hall).limit self.new.seen (state_after self.new.seen) }
    {
        let hall = self.hall;
        self.barred = None;
        leave_ready_at(rt, &hall.locks, &mut self.seat, token);
    }

    fn access<R: Wait>(
        &mut self,
        rt: &R,
        token: &mut FrameToken<M>,
        trace: &mut Trace,
        cell: CellId,
        write: Option<i64>,
    ) -> Reply {
        let hall = self.hall;
        self.barred = None;
        access_at(rt, &hall.locks, &mut self.seat, token, trace, cell, write)
    }
}

impl<'a, M: Carrier> HallSeat<'a, M> {
    /// Returns the seat beside its hall, of which the key must be.
    pub fn new(hall: &'a HallOf<M>, key: HallKey<M>) -> HallSeat<'a, M>
        requires same_hall { IsSameHall key.hall hall.now.hall }
        ensures { result ≡ key }
    {
        let HallKey { seat } = key;
        HallSeat {
            hall,
            seat,
            barred: None,
        }
    }

    /// Returns the seat without its hall.
    pub fn into_key(self) -> HallKey<M>
        ensures { result ≡ self.entry }
    {
        let HallSeat { seat, .. } = self;
        HallKey { seat }
    }

    /// Returns a seat for a further worker, which has seen the same. It has given no token.
    pub fn split(&mut self) -> HallSeat<'a, M>
        ensures unchanged { self.new ≡ self.old }
        ensures new { result ≡ record self.old { tokens = no_tokens } }
    {
        let hall = self.hall;
        self.barred = None;
        let shared = &hall.locks.table.shared;
        let seat = shared.split_seat::<SplitsWorker>(&mut self.seat);
        HallSeat {
            hall,
            seat,
            barred: None,
        }
    }

    /// Takes in the seat of a worker of the same hall that has nothing to do any more. It has then
    /// seen what either had seen, and its tokens are those of both.
    pub fn join(&mut self, other: HallKey<M>)
        requires same_hall { IsSameHall other.hall self.old.hall }
        ensures hall { self.new.hall ≡ self.old.hall }
        ensures own { BeginsWith self.new.seen self.old.seen }
        ensures theirs { BeginsWith self.new.seen other.seen }
        ensures tokens { self.new.tokens ≡ both_counts self.old.tokens other.tokens }
    {
        let HallKey { seat } = other;
        let hall = self.hall;
        self.barred = None;
        let shared = &hall.locks.table.shared;
        shared.join_seat::<JoinsWorker>(&mut self.seat, seat);
        shared.load::<Meets>(&mut self.seat, 0);
    }
}
