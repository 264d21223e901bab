//! A hall that counts its calls.

ghost use Rattle.std.specs.Prelude.{◌≡◌};

use pipe_frame::hall::Hall;
use pipe_frame::results::{Begun, Next, Reply, Rescue};
use pipe_frame::stands::Stands;
use pipe_frame::token::FrameToken;
use pipe_frame::trace::Trace;
use pipe_model::access::CellId;
use pipe_model::stage::StageEnd;
use std::sync::Wait;

/// How often each call of a hall was made.
#[derive(Clone, Copy, PartialEq, Eq)]
pub struct Calls {
    pub begin: u32,
    pub advance: u32,
    pub check_right: u32,
    pub rescue: u32,
    pub leave_ready: u32,
}

/// A hall whose calls are counted. It passes each call on.
#[derive(Drop)]
pub struct Counting<H> {
    hall: H,
    calls: Calls,
    // Whether an access was refused, as memory ran out.
    stopped: bool,
}

impl<H> Counting<H> {
    /// Returns the hall; no call was made.
    pub fn new(hall: H) -> Self
        ensures { result.hall ≡ hall }
    {
        let calls = Calls {
            begin: 0,
            advance: 0,
            check_right: 0,
            rescue: 0,
            leave_ready: 0,
        };
        Counting {
            hall,
            calls,
            stopped: false,
        }
    }

    /// Returns whether each call was made this often, and no access was refused, as memory ran out.
    pub fn has_counted(&self, calls: Calls) -> bool {
        !self.stopped && self.calls == calls
    }
}

// Counts a call.
fn count(calls: &mut u32) {
    *calls = calls.saturating_add(1);
}

impl<M: Stands + Drop, H: Hall<M>> Hall<M> for Counting<H> {
    ghost use Rattle.std.specs.Prelude.{◌≡◌, ◌++◌, ◌∷◌, [], true};
    ghost use Rattle.pipe_model.specs.Language.Programs.{pipeline_of};
    ghost use Rattle.pipe_model.specs.Runs.ControlRun.{ControlRun};
    ghost use Rattle.pipe_model.specs.Runs.RunLogs.{state_after};
    ghost use Rattle.pipe_frame.specs.CallResults.{AdvanceReturns, advance_events};
    ghost use Rattle.pipe_frame.specs.HallViews.{Sees};
    ghost use Rattle.pipe_frame.specs.Replies.{IsPerformed, replies_of};
    ghost use Rattle.pipe_frame.specs.ResultTokens.{IfGo};
    ghost use Rattle.pipe_frame.specs.RunningTokens.{IsTokenOf};
    ghost use Rattle.pipe_frame.specs.SeatedTokens.{IsGivenToken, IsSeated, seated_entries, seated_replies};
    ghost use Rattle.pipe_frame.specs.StageEndCases.{NamesNextStage};
    ghost use Rattle.pipe_frame.specs.TokenCounts.{Exchanges, tokens_next};
    ghost use Rattle.pipe_frame.specs.TokenFields.{fields_of};

    ghost named = { λ s. H.named s.hall };

    ghost seen = { λ s. H.seen s.hall };

    ghost tokens = { λ s. H.tokens s.hall };

    fn begin<R: Wait>(&mut self, rt: &R) -> Begun<M> {
        count(&mut self.calls.begin);
        self.hall.begin(rt)
    }

    fn advance<R: Wait>(
        &mut self,
        rt: &R,
        token: FrameToken<M>,
        end: StageEnd,
        trace: Trace,
    ) -> Next<M>
        requires out { IsSeated (H.named self.old.hall) (fields_of token) (M.tie token.payload) }
        requires trace { trace ≡ seated_entries (M.tie token.payload) }
        requires whole { M.whole (H.named self.old.hall).tree token.payload }
        requires performs { IsPerformed (pipeline_of (H.named self.old.hall).tree (H.named self.old.hall).input) token.iteration
            (seated_replies (M.tie token.payload)) trace end }
        requires ready { NamesNextStage end → M.ready_at (H.named self.old.hall).tree (H.named self.old.hall).input token.payload
            token.iteration (seated_replies (M.tie token.payload) ++ replies_of trace ∷ []) }
        requires stopped { end ≡ StageEnd.Stopped → (state_after (H.seen self.old.hall)).stopped ≡ true }
        ensures named { H.named self.new.hall ≡ H.named self.old.hall }
        ensures sees { Sees (H.seen self.old.hall) (H.seen self.new.hall) (advance_events token.iteration end result)
            (λ s. AdvanceReturns s token.iteration token.index end result) }
        ensures tokens { Exchanges (tokens_next result) 1 (H.tokens self.old.hall) (H.tokens self.new.hall) }
        ensures seen_runs { ControlRun (H.named self.new.hall).limit (H.seen self.new.hall) (state_after (H.seen self.new.hall)) }
        ensures token { IfGo result (IsGivenToken M.ready_at M.tie (H.named self.old.hall)) }
        ensures runs { IfGo result (λ t. IsTokenOf (H.seen self.new.hall) (fields_of t)) }
    {
        count(&mut self.calls.advance);
        self.hall.advance(rt, token, end, trace)
    }

    fn check_right<R: Wait>(&mut self, rt: &R, iteration: u32) -> Option<FrameToken<M>> {
        count(&mut self.calls.check_right);
        self.hall.check_right(rt, iteration)
    }

    fn rescue<R: Wait>(&mut self, rt: &R) -> Rescue<M> {
        count(&mut self.calls.rescue);
        self.hall.rescue(rt)
    }

    fn leave_ready<R: Wait>(&mut self, rt: &R, token: FrameToken<M>)
        requires out { IsSeated (H.named self.old.hall) (fields_of token) (M.tie token.payload) }
        requires fresh { seated_entries (M.tie token.payload) ≡ [] }
        requires ready { M.ready_at (H.named self.old.hall).tree (H.named self.old.hall).input token.payload token.iteration
            (seated_replies (M.tie token.payload)) }
        ensures named { H.named self.new.hall ≡ H.named self.old.hall }
        ensures sees { Sees (H.seen self.old.hall) (H.seen self.new.hall) [] (λ s. Unit {0}) }
        ensures tokens { Exchanges 0 1 (H.tokens self.old.hall) (H.tokens self.new.hall) }
        ensures seen_runs { ControlRun (H.named self.new.hall).limit (H.seen self.new.hall) (state_after (H.seen self.new.hall)) }
    {
        count(&mut self.calls.leave_ready);
        self.hall.leave_ready(rt, token);
    }

    fn access<R: Wait>(
        &mut self,
        rt: &R,
        token: &mut FrameToken<M>,
        trace: &mut Trace,
        cell: CellId,
        write: Option<i64>,
    ) -> Reply {
        let reply = self.hall.access(rt, token, trace, cell, write);
        if reply == Reply::Stopped {
            self.stopped = true;
        }
        reply
    }
}
