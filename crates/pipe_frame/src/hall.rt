//! The scheduler as a worker sees it.

ghost use Rattle.std.specs.Prelude.{◌≡◌, ◌+◌, ◌++◌, ◌∷◌, ◌<◌, [], true, length, IfSome};
ghost use Rattle.pipe_model.specs.Language.Programs.{pipeline_of, store_of};
ghost use Rattle.pipe_model.specs.Runs.ControlRun.{ControlRun};
ghost use Rattle.pipe_model.specs.Runs.RunLogs.{state_after};
ghost use Rattle.pipe_frame.specs.CallResults.{AdvanceReturns, BeginReturns, EnterReturns, advance_events, begin_events, enter_events};
ghost use Rattle.pipe_frame.specs.HallViews.{AccessReturns, BeginsWith, IsSameInstance, RescueSees, Sees};
ghost use Rattle.pipe_frame.specs.Replies.{IsPerformed, replies_of};
ghost use Rattle.pipe_frame.specs.ResultTokens.{IfGo, IfStarted, IfToken};
ghost use Rattle.pipe_frame.specs.StageEndCases.{NamesNextStage};
ghost use Rattle.pipe_frame.specs.RunningTokens.{IsTokenOf};
ghost use Rattle.pipe_frame.specs.SeatedTokens.{IsGivenToken, IsSeated, seated_entries, seated_replies};
ghost use Rattle.pipe_frame.specs.TokenCounts.{Exchanges, tokens_begun, tokens_entered, tokens_next, tokens_rescued};
ghost use Rattle.pipe_frame.specs.TokenFields.{fields_of};
ghost use Rattle.std.specs.Prelude.{ℕ, ℤ, List};
ghost use Rattle.pipe_model.specs.Language.SyntaxTree.{SyntaxTree};

use crate::results::{Begun, Next, Reply, Rescue};
use crate::stands::Stands;
use crate::token::FrameToken;
use crate::trace::Trace;
use pipe_model::access::CellId;
use pipe_model::stage::StageEnd;
use std::sync::Wait;

/// The scheduler's book and the cells, shared by workers. Each call but `access` looks at the book
/// once; what it returns is right after the events that were there, and its own events follow them.
/// The events seen after a call begin with those seen before, and are a run of the control part. A token
/// that a call returns is that of an instance that runs after them: its payload has the instance's seat
/// and is at its start, and the instance has made no access. There is no call that stops a run: a run is
/// stopped by an access that runs out of memory.
pub trait Hall<M: Stands + Drop> {
    ghost use Rattle.std.specs.Prelude.{List};
    ghost use Rattle.pipe_model.specs.declared.event.Event.{Event};
    ghost use Rattle.pipe_frame.specs.Ties.{HallName};
    ghost use Rattle.pipe_frame.specs.TokenCounts.{TokenCounts};

    /// Its program, input and throttling limit, and which hall it is. No call changes them.
    ghost named: { Self → HallName };

    /// The events of the book, as far as this value has seen them.
    ghost seen: { Self → List Event };

    /// How many tokens its calls have given, and how many they have taken back.
    ghost tokens: { Self → TokenCounts };

    /// Begins the next iteration if it may begin.
    fn begin<R: Wait>(&mut self, rt: &R) -> Begun<M>
        ensures named { named self.new ≡ named self.old }
        ensures sees { Sees (seen self.old) (seen self.new) (begin_events result) (λ s. BeginReturns (named self.old).limit s result) }
        ensures tokens { Exchanges (tokens_begun result) 0 (tokens self.old) (tokens self.new) }
        ensures seen_runs { ControlRun (named self.new).limit (seen self.new) (state_after (seen self.new)) }
        ensures token { IfStarted result (IsGivenToken M.ready_at M.tie (named self.old)) }
        ensures runs { IfStarted result (λ t. IsTokenOf (seen self.new) (fields_of t)) };

    /// Ends the instance of the token, which made these accesses, and starts the next one if it may
    /// start at once.
    fn advance<R: Wait>(
        &mut self,
        rt: &R,
        token: FrameToken<M>,
        end: StageEnd,
        trace: Trace,
    ) -> Next<M>
        requires out { IsSeated (named self.old) (fields_of token) (M.tie token.payload) }
        requires trace { trace ≡ seated_entries (M.tie token.payload) }
        requires whole { M.whole (named self.old).tree token.payload }
        requires performs { IsPerformed (pipeline_of (named self.old).tree (named self.old).input) token.iteration
            (seated_replies (M.tie token.payload)) trace end }
        requires ready { NamesNextStage end → M.ready_at (named self.old).tree (named self.old).input token.payload token.iteration
            (seated_replies (M.tie token.payload) ++ replies_of trace ∷ []) }
        requires stopped { end ≡ StageEnd.Stopped → (state_after (seen self.old)).stopped ≡ true }
        ensures named { named self.new ≡ named self.old }
        ensures sees { Sees (seen self.old) (seen self.new) (advance_events token.iteration end result)
            (λ s. AdvanceReturns s token.iteration token.index end result) }
        ensures tokens { Exchanges (tokens_next result) 1 (tokens self.old) (tokens self.new) }
        ensures seen_runs { ControlRun (named self.new).limit (seen self.new) (state_after (seen self.new)) }
        ensures token { IfGo result (IsGivenToken M.ready_at M.tie (named self.old)) }
        ensures runs { IfGo result (λ t. IsTokenOf (seen self.new) (fields_of t)) };

    /// Starts the instance for which the right neighbour of an iteration waits, if it may start.
    fn check_right<R: Wait>(&mut self, rt: &R, iteration: u32) -> Option<FrameToken<M>>
        ensures named { named self.new ≡ named self.old }
        ensures sees { Sees (seen self.old) (seen self.new) (enter_events result) (λ s. EnterReturns s (iteration + 1) result) }
        ensures tokens { Exchanges (tokens_entered result) 0 (tokens self.old) (tokens self.new) }
        ensures seen_runs { ControlRun (named self.new).limit (seen self.new) (state_after (seen self.new)) }
        ensures token { IfSome result (IsGivenToken M.ready_at M.tie (named self.old)) }
        ensures runs { IfSome result (λ t. IsTokenOf (seen self.new) (fields_of t)) };

    /// Returns something to do for a worker that has nothing.
    fn rescue<R: Wait>(&mut self, rt: &R) -> Rescue<M>
        ensures named { named self.new ≡ named self.old }
        ensures sees { RescueSees (named self.old).limit (seen self.old) (seen self.new) result }
        ensures tokens { Exchanges (tokens_rescued result) 0 (tokens self.old) (tokens self.new) }
        ensures seen_runs { ControlRun (named self.new).limit (seen self.new) (state_after (seen self.new)) }
        ensures token { IfToken result (IsGivenToken M.ready_at M.tie (named self.old)) }
        ensures runs { IfToken result (λ t. IsTokenOf (seen self.new) (fields_of t)) };

    /// Leaves an instance that has made no access to others, which find it by `rescue`.
    fn leave_ready<R: Wait>(&mut self, rt: &R, token: FrameToken<M>)
        requires out { IsSeated (named self.old) (fields_of token) (M.tie token.payload) }
        requires fresh { seated_entries (M.tie token.payload) ≡ [] }
        requires ready { M.ready_at (named self.old).tree (named self.old).input token.payload token.iteration
            (seated_replies (M.tie token.payload)) }
        ensures named { named self.new ≡ named self.old }
        ensures sees { Sees (seen self.old) (seen self.new) [] (λ s. Unit {0}) }
        ensures tokens { Exchanges 0 1 (tokens self.old) (tokens self.new) }
        ensures seen_runs { ControlRun (named self.new).limit (seen self.new) (state_after (seen self.new)) };

    /// Reads a cell, or writes a value to it, for the instance of the token, and appends the access
    /// to its trace. Of the token only the ticket changes; its payload stays ready to run what it was.
    /// `Stopped` is returned if memory runs out, and then nothing was done but that the run is stopped;
    /// it may also be returned if the run was stopped before.
    fn access<R: Wait>(
        &mut self,
        rt: &R,
        token: &mut FrameToken<M>,
        trace: &mut Trace,
        cell: CellId,
        write: Option<i64>,
    ) -> Reply
        requires out { IsSeated (named self.old) (fields_of token.old) (M.tie token.old.payload) }
        requires trace { trace.old ≡ seated_entries (M.tie token.old.payload) }
        requires cell { cell.0 < length (store_of (named self.old).tree).values }
        ensures named { named self.new ≡ named self.old }
        ensures out { IsSeated (named self.old) (fields_of token.new) (M.tie token.new.payload) }
        ensures instance { IsSameInstance (fields_of token.old) (fields_of token.new) (M.tie token.old.payload) (M.tie token.new.payload) }
        ensures whole { (tree : SyntaxTree) → M.whole tree token.old.payload → M.whole tree token.new.payload }
        ensures ready { (tree : SyntaxTree) (input : List ℤ) (i : ℕ) (before : List (List ℤ))
            → M.ready_at tree input token.old.payload i before → M.ready_at tree input token.new.payload i before }
        ensures replies { seated_replies (M.tie token.new.payload) ≡ seated_replies (M.tie token.old.payload) }
        ensures access { AccessReturns cell.0 write trace.old trace.new result }
        ensures trace { trace.new ≡ seated_entries (M.tie token.new.payload) }
        ensures stopped { result ≡ Reply.Stopped → (state_after (seen self.new)).stopped ≡ true }
        ensures seen { BeginsWith (seen self.new) (seen self.old) }
        ensures tokens { Exchanges 0 0 (tokens self.old) (tokens self.new) }
        ensures seen_runs { ControlRun (named self.new).limit (seen self.new) (state_after (seen self.new)) }
        ensures unseen { (result ≡ Reply.Stopped → ⊥) → seen self.new ≡ seen self.old };
}
