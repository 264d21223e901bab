//! An iteration that runs in a schedule.

ghost use Rattle.std.specs.Prelude.{◌≡◌, ◌≤◌, ◌++◌, ◌∷◌, [], ℤ, List};
ghost use Rattle.cell_store.specs.ShardState.{IsStateAfter};
ghost use Rattle.pipe_frame.specs.CallResults.{NameReturns};
ghost use Rattle.pipe_frame.specs.Replies.{after_instances};
ghost use Rattle.pipe_frame.specs.Ties.{BelongsTo};
ghost use Rattle.pipe_frame.specs.TokenFields.{fields_of};
ghost use Rattle.pipe_model.specs.declared.access.Access.{Access as Accessed};
ghost use Rattle.pipe_model.specs.declared.event.Event.TheVariants as events;
ghost use Rattle.pipe_model.specs.Language.Programs.{pipeline_of};
ghost use Rattle.pipe_model.specs.Language.SyntaxTree.{SyntaxTree, tree_of};
ghost use Rattle.pipe_model.specs.Pipelines.Pipeline.{Pipeline};
ghost use Rattle.pipe_model.specs.Pipelines.Store.{InitialStore};
ghost use Rattle.frame_book.specs.BookStates.{replies_at, state_of};
ghost use Rattle.frame_book.specs.CallEffects.{after_name_next};
ghost use Rattle.frame_book.specs.GivenTokens.{IsOutOf};
ghost use Rattle.schedule_play.specs.RunningIterations.{IsRunningIteration};
ghost use Rattle.schedule_play.specs.OneAccess.{HasAllCells};
ghost use Rattle.schedule_play.specs.RunningInstances.{next_of};
ghost use Rattle.schedule_play.specs.Runners.{IsAtInstance, no_tie};
ghost use Rattle.stage_interp.specs.CellNumbers.{most_cell_ids};

use crate::insertion_log::InsertionLog;
use crate::runner::{PlayedCode, Runner};
use crate::running_instance::{NextAction, RunningInstance};
use cell_store::cells::Cells;
use frame_book::book::Book;
use pipe_frame::results::Named;
use pipe_frame::token::FrameToken;
use pipe_model::access::Access;
use pipe_model::list::Numbers;
use pipe_model::stage::StageEnd;
use stage_code::code::Code;
use std::marker::Model;

/// A running iteration: the token of its instance, and how far the instance is. Contracts see the
/// fields of the token, the machine, the accesses of the instance and its next event.
#[derive(Drop)]
pub struct RunningIteration<B: PlayedCode> {
    token: FrameToken<Runner<B>>,
    running: RunningInstance,
}

impl<B: PlayedCode> Model for RunningIteration<B> {
    ghost use Rattle.pipe_frame.specs.TokenFields.{fields_of};
    ghost use Rattle.schedule_play.specs.RunningIterations.{RunningIterationState};

    ghost Value = { RunningIterationState };

    ghost view = { λ h. record {
      token = fields_of h.token;
      machine = h.token.payload.machine;
      trace = h.running.trace;
      next = h.running.next;
    } };
}

impl<B: PlayedCode> RunningIteration<B> {
    /// Begins the instance of a token: runs its machine up to its first event.
    pub fn new(
        mut token: FrameToken<Runner<B>>,
        code: &Code,
        input: &Numbers,
        cells: &Cells,
    ) -> Self
        requires code { code.now ≡ B.code }
        requires cells { cells.now.shard.cells ≡ B.cells }
        requires bounded { cells.now.shard.cells ≤ most_cell_ids }
        requires at_instance { (tree : SyntaxTree) × ((replies : List (List ℤ)) × IsAtInstance B.code B.cells tree input.now
            token.payload.machine token.iteration replies) }
        ensures instance { (tree : SyntaxTree) (replies : List (List ℤ)) → IsAtInstance B.code B.cells tree input.now token.payload.machine
            token.iteration replies
            → IsRunningIteration B.code B.cells tree input.now replies result }
        ensures fields { result.token ≡ fields_of token }
        ensures empty { result.trace ≡ [] }
    {
        let machine = token.payload.machine.get_mut();
        let running = RunningInstance::new(machine, code, input, cells);
        RunningIteration { token, running }
    }

    /// Returns what the instance does next.
    pub fn next(&self) -> NextAction
        ensures { result ≡ self.now.next }
    {
        self.running.next
    }

    /// Makes the access that is the instance's next event, with this ticket, which the token then has too.
    /// Returns the access.
    pub fn access(&mut self, code: &Code, input: &Numbers, cells: &mut Cells, ticket: u64) -> Access
        requires code { code.now ≡ B.code }
        requires cells { cells.old.shard.cells ≡ B.cells }
        requires all { HasAllCells cells.old }
        requires bounded { cells.old.shard.cells ≤ most_cell_ids }
        requires pending { self.old.next ≡ NextAction.Access }
        requires instance { (tree : SyntaxTree) × ((replies : List (List ℤ)) × IsRunningIteration B.code B.cells tree input.now replies
            self.old) }
        ensures instance { (tree : SyntaxTree) (replies : List (List ℤ)) → IsRunningIteration B.code B.cells tree input.now replies self.old
            → IsRunningIteration B.code B.cells tree input.now replies self.new }
        ensures event { (tree : SyntaxTree) (replies : List (List ℤ)) (p : Pipeline) (before : List Accessed)
            → IsRunningIteration B.code B.cells tree input.now replies self.old → IsStateAfter p.store before cells.old
            → next_of p before self.old.token.iteration (after_instances ((pipeline_of tree input.now).behaviour self.old.token.iteration)
            replies)
            self.old.trace ≡ events.Access self.old.token.iteration result }
        ensures fields { self.new.token ≡ record self.old.token { now = ticket } }
        ensures trace { self.new.trace ≡ self.old.trace ++ record { ticket = ticket; access = result } ∷ [] }
        ensures state { (store : InitialStore) (before : List Accessed) → IsStateAfter store before cells.old
            → IsStateAfter store (before ++ result ∷ []) cells.new }
        ensures shard { cells.new.shard ≡ cells.old.shard }
    {
        let machine = self.token.payload.machine.get_mut();
        let access = self.running.access(machine, code, input, cells, ticket);
        self.token.now = ticket;
        access
    }

    /// Ends the instance, which does so next: the event `Advance` or `Finish` of the book.
    pub fn end(self, end: StageEnd, book: &mut Book<Runner<B>, InsertionLog>) -> Named
        requires out { IsOutOf book.old self.token }
        requires ends { self.next ≡ NextAction.End end }
        requires lists { BelongsTo no_tie book.old.lists }
        requires instance { IsRunningIteration B.code B.cells (tree_of book.old.program) book.old.input
            (replies_at book.old self.token.iteration) self }
        ensures returned { NameReturns (state_of book.old) end result }
        ensures book { book.new ≡ after_name_next book.old self.token end self.trace result }
    {
        book.name_next(self.token, end, self.running.trace)
    }
}
