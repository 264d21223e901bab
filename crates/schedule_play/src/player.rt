//! A run that is made event by event, on one thread.

ghost use Rattle.std.specs.Prelude.{◌≡◌, ◌≢◌, ◌↔◌, ◌<◌, ◌≤◌, ◌+◌, ℕ, List, ◌++◌, ◌∷◌, [], IfOk, IfSome, IsTrue, None, Some, is_some};
ghost use Rattle.std.specs.Prelude.{length, option_map, true};
ghost use Rattle.cell_store.specs.ShardState.{IsStateAfter};
ghost use Rattle.frame_book.specs.BookStates.{item_or};
ghost use Rattle.pipe_model.specs.Language.CheckingRules.{cell_total};
ghost use Rattle.pipe_model.specs.Language.Programs.{store_of};
ghost use Rattle.pipe_model.specs.Language.ProgramsOfTrees.{whole_of};
ghost use Rattle.pipe_model.specs.Language.CheckingRules.{BreaksNoRule};
ghost use Rattle.pipe_model.specs.Language.SyntaxTree.{tree_of};
ghost use Rattle.pipe_model.specs.Pipelines.WholePrograms.{init_accesses};
ghost use Rattle.stage_interp.specs.CellNumbers.{most_cell_ids};
ghost use Rattle.stage_interp.specs.RemainingBehaviour.{IsCodeOf};
ghost use Rattle.schedule_play.specs.OneAccess.{HasAllCells};
ghost use Rattle.pipe_model.specs.declared.event.Event.{Event as PlainEvent};
ghost use Rattle.pipe_model.specs.declared.event.Event.TheVariants as events;
ghost use Rattle.pipe_model.specs.Runs.Allowed.{IsRunning};
ghost use Rattle.pipe_model.specs.Runs.NextEvents.{next_begin, next_event};
ghost use Rattle.pipe_model.specs.Runs.Run.{IsFinished};
ghost use Rattle.pipe_model.specs.Runs.Schedules.{candidates, chosen};
ghost use Rattle.schedule_play.specs.RunningIterations.{RunningIterationState};
ghost use Rattle.schedule_play.specs.PlayStates.{IsPlay, KeepsProgram, pipeline_played, run_state};
ghost use Rattle.schedule_play.specs.Turns.{turn_event};

use crate::insertion_log::InsertionLog;
use crate::opening::open_book;
use crate::runner::{PlayedCode, Runner};
use crate::running_instance::NextAction;
use crate::running_iteration::RunningIteration;
use crate::schedule::Schedule;
use crate::turns::Turn;
use cell_store::cells::Cells;
use frame_book::book::Book;
use pipe_check::checked::Checked;
use pipe_frame::results::Begun;
use pipe_model::event::{Event, Events};
use pipe_model::list::Numbers;
use pipe_model::memory::NoMemory;
use pipe_model::stage::StageEnd;
use stage_code::code::Code;
use std::alloc::Global;
use std::marker::Model;

/// A run of a program. Contracts see the book, the schedule, for each iteration that has begun its
/// running instance if there is one, the cells, and the events so far.
#[derive(Drop)]
pub struct Player<B: PlayedCode> {
    book: Book<Runner<B>, InsertionLog>,
    schedule: Schedule,
    running: Vec<Option<RunningIteration<B>>>,
    cells: Cells,
    events: Events,
}

impl<B: PlayedCode> Model for Player<B> {
    ghost use Rattle.pipe_model.specs.contracts.tree.Expr as expr;
    ghost use Rattle.pipe_model.specs.contracts.tree.Stmt as stmt;
    ghost use Rattle.std.specs.Coded.{codes};
    ghost use Rattle.schedule_play.specs.PlayStates.{PlayState};

    ghost Value = { PlayState };

    ghost coded = { Prim.hlevel (codes, expr.the_row.coded, stmt.the_row.coded) };

    ghost view = { λ p. record {
      book = p.book;
      schedule = p.schedule;
      running = p.running.items;
      cells = p.cells;
      events = p.events;
    } };
}

// Appends an event. Returns an error only if memory runs out.
fn append(events: &mut Events, event: Event) -> Result<(), NoMemory>
    ensures { IfOk result (λ u. events.new ≡ events.old ++ event ∷ []) }
{
    events.push(event)?;
    Ok(())
}

impl<B: PlayedCode> Player<B> {
    /// Returns a player at the beginning of the loop of a program, over cells that `init` has left. At
    /// most `throttle` iterations may be alive. Returns an error only if memory runs out.
    pub fn new(
        alloc: Global,
        checked: &Checked,
        code: &Code,
        input: &Numbers,
        throttle: u32,
        cells: Cells,
    ) -> Result<Self, NoMemory>
        requires code { code.now ≡ B.code }
        requires code_of { IsCodeOf (tree_of checked.now) code.now }
        requires accepted { BreaksNoRule (tree_of checked.now) }
        requires throttle { 0 < throttle }
        requires cells { cells.shard.cells ≡ B.cells }
        requires served { cell_total (tree_of checked.now).cells + 2 ≤ cells.shard.cells }
        requires bounded { cells.shard.cells ≤ most_cell_ids }
        requires all { HasAllCells cells }
        requires state { IsStateAfter (store_of (tree_of checked.now)) (init_accesses (whole_of (tree_of checked.now) input.now)) cells }
        ensures play { IfOk result (λ player. IsPlay B.code B.cells player) }
        ensures new { IfOk result (λ player. player.events ≡ []) }
        ensures tree { IfOk result (λ player. tree_of player.book.program ≡ tree_of checked.now) }
        ensures input { IfOk result (λ player. player.book.input ≡ input.now) }
        ensures limit { IfOk result (λ player. player.book.limit ≡ throttle) }
    {
        let _limits = code.limits();
        let schedule = Schedule::new(alloc, throttle)?;
        match open_book(alloc, checked, code, input, throttle) {
            Ok(book) => Ok(Player {
                book,
                schedule,
                running: Vec::new(alloc),
                cells,
                events: Events::new(alloc),
            }),
            Err(refused) => Err(refused),
        }
    }

    // The event `Begin` of the next iteration.
    fn begin(&mut self, code: &Code, input: &Numbers) -> Result<(), NoMemory>
        requires code { code.now ≡ B.code }
        requires input { input.now ≡ self.old.book.input }
        requires play { IsPlay B.code B.cells self.old }
        requires next { (e : PlainEvent) × (next_begin self.old.book.limit (run_state self.old) ≡ Some e) }
        ensures play { IfOk result (λ u. IsPlay B.code B.cells self.new) }
        ensures event { IfOk result (λ u. (e : PlainEvent) → next_begin self.old.book.limit (run_state self.old) ≡ Some e
            → self.new.events ≡ self.old.events ++ e ∷ []) }
        ensures keeps { IfOk result (λ u. KeepsProgram self.old self.new) }
    {
        self.running.reserve(1)?;
        let Begun::Started(token) = self.book.begin() else {
            unreachable!()
        };
        let iteration = token.iteration;
        let running = RunningIteration::new(token, code, input, &self.cells);
        self.running.push_reserved(Some(running));
        self.schedule.begin();
        append(&mut self.events, Event::Begin(iteration))
    }

    // The event `Enter` of an iteration.
    fn enter(&mut self, code: &Code, input: &Numbers, iteration: u32) -> Result<(), NoMemory>
        requires code { code.now ≡ B.code }
        requires input { input.now ≡ self.old.book.input }
        requires play { IsPlay B.code B.cells self.old }
        requires next { next_event (pipeline_played self.old) (run_state self.old) iteration ≡ Some (events.Enter iteration) }
        ensures play { IfOk result (λ u. IsPlay B.code B.cells self.new) }
        ensures event { IfOk result (λ u. (e : PlainEvent) → next_event (pipeline_played self.old) (run_state self.old) iteration ≡ Some e
            → self.new.events ≡ self.old.events ++ e ∷ []) }
        ensures keeps { IfOk result (λ u. KeepsProgram self.old self.new) }
    {
        let Some(token) = self.book.enter(iteration) else {
            unreachable!()
        };
        let running = RunningIteration::new(token, code, input, &self.cells);
        self.running[iteration as usize] = Some(running);
        self.schedule.enter(iteration);
        append(&mut self.events, Event::Enter(iteration))
    }

    // Returns what the running instance of an iteration does next. Returns `None` if none runs.
    fn next_of_running(&self, iteration: u32) -> Option<NextAction>
        requires there { iteration < length self.now.running }
        ensures { result ≡ option_map (λ (h : RunningIterationState). h.next) (item_or None self.now.running iteration) }
    {
        match &self.running[iteration as usize] {
            Some(running) => Some(running.next()),
            None => None,
        }
    }

    // The access that is the next event of an iteration.
    fn access(&mut self, code: &Code, input: &Numbers, iteration: u32) -> Result<(), NoMemory>
        requires code { code.now ≡ B.code }
        requires input { input.now ≡ self.old.book.input }
        requires play { IsPlay B.code B.cells self.old }
        requires runs { IsRunning (run_state self.old) iteration }
        requires next { IfSome (item_or None self.old.running iteration) (λ (h : RunningIterationState). h.next ≡ NextAction.Access) }
        ensures play { IfOk result (λ u. IsPlay B.code B.cells self.new) }
        ensures event { IfOk result (λ u. (e : PlainEvent) → next_event (pipeline_played self.old) (run_state self.old) iteration ≡ Some e
            → self.new.events ≡ self.old.events ++ e ∷ []) }
        ensures keeps { IfOk result (λ u. KeepsProgram self.old self.new) }
    {
        let ticket = self.events.len() as u64 + 1;
        let Some(running) = &mut self.running[iteration as usize] else {
            unreachable!()
        };
        let made = running.access(code, input, &mut self.cells, ticket);
        append(&mut self.events, Event::Access(iteration, made))
    }

    // The end of the running instance of an iteration.
    fn end(&mut self, iteration: u32, end: StageEnd) -> Result<(), NoMemory>
        requires play { IsPlay B.code B.cells self.old }
        requires runs { IsRunning (run_state self.old) iteration }
        requires next { IfSome (item_or None self.old.running iteration) (λ (h : RunningIterationState). h.next ≡ NextAction.End end) }
        requires ends { end ≢ StageEnd.Stopped }
        ensures play { IfOk result (λ u. IsPlay B.code B.cells self.new) }
        ensures event { IfOk result (λ u. (e : PlainEvent) → next_event (pipeline_played self.old) (run_state self.old) iteration ≡ Some e
            → self.new.events ≡ self.old.events ++ e ∷ []) }
        ensures keeps { IfOk result (λ u. KeepsProgram self.old self.new) }
    {
        let Some(running) = self.running[iteration as usize].take() else {
            unreachable!()
        };
        running.end(end, &mut self.book);
        let event = self.schedule.end_instance(iteration, end);
        append(&mut self.events, event)
    }

    // The next event of an iteration.
    fn next(&mut self, code: &Code, input: &Numbers, iteration: u32) -> Result<(), NoMemory>
        requires code { code.now ≡ B.code }
        requires input { input.now ≡ self.old.book.input }
        requires play { IsPlay B.code B.cells self.old }
        requires next { (e : PlainEvent) × (next_event (pipeline_played self.old) (run_state self.old) iteration ≡ Some e) }
        ensures play { IfOk result (λ u. IsPlay B.code B.cells self.new) }
        ensures event { IfOk result (λ u. (e : PlainEvent) → next_event (pipeline_played self.old) (run_state self.old) iteration ≡ Some e
            → self.new.events ≡ self.old.events ++ e ∷ []) }
        ensures keeps { IfOk result (λ u. KeepsProgram self.old self.new) }
    {
        let Some(next) = self.next_of_running(iteration) else {
            return self.enter(code, input, iteration);
        };
        match next {
            NextAction::Access => self.access(code, input, iteration),
            NextAction::End(end) => self.end(iteration, end),
        }
    }

    /// Returns whose turn it is by this choice, if at most `workers` instances may run. Returns `None`
    /// if there is no candidate for the next event.
    pub fn choose(&self, workers: u32, choice: u32) -> Option<Turn>
        requires play { IsPlay B.code B.cells self.now }
        ensures { option_map (turn_event (pipeline_played self.now) self.now.book.limit (run_state self.now)) result
            ≡ option_map Some (chosen choice (candidates (pipeline_played self.now) self.now.book.limit workers (run_state self.now))) }
    {
        self.schedule.choose(workers, choice)
    }

    // Whether an instance of an iteration runs.
    fn is_running(&self, iteration: u32) -> bool
        ensures { IsTrue result → is_some (item_or None self.now.running iteration) ≡ true }
    {
        let index = iteration as usize;
        index < self.running.len() && self.running[index].is_some()
    }

    // Whether an iteration has a next event. A running instance has one, so the schedule, which looks
    // through all iterations that are alive, is not asked at each access.
    fn has_next(&self, iteration: u32) -> bool
        requires play { IsPlay B.code B.cells self.now }
        ensures { result ≡ is_some (next_event (pipeline_played self.now) (run_state self.now) iteration) }
    {
        if self.is_running(iteration) {
            return true;
        }
        self.schedule.has_next(iteration)
    }

    /// Returns whether a turn has an event.
    pub fn has_turn(&self, turn: Turn) -> bool
        requires play { IsPlay B.code B.cells self.now }
        ensures { result ≡ is_some (turn_event (pipeline_played self.now) self.now.book.limit (run_state self.now) turn) }
    {
        match turn {
            Turn::Next(iteration) => self.has_next(iteration),
            Turn::Begin => self.schedule.may_begin(),
        }
    }

    /// Returns the events so far.
    pub fn events(&self) -> &[Event]
        ensures { result.now ≡ self.now.events }
    {
        self.events.as_slice()
    }

    /// Returns whether the run is finished: the loop is closed, and all iterations have ended.
    pub fn is_finished(&self) -> bool
        requires play { IsPlay B.code B.cells self.now }
        requires limit { 0 < self.now.book.limit }
        ensures { IsTrue result ↔ IsFinished (run_state self.now) }
    {
        self.schedule.choose(1, 0).is_none()
    }

    /// Returns the events so far, and the cells.
    pub fn into_run(self) -> (Events, Cells)
        ensures events { result.0 ≡ self.events }
        ensures cells { result.1 ≡ self.cells }
    {
        let Player {
            book,
            schedule,
            running,
            cells,
            events,
        } = self;
        drop(book);
        drop(schedule);
        drop(running);
        (events, cells)
    }

    /// Makes the event of a turn. Returns an error only if memory runs out; the player is of no use
    /// then.
    pub fn take_turn(&mut self, code: &Code, input: &Numbers, turn: Turn) -> Result<(), NoMemory>
        requires code { code.now ≡ B.code }
        requires input { input.now ≡ self.old.book.input }
        requires play { IsPlay B.code B.cells self.old }
        requires turn { (e : PlainEvent) × (turn_event (pipeline_played self.old) self.old.book.limit (run_state self.old) turn ≡ Some e) }
        ensures play { IfOk result (λ u. IsPlay B.code B.cells self.new) }
        ensures event { IfOk result (λ u. (e : PlainEvent) → turn_event (pipeline_played self.old) self.old.book.limit
            (run_state self.old) turn ≡ Some e
            → self.new.events ≡ self.old.events ++ e ∷ []) }
        ensures keeps { IfOk result (λ u. KeepsProgram self.old self.new) }
    {
        match turn {
            Turn::Next(iteration) => self.next(code, input, iteration),
            Turn::Begin => self.begin(code, input),
        }
    }
}
