//! What a schedule keeps of its run, for the choice of the next event.

ghost use Rattle.std.specs.Prelude.{◌≡◌, ◌≢◌, ◌<◌, ◌+◌, ◌-◌, ◌^◌, ◌∷◌, [], IfOk, is_some, length, ◌==◌, option_map, Some};
ghost use Rattle.pipe_model.specs.declared.event.Event.TheVariants as events;
ghost use Rattle.pipe_model.specs.Pipelines.Pipeline.{Pipeline};
ghost use Rattle.pipe_model.specs.Runs.Allowed.{ControlAllows, IsRunning, MayAdvance, MayEnter};
ghost use Rattle.pipe_model.specs.Pipelines.Behaviour.{closes_at_once};
ghost use Rattle.pipe_model.specs.Runs.NextEvents.{may_enter, next_begin, next_event};
ghost use Rattle.pipe_model.specs.Runs.Schedules.{candidates, chosen};
ghost use Rattle.pipe_model.specs.Runs.StageEnds.{stage_end_events};
ghost use Rattle.pipe_model.specs.Runs.State.{State, initial_state, next_state};
ghost use Rattle.schedule_play.specs.ScheduleStates.{IsScheduleOf, goes_on};
ghost use Rattle.schedule_play.specs.Turns.{turn_event};

use crate::alive_list::AliveList;
use crate::changes::Change;
use crate::turns::{Alive, Readiness, Turn, has_next};
use pipe_model::column::ColumnEnd;
use pipe_model::event::Event;
use pipe_model::memory::NoMemory;
use pipe_model::node::Kind;
use pipe_model::stage::StageEnd;
use std::alloc::Global;
use std::marker::Model;

/// What is kept of a run for the choice of its next event: the iterations that have not ended, and
/// whether the loop goes on. No call but `new` allocates. Each takes time that grows with the number of
/// the iterations that have not ended, and not with that of the others.
#[derive(Drop)]
pub struct Schedule {
    alive: AliveList,
    begun: u32,
    continues: bool,
}

impl Model for Schedule {
    ghost use Rattle.schedule_play.specs.ScheduleStates.{ScheduleState};

    ghost Value = { ScheduleState };

    ghost view = { λ s. record { alive = s.alive.entries; begun = s.begun; continues = s.continues; limit = s.alive.limit } };
}

// Returns whether the end of instance 0 closes the loop.
fn closes(end: ColumnEnd) -> bool
    ensures { result ≡ closes_at_once end }
{
    match end {
        ColumnEnd::End => false,
        ColumnEnd::Closed => true,
        ColumnEnd::Trapped(_) => true,
    }
}

// Returns whether the loop goes on after the last iteration, if it did before an event or if the event
// is that of the last iteration and does not close the loop.
fn goes_on(before: bool, last: bool, closes: bool) -> bool
    ensures { result ≡ goes_on before last closes }
{
    before || (last && !closes)
}

impl Schedule {
    /// Returns the schedule of a run without events, in which at most `limit` iterations may be alive.
    /// Returns an error only if memory runs out.
    pub fn new(alloc: Global, limit: u32) -> Result<Self, NoMemory>
        ensures empty { IfOk result (λ schedule. IsScheduleOf initial_state schedule) }
        ensures limit { IfOk result (λ schedule. schedule.limit ≡ limit) }
    {
        Ok(Schedule {
            alive: AliveList::new(alloc, limit)?,
            begun: 0,
            continues: true,
        })
    }

    /// Returns whether the next iteration may begin.
    pub fn may_begin(&self) -> bool
        ensures { (s : State) → IsScheduleOf s self.now → result ≡ is_some (next_begin self.now.limit s) }
    {
        self.alive.has_place() && self.continues
    }

    /// Returns whether an iteration has a next event.
    pub fn has_next(&self, iteration: u32) -> bool
        ensures { (p : Pipeline) (s : State) → IsScheduleOf s self.now → result ≡ is_some (next_event p s iteration) }
    {
        has_next(self.alive.entries(), iteration)
    }

    /// Returns whose turn it is by this choice, if at most `workers` instances may run. Returns `None`
    /// if there is no candidate.
    pub fn choose(&self, workers: u32, choice: u32) -> Option<Turn>
        ensures { (p : Pipeline) (s : State) → IsScheduleOf s self.now
            → option_map (turn_event p self.now.limit s) result ≡ option_map Some (chosen choice (candidates p self.now.limit workers s)) }
    {
        self.alive.choose(self.may_begin(), workers, choice)
    }

    /// Notes that the next iteration begins.
    pub fn begin(&mut self)
        requires room { length self.old.alive < self.old.limit }
        requires bounded { self.old.begun < 2 ^ 32 - 1 }
        ensures schedule { (s : State) → IsScheduleOf s self.old → IsScheduleOf (next_state s (events.Begin self.old.begun)) self.new }
        ensures limit { self.new.limit ≡ self.old.limit }
    {
        self.alive.push(Alive {
            iteration: self.begun,
            number: 0,
            readiness: Readiness::Running,
        });
        self.begun += 1;
        self.continues = false;
    }

    // Returns whether no later iteration has begun.
    fn is_last(&self, iteration: u32) -> bool
        ensures { result ≡ (iteration + 1 == self.now.begun) }
    {
        u64::from(iteration) + 1 == u64::from(self.begun)
    }

    // Returns whether an iteration that names this stage may enter it.
    fn may_enter(&self, iteration: u32, kind: Kind, number: i64) -> bool
        ensures { (s : State) → IsScheduleOf s self.now → result ≡ may_enter s.frames iteration kind number }
    {
        match kind {
            Kind::Zero => true,
            Kind::Continue => true,
            Kind::Wait => self.alive.passes_left(iteration, number),
        }
    }

    /// Notes that an iteration names this stage.
    pub fn advance(&mut self, iteration: u32, kind: Kind, number: i64)
        ensures schedule { (s : State) → IsScheduleOf s self.old → MayAdvance s iteration kind number
            → IsScheduleOf (next_state s (events.Advance iteration kind number)) self.new }
        ensures limit { self.new.limit ≡ self.old.limit }
    {
        let may_enter = self.may_enter(iteration, kind, number);
        let last = self.is_last(iteration);
        self.alive
            .change(Change::Named(iteration, number, may_enter));
        self.continues = goes_on(self.continues, last, false);
    }

    /// Notes that an iteration enters the stage that it has named.
    pub fn enter(&mut self, iteration: u32)
        ensures schedule { (s : State) → IsScheduleOf s self.old → MayEnter s iteration → IsScheduleOf
            (next_state s (events.Enter iteration)) self.new }
        ensures limit { self.new.limit ≡ self.old.limit }
    {
        self.alive.change(Change::Entered(iteration));
    }

    /// Notes that an iteration ends.
    pub fn finish(&mut self, iteration: u32, end: ColumnEnd)
        ensures schedule { (s : State) → IsScheduleOf s self.old → IsRunning s iteration
            → IsScheduleOf (next_state s (events.Finish iteration end)) self.new }
        ensures limit { self.new.limit ≡ self.old.limit }
    {
        let last = self.is_last(iteration);
        self.alive.change(Change::Ended(iteration));
        self.alive.remove(iteration);
        self.continues = goes_on(self.continues, last, closes(end));
    }

    /// Notes that the running instance of an iteration ends, and returns the event.
    pub fn end_instance(&mut self, iteration: u32, end: StageEnd) -> Event
        requires ends { end ≢ StageEnd.Stopped }
        ensures event { stage_end_events iteration end ≡ result ∷ [] }
        ensures schedule { (s : State) → IsScheduleOf s self.old → ControlAllows self.old.limit s result
            → IsScheduleOf (next_state s result) self.new }
        ensures limit { self.new.limit ≡ self.old.limit }
    {
        match end {
            StageEnd::Wait(number) => self.named(iteration, Kind::Wait, number),
            StageEnd::Continue(number) => self.named(iteration, Kind::Continue, number),
            StageEnd::End => self.ended(iteration, ColumnEnd::End),
            StageEnd::Closed => self.ended(iteration, ColumnEnd::Closed),
            StageEnd::Trap(trap) => self.ended(iteration, ColumnEnd::Trapped(trap)),
            StageEnd::Stopped => unreachable!(),
        }
    }

    // Notes that an iteration names this stage, and returns the event.
    fn named(&mut self, iteration: u32, kind: Kind, number: i64) -> Event
        ensures event { result ≡ events.Advance iteration kind number }
        ensures schedule { (s : State) → IsScheduleOf s self.old → MayAdvance s iteration kind number
            → IsScheduleOf (next_state s (events.Advance iteration kind number)) self.new }
        ensures limit { self.new.limit ≡ self.old.limit }
    {
        self.advance(iteration, kind, number);
        Event::Advance(iteration, kind, number)
    }

    // Notes that an iteration ends, and returns the event.
    fn ended(&mut self, iteration: u32, end: ColumnEnd) -> Event
        ensures event { result ≡ events.Finish iteration end }
        ensures schedule { (s : State) → IsScheduleOf s self.old → IsRunning s iteration
            → IsScheduleOf (next_state s (events.Finish iteration end)) self.new }
        ensures limit { self.new.limit ≡ self.old.limit }
    {
        self.finish(iteration, end);
        Event::Finish(iteration, end)
    }
}
