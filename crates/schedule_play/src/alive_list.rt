//! The iterations of a run that have not ended, in a list that counts those that may go on.

ghost use Rattle.std.specs.Prelude.{◌≡◌, ◌≤◌, ◌<◌, ◌^◌, ◌++◌, ◌∷◌, [], ℕ, IfOk, Some, filter, is_some, length, map, nat_lt, option_map};
ghost use Rattle.std.specs.Prelude.{slice_set};
ghost use Rattle.std.specs.List.{list_all, prefix_len};
ghost use Rattle.pipe_model.specs.Pipelines.Pipeline.{Pipeline};
ghost use Rattle.pipe_model.specs.Runs.NextEvents.{next_begin};
ghost use Rattle.pipe_model.specs.Runs.Schedules.{candidates, chosen};
ghost use Rattle.pipe_model.specs.Runs.State.{State};
ghost use Rattle.schedule_play.specs.AliveChanges.{after_change, is_other, passes_left};
ghost use Rattle.schedule_play.specs.AliveLists.{IsRising, altered};
ghost use Rattle.schedule_play.specs.Turns.{alive_iterations, turn_event, turns};
ghost use Rattle.schedule_play.specs.declared.turns.Alive.{Alive as Kept};

use crate::changes::Change;
use crate::turns::{Alive, Turn, turn_at};
use pipe_model::memory::NoMemory;
use std::alloc::Global;
use std::marker::Model;

/// The iterations that have not ended, by rising number, with the counts of those that run and of those
/// that may start. Contracts see their list, and how many there may be. No call but `new` allocates.
#[derive(Drop)]
pub struct AliveList {
    entries: Vec<Alive>,
    // How many of them run an instance.
    running: usize,
    // How many of them have named a stage that they may enter.
    ready: usize,
    limit: u32,
}

impl Model for AliveList {
    ghost use Rattle.std.specs.Prelude.{◌≤◌, vec_capacity};
    ghost use Rattle.schedule_play.specs.AliveLists.{AliveListState, IsCounted};

    ghost Value = { AliveListState };

    ghost view = { λ l. record { entries = l.entries.items; limit = l.limit } };

    ghost invariant = { λ l. IsCounted l.entries.items l.running l.ready × (l.limit ≤ vec_capacity l.entries) };
}

impl AliveList {
    /// Returns a list without iterations, with room for `limit`. Returns an error only if memory runs
    /// out.
    pub fn new(alloc: Global, limit: u32) -> Result<Self, NoMemory>
        ensures { IfOk result (λ list. list ≡ record { entries = []; limit = limit }) }
    {
        Ok(AliveList {
            entries: Vec::with_capacity(alloc, limit as usize)?,
            running: 0,
            ready: 0,
            limit,
        })
    }

    /// Returns the iterations.
    pub fn entries(&self) -> &[Alive]
        ensures { result.now ≡ self.now.entries }
    {
        self.entries.as_slice()
    }

    /// Returns whether there are fewer iterations than there may be.
    pub fn has_place(&self) -> bool
        ensures { result ≡ nat_lt (length self.now.entries) self.now.limit }
    {
        self.entries.len() < self.limit as usize
    }

    /// Appends an iteration.
    pub fn push(&mut self, entry: Alive)
        requires room { length self.old.entries < self.old.limit }
        ensures { self.new ≡ record self.old { entries = self.old.entries ++ entry ∷ [] } }
    {
        self.running += usize::from(entry.readiness.is_running());
        self.ready += usize::from(entry.readiness.is_ready());
        self.entries.push_reserved(entry);
    }

    // Puts an entry in place of another.
    #[inline(always)]
    fn replace(&mut self, index: usize, entry: Alive)
        requires within { index < length self.old.entries }
        ensures { self.new ≡ record self.old { entries = slice_set self.old.entries index entry } }
    {
        let old = self.entries[index].readiness;
        let new = entry.readiness;
        self.running = self.running - usize::from(old.is_running()) + usize::from(new.is_running());
        self.ready = self.ready - usize::from(old.is_ready()) + usize::from(new.is_ready());
        self.entries[index] = entry;
    }

    // Changes the entry at this index, if there is one, by an event.
    #[inline(always)]
    fn change_at(&mut self, index: usize, change: Change)
        ensures { self.new ≡ record self.old { entries = altered (after_change change) self.old.entries index } }
    {
        if index < self.entries.len() {
            let old = self.entries[index];
            let new = old.after(change);
            if new != old {
                self.replace(index, new);
            }
        }
    }

    // Returns how many entries, of a list that rises, have a smaller number. While the iterations end in
    // their order the list has no gaps, and this is the distance to the first number.
    fn place_of(&self, iteration: u32) -> usize
        ensures bound { result ≤ length self.now.entries }
        ensures fits { result < 2 ^ 63 }
        ensures place { IsRising self.now.entries
            → result ≡ prefix_len (λ (a : Kept). nat_lt a.iteration iteration) self.now.entries }
    {
        let distance = self.distance_to(iteration);
        if distance < self.entries.len() && self.entries[distance].iteration == iteration {
            return distance;
        }
        self.entries
            .as_slice()
            .partition_point(|a| a.iteration < iteration)
    }

    // Returns how much the number is greater than the first one. Returns 0 if it is smaller, or if there
    // is none.
    fn distance_to(&self, iteration: u32) -> usize {
        if self.entries.is_empty() {
            return 0;
        }
        iteration.saturating_sub(self.entries[0].iteration) as usize
    }

    /// Changes the iterations by an event, which concerns the one that it names and its right neighbour.
    /// One that ends stays.
    #[inline(always)]
    pub fn change(&mut self, change: Change)
        ensures entries { IsRising self.old.entries → self.new.entries ≡ map (after_change change) self.old.entries }
        ensures limit { self.new.limit ≡ self.old.limit }
    {
        let place = self.place_of(change.iteration());
        self.change_at(place, change);
        self.change_at(place + 1, change);
    }

    /// Removes an iteration, if it is there.
    pub fn remove(&mut self, iteration: u32)
        ensures entries { IsRising self.old.entries → self.new.entries ≡ filter (is_other iteration) self.old.entries }
        ensures limit { self.new.limit ≡ self.old.limit }
    {
        let place = self.place_of(iteration);
        if place < self.entries.len() && self.entries[place].iteration == iteration {
            let ended = self.entries.remove(place).readiness;
            self.running -= usize::from(ended.is_running());
            self.ready -= usize::from(ended.is_ready());
        }
    }

    /// Returns whether the left neighbour of the iteration, if it has one that has not ended, has named a
    /// stage with a greater number.
    pub fn passes_left(&self, iteration: u32, number: i64) -> bool
        ensures { IsRising self.now.entries → result ≡ list_all (passes_left iteration number) self.now.entries }
    {
        let place = self.place_of(iteration);
        place == 0 || self.entries[place - 1].passes_left(iteration, number)
    }

    // Returns the number of turns, with the beginning of the next iteration if it may begin.
    fn count_turns(&self, room: bool, begins: bool) -> usize
        ensures { result ≡ length (turns room begins self.now.entries) }
    {
        if room {
            self.running + self.ready + usize::from(begins)
        } else {
            self.running
        }
    }

    /// Returns whose turn it is: the candidate whose index is `choice` modulo their number. The candidates
    /// are the next event of each iteration, by rising number, and then the beginning of the next one if
    /// it may begin. An instance may start only while fewer than `workers` run. Returns `None` if there
    /// is none.
    pub fn choose(&self, begins: bool, workers: u32, choice: u32) -> Option<Turn>
        ensures { (p : Pipeline) (limit : ℕ) (s : State) → self.now.entries ≡ alive_iterations s → begins ≡ is_some (next_begin limit s)
            → option_map (turn_event p limit s) result ≡ option_map Some (chosen choice (candidates p limit workers s)) }
    {
        let room = self.running < workers as usize;
        let count = self.count_turns(room, begins);
        if count == 0 {
            return None;
        }
        Some(turn_at(self.entries.as_slice(), room, choice as usize % count))
    }
}
