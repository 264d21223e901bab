//! How an event changes what is kept of the iterations.

ghost use Rattle.std.specs.Prelude.{◌≡◌, ◌+◌, ◌==◌, if◌then◌else◌};
ghost use Rattle.schedule_play.specs.AliveChanges.{after_change, changed_iteration, passes_left, released};

use crate::turns::{Alive, Readiness};

/// An event of an iteration, as far as it changes what is kept of the iterations.
#[derive(Clone, Copy)]
pub enum Change {
    /// The iteration names a stage of this number, which it may enter or not.
    Named(u32, i64, bool),
    /// It enters the stage that it has named.
    Entered(u32),
    /// It ends.
    Ended(u32),
}

impl Change {
    /// Returns the iteration of the event.
    pub fn iteration(self) -> u32
        ensures { result ≡ changed_iteration self }
    {
        match self {
            Change::Named(iteration, _, _) => iteration,
            Change::Entered(iteration) => iteration,
            Change::Ended(iteration) => iteration,
        }
    }
}

impl Readiness {
    // Returns how far an iteration is that has named a stage.
    fn of_waiting(may_enter: bool) -> Readiness
        ensures { result ≡ (if may_enter then Readiness.MayEnter else Readiness.MustWait) }
    {
        if may_enter {
            Readiness::MayEnter
        } else {
            Readiness::MustWait
        }
    }

    // Returns how far the iteration is after an event of its left neighbour, which may have passed the
    // stage for which it waits.
    fn released(self, passed: bool) -> Readiness
        ensures { result ≡ released passed self }
    {
        match self {
            Readiness::Running => Readiness::Running,
            Readiness::MayEnter => Readiness::MayEnter,
            Readiness::MustWait => Readiness::of_waiting(passed),
        }
    }
}

impl Alive {
    // Returns whether its left neighbour is this iteration.
    fn is_right_of(self, iteration: u32) -> bool
        ensures { result ≡ (self.iteration == iteration + 1) }
    {
        u64::from(self.iteration) == u64::from(iteration) + 1
    }

    /// Returns whether this is not the left neighbour of the iteration, or has named a stage with a
    /// greater number.
    pub fn passes_left(self, iteration: u32, number: i64) -> bool
        ensures { result ≡ passes_left iteration number self }
    {
        u64::from(self.iteration) + 1 != u64::from(iteration) || number < self.number
    }

    /// Returns the entry after an event. That of an iteration which ends stays.
    #[inline(always)]
    pub fn after(self, change: Change) -> Alive
        ensures { result ≡ after_change change self }
    {
        let mut entry = self;
        match change {
            Change::Named(iteration, number, may_enter) => {
                if self.iteration == iteration {
                    entry.number = number;
                    entry.readiness = Readiness::of_waiting(may_enter);
                } else if self.is_right_of(iteration) {
                    entry.readiness = self.readiness.released(self.number < number);
                }
            }
            Change::Entered(iteration) => {
                if self.iteration == iteration {
                    entry.readiness = Readiness::Running;
                }
            }
            Change::Ended(iteration) => {
                if self.is_right_of(iteration) {
                    entry.readiness = self.readiness.released(true);
                }
            }
        }
        entry
    }
}
