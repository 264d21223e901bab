//! The turns that a choice chooses between: the next events of the iterations, and the beginning of
//! the next one.

ghost use Rattle.std.specs.Prelude.{◌≡◌, ◌&&◌, nat_eq, slice_index_or, true};
ghost use Rattle.std.specs.List.{list_any};
ghost use Rattle.schedule_play.specs.Turns.{is_ready, is_running, iteration_turns, may_go};
ghost use Rattle.schedule_play.specs.declared.turns.Alive.{Alive as Kept};

/// How far an iteration is that has not ended.
#[derive(Clone, Copy, PartialEq)]
pub enum Readiness {
    /// Its current instance runs.
    Running,
    /// It has named a stage, and may enter it.
    MayEnter,
    /// It has named a stage, and must wait for its left neighbour.
    MustWait,
}

impl Readiness {
    /// Returns whether the current instance runs.
    pub fn is_running(self) -> bool
        ensures { result ≡ is_running self }
    {
        match self {
            Readiness::Running => true,
            Readiness::MayEnter => false,
            Readiness::MustWait => false,
        }
    }

    /// Returns whether the iteration has named a stage that it may enter.
    pub fn is_ready(self) -> bool
        ensures { result ≡ is_ready self }
    {
        match self {
            Readiness::Running => false,
            Readiness::MayEnter => true,
            Readiness::MustWait => false,
        }
    }

    // Returns whether the next event is a candidate. `room` says whether an instance may start.
    fn may_go(self, room: bool) -> bool
        ensures { result ≡ may_go room self }
    {
        match self {
            Readiness::Running => true,
            Readiness::MayEnter => room,
            Readiness::MustWait => false,
        }
    }
}

/// An iteration that has not ended.
#[derive(Clone, Copy, PartialEq)]
pub struct Alive {
    /// Its number.
    pub iteration: u32,
    /// How far it is.
    pub readiness: Readiness,
    /// The number of the stage that it has named last; 0 until it names one.
    pub number: i64,
}

/// Whose turn it is.
#[derive(Clone, Copy)]
pub enum Turn {
    /// The next event of the iteration with this number.
    Next(u32),
    /// The beginning of the next iteration.
    Begin,
}

/// Returns whether the iteration with this number has a next event: it runs an instance, or may enter
/// the stage that it has named.
pub fn has_next(alive: &[Alive], iteration: u32) -> bool
    ensures { result ≡ list_any (λ (a : Kept). nat_eq a.iteration iteration && may_go true a.readiness) alive.now }
{
    alive
        .iter()
        .any(|a| a.iteration == iteration && a.readiness.may_go(true))
}

/// Returns the turn with this index of the iterations, and after the last one the beginning of the next
/// iteration. `room` says whether an instance may start.
pub(crate) fn turn_at(alive: &[Alive], room: bool, index: usize) -> Turn
    ensures { result ≡ slice_index_or (iteration_turns room alive.now) index Turn.Begin }
{
    let mut left = index;
    for entry in alive {
        if entry.readiness.may_go(room) {
            if left == 0 {
                return Turn::Next(entry.iteration);
            }
            left -= 1;
        }
    }
    Turn::Begin
}
