//! Where a worker looks for work after a stage instance.

ghost use Rattle.std.specs.Prelude.{◌≡◌};
ghost use Rattle.lazy_enable.specs.AfterInstance.{look_after};

/// How an iteration goes on after one of its stage instances.
#[derive(Clone, Copy)]
pub enum StageOutcome {
    /// Its next instance has started.
    Went,
    /// It waits for its left neighbour.
    Suspended,
    /// It was its last instance.
    Ended,
}

/// Where a worker looks for its next stage instance.
#[derive(Clone, Copy)]
pub enum Look {
    /// In its own iteration, which goes on.
    On,
    /// At the right neighbour of its iteration, which may have waited for this one.
    Right,
    /// In any iteration, since its deque was empty.
    Rescue,
}

/// Returns where a worker looks after a stage instance: in its own iteration if that goes on, and
/// otherwise at the right neighbour, or in any iteration if `popped` is false. That is so if the worker
/// has tried to pop a task since the instance ended, and its deque returned none.
pub fn after(outcome: StageOutcome, popped: bool) -> Look
    ensures { result ≡ look_after outcome popped }
{
    match outcome {
        StageOutcome::Went => Look::On,
        StageOutcome::Suspended | StageOutcome::Ended => {
            if popped { Look::Right } else { Look::Rescue }
        }
    }
}
