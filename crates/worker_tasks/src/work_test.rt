//! The test of tasks.

use pipe_frame::stands::Stands;
use pipe_frame::token::Task;
use work_deques::tally::TaskTest;

/// The test of the tasks of one hall: their tokens are as a call of the hall returns them. It has no
/// calls, and is a parameter of the deques.
pub trait WorkTest<M: Stands + Drop>: TaskTest<Task<M>> {
    ghost use Rattle.std.specs.Prelude.{◌≡◌, ℕ};
    ghost use Rattle.pipe_frame.specs.SeatedTokens.{IsGivenToken};
    ghost use Rattle.pipe_frame.specs.Ties.{HallName};
    ghost use Rattle.pipe_frame.specs.TokenCounts.{tokens_in};
    ghost use Rattle.pipe_frame.specs.declared.token.Task.{Task};
    ghost use Rattle.worker_tasks.specs.Tasks.{IsTask};

    /// The hall, with its program, input and throttling limit.
    ghost named: { HallName };

    /// A task in a deque is one of the hall.
    ghost takes: { (t : Task M) → Self.meets t → IsTask (IsGivenToken M.ready_at M.tie named) t };

    /// Each task of the hall may be in a deque.
    ghost gives: { (t : Task M) → IsTask (IsGivenToken M.ready_at M.tie named) t → Self.meets t };

    /// How many tokens a task with this number has.
    ghost weight: { ℕ → ℕ };

    /// This is right for every task.
    ghost weighs: { (t : Task M) → weight (Self.tag t) ≡ tokens_in t };
}
