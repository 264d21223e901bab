//! The test of the tasks of one hall.

use pipe_frame::token::Task;
use pipe_worker::runs::Runs;
use std::marker::{Brand, PhantomData};
use work_deques::tally::TaskTest;
use worker_tasks::work_test::WorkTest;

/// The hall that workers share. It exists in proofs only, and the call that starts the workers picks
/// it.
pub trait DrivenHall {
    ghost use Rattle.pipe_frame.specs.Ties.{HallName};

    ghost named: { HallName };
}

impl DrivenHall for Brand {
    ghost use Rattle.pipe_worker.specs.HeldInstances.{no_hall};

    ghost named = { no_hall };
}

/// The tasks of the hall `J`: their tokens are as a call of that hall returns them. Tallies count them
/// by iteration and index.
pub struct TestOf<J, M> {
    of: PhantomData<J>,
    payload: PhantomData<M>,
}

impl<J: DrivenHall, M: Runs + Drop> TaskTest<Task<M>> for TestOf<J, M> {
    ghost use Rattle.pipe_frame.specs.SeatedTokens.{IsGivenToken};
    ghost use Rattle.worker_tasks.specs.Tasks.{IsTask};
    ghost use Rattle.worker_threads.specs.TaskNumbers.{task_number};

    ghost meets = { λ t. IsTask (IsGivenToken M.ready_at M.tie J.named) t };

    ghost tag = { task_number };
}

impl<J: DrivenHall, M: Runs + Drop> WorkTest<M> for TestOf<J, M> {
    ghost use Rattle.worker_threads.specs.TaskNumbers.{number_weighs, tokens_of_number};

    ghost named = { J.named };

    ghost takes = { λ t met. met };

    ghost gives = { λ t task. task };

    ghost weight = { tokens_of_number };

    ghost weighs = { number_weighs };
}
