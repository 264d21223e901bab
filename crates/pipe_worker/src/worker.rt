//! The loop of a worker.

ghost use Rattle.std.specs.Prelude.{◌≡◌, IfSome};
ghost use Rattle.pipe_frame.specs.ResultTokens.{IfGo};
ghost use Rattle.pipe_frame.specs.SeatedTokens.{IsGivenToken};
ghost use Rattle.pipe_frame.specs.TokenCounts.{tokens_entered, tokens_in, tokens_next};
ghost use Rattle.worker_tasks.specs.HeldTokens.{KeepsTokens};
ghost use Rattle.pipe_worker.specs.Machines.{CanDrive};
ghost use Rattle.worker_tasks.specs.Tasks.{IsOver};
ghost use Rattle.pipe_worker.specs.Workers.{IsSameWorker, ends_of, number_of};

use crate::advance::run_and_advance;
use crate::gate::Gate;
use crate::idle::Idle;
use crate::pace::Pace;
use crate::runs::Runs;
use lazy_enable::look::{Look, StageOutcome, after};
use pipe_frame::hall::Hall;
use pipe_frame::results::{Begun, Next, Rescue};
use pipe_frame::token::{FrameToken, Task};
use pipe_model::list::Numbers;
use pipe_model::node::NodeId;
use pipe_model::stage::StageEnd;
use stage_code::code::Code;
use std::sync::Wait;
use work_deques::ends::Ends;
use worker_tasks::tasks::WorkerTasks;
use worker_tasks::work_test::WorkTest;

/// A worker, with its ends of the deques. Workers have numbers from 0, as their deques have.
#[derive(Drop)]
pub struct Worker<M: Runs + Drop, Q: WorkTest<M>> {
    tasks: WorkerTasks<M, Q>,
    pace: Pace,
}

// What came of a worker's question to the book.
enum Rescued {
    // There was something to do, and it was done.
    Worked,
    // There is nothing to do now.
    Nothing,
    // The next iteration may begin, and the worker left that to others.
    Left,
    // The run is finished or stopped.
    Over,
}

// Returns whether the loop goes on after an instance 0 with this end.
fn loop_goes_on(end: StageEnd) -> bool {
    match end {
        StageEnd::Wait(_) | StageEnd::Continue(_) | StageEnd::End => true,
        StageEnd::Closed | StageEnd::Trap(_) | StageEnd::Stopped => false,
    }
}

impl<M: Runs + Drop, Q: WorkTest<M>> Worker<M, Q> {
    /// Returns the worker with this number.
    pub fn new(number: u32, ends: Ends<Task<M>, Q>) -> Self
        ensures number { number_of result ≡ number }
        ensures ends { ends_of result ≡ ends }
    {
        Worker {
            tasks: WorkerTasks::new(number, ends),
            pace: Pace::new(),
        }
    }

    /// Returns the worker's ends of the deques.
    pub fn into_ends(self) -> Ends<Task<M>, Q>
        ensures { result ≡ ends_of self }
    {
        self.tasks.into_ends()
    }

    // Looks for a further task after an iteration that cannot go on. If the next iteration may begin, its
    // task is pushed after the look: the worker takes one of its tasks at once, and where it is the only
    // one, workers that have nothing to do should not find it first.
    fn look<R: Wait, H: Hall<M>>(
        &mut self,
        rt: &R,
        hall: &mut H,
        iteration: u32,
        outcome: StageOutcome,
        next_begins: bool,
    )
        requires named { H.named hall.old ≡ Q.named }
        ensures named { H.named hall.new ≡ Q.named }
        ensures tokens { KeepsTokens Q.weight 0 0 (H.tokens hall.old) (ends_of self.old) (H.tokens hall.new) (ends_of self.new) }
        ensures worker { IsSameWorker self.old self.new }
    {
        let found = match after(outcome, true) {
            Look::Right => hall.check_right(rt, iteration),
            Look::On | Look::Rescue => None,
        };
        if next_begins {
            self.tasks.offer_next();
        }
        if let Some(token) = found {
            self.tasks.keep(rt, hall, token);
        }
    }

    // Goes on after an instance, as its iteration does: returns the token of the next instance, or looks
    // for a further task, or leaves all tasks to others if the run is stopped.
    fn go_on<R: Wait, H: Hall<M>>(
        &mut self,
        rt: &R,
        hall: &mut H,
        iteration: u32,
        next: Next<M>,
        next_begins: bool,
    ) -> Option<FrameToken<M>>
        requires named { H.named hall.old ≡ Q.named }
        requires given { IfGo next (IsGivenToken M.ready_at M.tie Q.named) }
        ensures named { H.named hall.new ≡ Q.named }
        ensures given { IfSome result (IsGivenToken M.ready_at M.tie Q.named) }
        ensures tokens { KeepsTokens Q.weight (tokens_next next) (tokens_entered result) (H.tokens hall.old) (ends_of self.old)
            (H.tokens hall.new) (ends_of self.new) }
        ensures worker { IsSameWorker self.old self.new }
    {
        let outcome = match next {
            Next::Go(further) => {
                if next_begins {
                    self.tasks.offer_next();
                }
                return Some(further);
            }
            Next::Stopped => {
                self.tasks.empty(rt, hall);
                return None;
            }
            Next::Suspended => StageOutcome::Suspended,
            Next::Ended => StageOutcome::Ended,
        };
        self.look(rt, hall, iteration, outcome, next_begins);
        None
    }

    // Runs an instance. Returns the token of the iteration's next instance, if that is to run next.
    fn step<R: Wait, H: Hall<M>, G: Gate>(
        &mut self,
        rt: &R,
        code: &Code,
        input: &Numbers,
        hall: &mut H,
        gate: &G,
        token: FrameToken<M>,
    ) -> Option<FrameToken<M>>
        requires named { H.named hall.old ≡ Q.named }
        requires drives { CanDrive M.code Q.named code.now input.now }
        requires given { IsGivenToken M.ready_at M.tie Q.named token }
        ensures named { H.named hall.new ≡ Q.named }
        ensures given { IfSome result (IsGivenToken M.ready_at M.tie Q.named) }
        ensures tokens { KeepsTokens Q.weight 1 (tokens_entered result) (H.tokens hall.old) (ends_of self.old) (H.tokens hall.new)
            (ends_of self.new) }
        ensures worker { IsSameWorker self.old self.new }
    {
        let iteration = token.iteration;
        let index = token.index;
        gate.at(rt, self.tasks.number(), NodeId { iteration, index });
        let (next, end, length) = run_and_advance(rt, code, input, hall, token);
        self.pace.note(length);
        let next_begins = index == 0 && loop_goes_on(end);
        self.go_on(rt, hall, iteration, next, next_begins)
    }

    // Runs an iteration from an instance on, until it cannot go on.
    fn run<R: Wait, H: Hall<M>, G: Gate>(
        &mut self,
        rt: &R,
        code: &Code,
        input: &Numbers,
        hall: &mut H,
        gate: &G,
        token: FrameToken<M>,
    )
        requires named { H.named hall.old ≡ Q.named }
        requires drives { CanDrive M.code Q.named code.now input.now }
        requires given { IsGivenToken M.ready_at M.tie Q.named token }
        ensures named { H.named hall.new ≡ Q.named }
        ensures tokens { KeepsTokens Q.weight 1 0 (H.tokens hall.old) (ends_of self.old) (H.tokens hall.new) (ends_of self.new) }
        ensures worker { IsSameWorker self.old self.new }
    {
        let mut token = token;
        for _ in rt.forever() {
            match self.step(rt, code, input, hall, gate, token) {
                Some(further) => token = further,
                None => return,
            }
        }
    }

    // Begins the next iteration, if it may begin, and runs it.
    fn begin<R: Wait, H: Hall<M>, G: Gate>(
        &mut self,
        rt: &R,
        code: &Code,
        input: &Numbers,
        hall: &mut H,
        gate: &G,
    )
        requires named { H.named hall.old ≡ Q.named }
        requires drives { CanDrive M.code Q.named code.now input.now }
        ensures named { H.named hall.new ≡ Q.named }
        ensures tokens { KeepsTokens Q.weight 0 0 (H.tokens hall.old) (ends_of self.old) (H.tokens hall.new) (ends_of self.new) }
        ensures worker { IsSameWorker self.old self.new }
    {
        match hall.begin(rt) {
            Begun::Started(token) => self.run(rt, code, input, hall, gate, token),
            Begun::Stopped => self.tasks.empty(rt, hall),
            Begun::Throttled | Begun::Closed | Begun::NotYet => {}
        }
    }

    // Does a task.
    fn perform<R: Wait, H: Hall<M>, G: Gate>(
        &mut self,
        rt: &R,
        code: &Code,
        input: &Numbers,
        hall: &mut H,
        gate: &G,
        task: Task<M>,
    )
        requires named { H.named hall.old ≡ Q.named }
        requires drives { CanDrive M.code Q.named code.now input.now }
        requires task { Q.meets task }
        ensures named { H.named hall.new ≡ Q.named }
        ensures tokens { KeepsTokens Q.weight (tokens_in task) 0 (H.tokens hall.old) (ends_of self.old) (H.tokens hall.new)
            (ends_of self.new) }
        ensures worker { IsSameWorker self.old self.new }
    {
        match task {
            Task::Begin => self.begin(rt, code, input, hall, gate),
            Task::Resume(token) => self.run(rt, code, input, hall, gate, token),
        }
    }

    // Asks the book for something to do, and does it. Begins an iteration only if it `may_begin` one.
    fn rescue<R: Wait, H: Hall<M>, G: Gate>(
        &mut self,
        rt: &R,
        code: &Code,
        input: &Numbers,
        hall: &mut H,
        gate: &G,
        may_begin: bool,
    ) -> Rescued
        requires named { H.named hall.old ≡ Q.named }
        requires drives { CanDrive M.code Q.named code.now input.now }
        ensures named { H.named hall.new ≡ Q.named }
        ensures over { result ≡ Rescued.Over → IsOver (H.seen hall.new) }
        ensures tokens { KeepsTokens Q.weight 0 0 (H.tokens hall.old) (ends_of self.old) (H.tokens hall.new) (ends_of self.new) }
        ensures worker { IsSameWorker self.old self.new }
    {
        match hall.rescue(rt) {
            Rescue::Token(token) => {
                self.run(rt, code, input, hall, gate, token);
                Rescued::Worked
            }
            Rescue::MayBegin => {
                if !may_begin {
                    return Rescued::Left;
                }
                self.begin(rt, code, input, hall, gate);
                Rescued::Worked
            }
            Rescue::Nothing => Rescued::Nothing,
            Rescue::Finished => Rescued::Over,
            Rescue::Stopped => {
                self.tasks.empty(rt, hall);
                Rescued::Over
            }
        }
    }

    /// Runs instances until the run is over. Returns only after the hall has seen the run finished or
    /// stopped; the worker then has the same number, and its ends are still ends of the same deques. It
    /// holds no token then that it did not hold before: each token that the hall gave to it, or that
    /// came with a task, it has given back to the hall or pushed with a task. No clause says that it
    /// returns, or that its own deque is empty then.
    pub fn work<R: Wait, H: Hall<M>, G: Gate>(
        &mut self,
        rt: &R,
        code: &Code,
        input: &Numbers,
        hall: &mut H,
        gate: &G,
    )
        requires named { H.named hall.old ≡ Q.named }
        requires drives { CanDrive M.code Q.named code.now input.now }
        ensures named { H.named hall.new ≡ Q.named }
        ensures over { IsOver (H.seen hall.new) }
        ensures tokens { KeepsTokens Q.weight 0 0 (H.tokens hall.old) (ends_of self.old) (H.tokens hall.new) (ends_of self.new) }
        ensures worker { IsSameWorker self.old self.new }
    {
        let mut idle = Idle::new();
        let mut looks = 0u32;
        for _ in rt.forever() {
            let steals = idle.may_steal(self.pace.is_short());
            if let Some(task) = self.tasks.take(rt, steals) {
                idle.reset();
                looks = 0;
                self.perform(rt, code, input, hall, gate, task);
            } else if !steals {
                idle.rest(rt);
            } else if looks > 0 {
                looks -= 1;
                idle.pause(rt);
            } else {
                match self.rescue(rt, code, input, hall, gate, idle.may_begin()) {
                    Rescued::Worked => idle.reset(),
                    Rescued::Nothing => looks = idle.after_nothing(),
                    Rescued::Left => looks = idle.after_offer(),
                    Rescued::Over => return,
                }
            }
        }
    }
}
