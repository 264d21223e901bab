//! A worker's ends of the deques, and the tasks that go through them.

ghost use Rattle.std.specs.Prelude.{◌≡◌, IfSome};
ghost use Rattle.pipe_frame.specs.SeatedTokens.{IsGivenToken};
ghost use Rattle.worker_tasks.specs.HeldTokens.{KeepsTokens, TakesTokens, tokens_taken};
ghost use Rattle.worker_tasks.specs.OwnedEnds.{OfSameWorker, owned_ends, owner_of};
ghost use Rattle.worker_tasks.specs.Tasks.{IsStopSeen};

use crate::work_test::WorkTest;
use pipe_frame::hall::Hall;
use pipe_frame::stands::Stands;
use pipe_frame::token::{FrameToken, Task};
use std::sync::Wait;
use work_deques::ends::Ends;

/// The ends of the deques that a worker has, and the worker's number. Workers have numbers from 0, as
/// their deques have. All calls keep the number, and the ends of the same deques.
#[derive(Drop)]
pub struct WorkerTasks<M: Stands + Drop, Q: WorkTest<M>> {
    number: u32,
    ends: Ends<Task<M>, Q>,
}

impl<M: Stands + Drop, Q: WorkTest<M>> WorkerTasks<M, Q> {
    /// Returns the tasks of the worker with this number.
    pub fn new(number: u32, ends: Ends<Task<M>, Q>) -> Self
        ensures number { owner_of result ≡ number }
        ensures ends { owned_ends result ≡ ends }
    {
        WorkerTasks { number, ends }
    }

    /// Returns the worker's number.
    pub fn number(&self) -> u32
        ensures { result ≡ owner_of self.now }
    {
        self.number
    }

    /// Returns the worker's ends of the deques.
    pub fn into_ends(self) -> Ends<Task<M>, Q>
        ensures { result ≡ owned_ends self }
    {
        self.ends
    }

    // Takes a task from the deque of another worker, if one has some.
    fn steal<R: Wait>(&mut self, rt: &R) -> Option<Task<M>>
        ensures task { IfSome result Q.meets }
        ensures tokens { TakesTokens Q.weight (tokens_taken result) (owned_ends self.old) (owned_ends self.new) }
        ensures worker { OfSameWorker self.old self.new }
    {
        let workers = self.ends.workers();
        for step in 1..workers {
            let victim = (u64::from(self.number) + u64::from(step)) % u64::from(workers);
            if let Some(task) = self.ends.steal(rt, victim as u32) {
                return Some(task);
            }
        }
        None
    }

    /// Takes the last task of the worker's own deque, or else, if the worker `steals`, the first one of
    /// another worker's.
    pub fn take<R: Wait>(&mut self, rt: &R, steals: bool) -> Option<Task<M>>
        ensures task { IfSome result Q.meets }
        ensures tokens { TakesTokens Q.weight (tokens_taken result) (owned_ends self.old) (owned_ends self.new) }
        ensures worker { OfSameWorker self.old self.new }
    {
        match self.ends.pop() {
            Some(task) => Some(task),
            None => { if steals { self.steal(rt) } else { None } }
        }
    }

    /// Keeps a token as a task, or leaves it to others if the deque refuses it.
    pub fn keep<R: Wait, H: Hall<M>>(&mut self, rt: &R, hall: &mut H, token: FrameToken<M>)
        requires named { H.named hall.old ≡ Q.named }
        requires given { IsGivenToken M.ready_at M.tie Q.named token }
        ensures named { H.named hall.new ≡ Q.named }
        ensures tokens { KeepsTokens Q.weight 1 0 (H.tokens hall.old) (owned_ends self.old) (H.tokens hall.new) (owned_ends self.new) }
        ensures worker { OfSameWorker self.old self.new }
    {
        if let Err(Task::Resume(token)) = self.ends.push(Task::Resume(token)) {
            hall.leave_ready(rt, token);
        }
    }

    /// Leaves the tasks of the worker's own deque to others. A task to begin an iteration is dropped,
    /// since the book knows whether one may begin.
    pub fn empty<R: Wait, H: Hall<M>>(&mut self, rt: &R, hall: &mut H)
        requires named { H.named hall.old ≡ Q.named }
        ensures named { H.named hall.new ≡ Q.named }
        ensures stopped { IsStopSeen (H.seen hall.old) → IsStopSeen (H.seen hall.new) }
        ensures tokens { KeepsTokens Q.weight 0 0 (H.tokens hall.old) (owned_ends self.old) (H.tokens hall.new) (owned_ends self.new) }
        ensures worker { OfSameWorker self.old self.new }
    {
        for _ in rt.forever() {
            match self.ends.pop() {
                None => return,
                Some(Task::Begin) => {}
                Some(Task::Resume(token)) => hall.leave_ready(rt, token),
            }
        }
    }

    /// Lets the next iteration begin, by a task. If the deque refuses it, the book knows that one may
    /// begin.
    pub fn offer_next(&mut self)
        ensures tokens { TakesTokens Q.weight 0 (owned_ends self.old) (owned_ends self.new) }
        ensures worker { OfSameWorker self.old self.new }
    {
        let _refused = self.ends.push(Task::Begin);
    }
}
