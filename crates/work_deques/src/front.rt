//! The front of a deque, from which any worker takes tasks.

ghost use Rattle.std.specs.Prelude.{◌≡◌, ◌<◌, ◌+◌, ◌∷◌, [], IfSome, IfOk, MatchOption};
ghost use Rattle.crossbeam_deque.specs.Handles.{IsPassOf, SameWorker, stealer_deque, view, worker_deque, worker_index, worker_view};
ghost use Rattle.work_deques.specs.Tallies.{tally, with_taken};

use crate::ends::Owner;
use crate::protocol::{Got, OnePart, Tested};
use crate::tally::{Tally, TaskTest};
use crossbeam_deque::{Pass, Steal, Stealer};
use pipe_model::memory::NoMemory;
use std::alloc::Global;
use std::sync::Wait;

// The front of a deque, with its own tally.
#[derive(Drop)]
pub struct Front<T: Drop, Q: TaskTest<T>> {
    stealer: Stealer<T, Global, Tally, Tested<Q>>,
    pass: Pass<T, Tally>,
    pub ghost own: { IsPassOf (stealer_deque stealer) pass },
    pub ghost part: { 0 < (view pass).parts },
}

impl<T: Drop, Q: TaskTest<T>> Front<T, Q> {
    // Makes a front of a worker's deque, with one of the owner's parts.
    pub fn of(owner: &mut Owner<T, Q>) -> Result<Self, NoMemory>
        requires parts { 1 < (worker_view owner.old).parts }
        ensures unchanged { SameWorker owner.old owner.new × (worker_index owner.new ≡ worker_index owner.old) }
        ensures part { 0 < (worker_view owner.new).parts }
        ensures owner { IfOk result (λ f. worker_view owner.old ≡ tally ((worker_view owner.new).parts + 1) (worker_view owner.new).put
            (worker_view owner.new).taken) }
        ensures deque { IfOk result (λ f. stealer_deque f.stealer ≡ worker_deque owner.new) }
        ensures tally { IfOk result (λ f. view f.pass ≡ tally 1 [] []) }
    {
        let stealer = owner.stealer()?;
        let pass = owner.another::<OnePart>();
        Ok(Front { stealer, pass })
    }

    // Takes the first task, if there is one. Tries again if another thread was quicker.
    pub fn steal<R: Wait>(&mut self, rt: &R) -> Option<T>
        ensures test { IfSome result Q.meets }
        ensures tally { MatchOption result (view self.new.pass ≡ view self.old.pass)
            (λ t. view self.new.pass ≡ with_taken (view self.old.pass) (Q.tag t ∷ [])) }
        ensures deque { stealer_deque self.new.stealer ≡ stealer_deque self.old.stealer }
    {
        for _ in rt.forever() {
            match self.stealer.steal_as::<Got<Q>>(&mut self.pass) {
                Steal::Success(task) => return Some(task),
                Steal::Empty => return None,
                Steal::Retry => {}
            }
        }
        unreachable!()
    }

    // Returns the pass, by which the owner takes over the tally.
    pub fn into_pass(self) -> Pass<T, Tally>
        ensures own { IsPassOf (stealer_deque self.stealer) result }
        ensures view { view result ≡ view self.pass }
    {
        let Front { stealer: _, pass } = self;
        pass
    }
}
