//! The ends of deques that a worker has.

ghost use Rattle.std.specs.Prelude.{◌<◌};
ghost use Rattle.crossbeam_deque.specs.Handles.{worker_view};

use crate::front::Front;
use crate::protocol::{Got, OnePart, Put, Tested, Total};
use crate::tally::{Tally, TaskTest};
use crossbeam_deque::Worker;
use pipe_model::memory::NoMemory;
use std::alloc::Global;
use std::sync::Wait;

// The back of a deque.
pub(crate) type Owner<T, Q> = Worker<T, Global, Tally, Tested<Q>>;

/// The ends of deques that a worker has: the back of its own deque, and the fronts of all deques, its
/// own included. All calls keep them ends of the same deques. No clause says that `pop` or `steal` finds
/// a task that is there.
#[derive(Drop)]
pub struct Ends<T: Drop, Q: TaskTest<T>> {
    own: Owner<T, Q>,
    fronts: Vec<Front<T, Q>>,
    ghost part: { 0 < (worker_view own).parts },
}

impl<T: Drop, Q: TaskTest<T>> Ends<T, Q> {
    ghost use Rattle.std.specs.Prelude.{◌≡◌, ◌<◌, ◌≤◌, ◌+◌, ◌∷◌, ◌++◌, [], ℕ, List, length, IfSome, IfErr, IfOk, MatchOption, MatchResult};
    ghost use Rattle.std.specs.Prelude.{min};
    ghost use Rattle.work_deques.specs.Tallies.{ALL_PARTS, IsEven, joined, tally, with_put, with_taken};
    ghost use Rattle.work_deques.specs.WorkerEnds.{SameDeques, capacity_of, deque_of, deque_of_front, front_count, front_tallies};
    ghost use Rattle.work_deques.specs.WorkerEnds.{front_tally, index_of, own_tally, tally_of_front};

    // Makes a deque with room for `capacity` tasks, and returns its back. There are no fronts yet.
    pub(crate) fn new(alloc: Global, capacity: u32) -> Result<Self, NoMemory>
        ensures index { IfOk result (λ e. index_of e ≡ 0) }
        ensures room { IfOk result (λ e. capacity ≤ capacity_of e) }
        ensures own { IfOk result (λ e. own_tally e ≡ tally ALL_PARTS [] []) }
        ensures fronts { IfOk result (λ e. e.fronts.items ≡ []) }
    {
        let own = Owner::lifo_as(alloc, capacity as usize)?;
        let fronts = Vec::new(alloc);
        Ok(Ends { own, fronts })
    }

    // Makes a front of the worker's own deque.
    pub(crate) fn make_front(&mut self) -> Result<Front<T, Q>, NoMemory>
        requires parts { 1 < (own_tally self.old).parts }
        ensures index { index_of self.new ≡ index_of self.old }
        ensures room { capacity_of self.old ≤ capacity_of self.new }
        ensures deque { deque_of self.new ≡ deque_of self.old }
        ensures own { IfOk result (λ f. own_tally self.old ≡ tally ((own_tally self.new).parts + 1) (own_tally self.new).put
            (own_tally self.new).taken) }
        ensures fronts { self.new.fronts ≡ self.old.fronts }
        ensures made { IfOk result (λ f. deque_of_front f ≡ deque_of self.new) }
        ensures tally { IfOk result (λ f. tally_of_front f ≡ tally 1 [] []) }
    {
        Front::of(&mut self.own)
    }

    // Appends a front.
    pub(crate) fn add_front(&mut self, front: Front<T, Q>) -> Result<(), NoMemory>
        ensures own { self.new.own ≡ self.old.own }
        ensures fronts { IfOk result (λ _. self.new.fronts.items ≡ self.old.fronts.items ++ front ∷ []) }
    {
        self.fronts.push(front)?;
        Ok(())
    }

    // Removes the last front, and returns it.
    pub(crate) fn take_front(&mut self) -> Front<T, Q>
        requires { 0 < front_count self.old }
        ensures own { self.new.own ≡ self.old.own }
        ensures fronts { self.old.fronts.items ≡ self.new.fronts.items ++ result ∷ [] }
    {
        let Some(front) = self.fronts.pop() else {
            unreachable!()
        };
        front
    }

    // Takes back a front of the worker's own deque. What the front has taken is then in the own tally.
    pub(crate) fn absorb(&mut self, front: Front<T, Q>)
        requires { deque_of_front front ≡ deque_of self.old }
        ensures deque { deque_of self.new ≡ deque_of self.old }
        ensures own { own_tally self.new ≡ joined (own_tally self.old) (tally_of_front front) }
        ensures fronts { self.new.fronts ≡ self.old.fronts }
    {
        self.own.absorb::<OnePart>(front.into_pass());
    }

    // Returns how many tasks are in the own deque. The owner has all parts of its tally.
    pub(crate) fn left(mut self) -> usize
        requires { (own_tally self).parts ≡ ALL_PARTS }
        ensures { (left : List ℕ) × (length left ≡ result) × IsEven (own_tally self) left }
    {
        self.own.len_as::<Total<Q>>()
    }

    /// Returns the number of workers; at most 4,294,967,295 are counted.
    pub fn workers(&self) -> u32
        ensures { result ≡ min (front_count self.now) 4294967295 }
    {
        self.fronts.len().min(u32::MAX as usize) as u32
    }

    /// Appends a task to the worker's own deque.
    ///
    /// # Errors
    /// Returns the task if there is no memory for it, or if the deque has reached its largest size. Neither
    /// happens before as many tasks were pushed and not popped as the deque has room for.
    pub fn push(&mut self, task: T) -> Result<(), T>
        requires test { Q.meets task }
        ensures refused { IfErr result (λ t. t ≡ task) }
        ensures full { IfErr result (λ t. capacity_of self.old ≤ index_of self.old) }
        ensures index { index_of self.new ≤ index_of self.old + 1 }
        ensures capacity { capacity_of self.old ≤ capacity_of self.new }
        ensures own { MatchResult result (λ _. own_tally self.new ≡ with_put (own_tally self.old) (Q.tag task ∷ []))
            (λ t. own_tally self.new ≡ own_tally self.old) }
        ensures fronts { front_tallies self.new ≡ front_tallies self.old }
        ensures deques { SameDeques self.old self.new }
    {
        self.own.push_as::<Put<Q>>(task)
    }

    /// Takes the last task of the worker's own deque, if there is one.
    pub fn pop(&mut self) -> Option<T>
        ensures test { IfSome result Q.meets }
        ensures index { index_of self.new ≤ index_of self.old }
        ensures capacity { capacity_of self.old ≤ capacity_of self.new }
        ensures own { MatchOption result (own_tally self.new ≡ own_tally self.old)
            (λ t. own_tally self.new ≡ with_taken (own_tally self.old) (Q.tag t ∷ [])) }
        ensures fronts { front_tallies self.new ≡ front_tallies self.old }
        ensures deques { SameDeques self.old self.new }
    {
        self.own.pop_as::<Got<Q>>()
    }

    /// Takes the first task of the deque of worker number `victim`, if there is one. Tries again if
    /// another thread was quicker.
    pub fn steal<R: Wait>(&mut self, rt: &R, victim: u32) -> Option<T>
        requires victim { victim < front_count self.old }
        ensures test { IfSome result Q.meets }
        ensures index { index_of self.new ≡ index_of self.old }
        ensures capacity { capacity_of self.new ≡ capacity_of self.old }
        ensures own { own_tally self.new ≡ own_tally self.old }
        ensures front { MatchOption result (front_tally self.new victim ≡ front_tally self.old victim)
            (λ t. front_tally self.new victim ≡ with_taken (front_tally self.old victim) (Q.tag t ∷ [])) }
        ensures others { (k : ℕ) → (k ≡ victim → ⊥) → front_tally self.new k ≡ front_tally self.old k }
        ensures count { front_count self.new ≡ front_count self.old }
        ensures deques { SameDeques self.old self.new }
    {
        self.fronts[victim as usize].steal(rt)
    }
}
