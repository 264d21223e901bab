//! The account of all deques.

ghost use Rattle.std.specs.Prelude.{◌≡◌, ◌<◌, ◌+◌, ℕ, List, All, length, map, sum_by};
ghost use Rattle.work_deques.specs.FrontsSoFar.{AreSoFar, IsWhole};
ghost use Rattle.work_deques.specs.Tallies.{IsAdditive};
ghost use Rattle.work_deques.specs.WorkerEnds.{AreAllEnds, deque_of, over_ends, weight_put, weight_taken};
ghost use Rattle.work_deques.specs.declared.tally.Tally.{Tally};

use crate::ends::Ends;
use crate::tally::TaskTest;

// Gives the fronts of the last worker that has some back to the owners of the deques.
fn give_back<T: Drop, Q: TaskTest<T>>(worker: usize, ends: &mut Vec<Ends<T, Q>>)
    requires worker { worker < length ends.old.items }
    requires so_far { AreSoFar (map deque_of ends.old.items) (worker + 1) 0 0 ends.old.items }
    ensures length { length ends.new.items ≡ length ends.old.items }
    ensures so_far { AreSoFar (map deque_of ends.new.items) worker 0 0 ends.new.items }
    ensures totals { (f : Tally → ℕ) → IsAdditive f → over_ends f ends.new.items ≡ over_ends f ends.old.items }
{
    for k in (0..ends.len()).rev() {
        let front = ends[worker].take_front();
        ends[k].absorb(front);
    }
}

// Adds up how many tasks are left in the deques.
fn count<T: Drop, Q: TaskTest<T>>(mut ends: Vec<Ends<T, Q>>) -> u128
    requires { All IsWhole ends.items }
    ensures { (left : List ℕ) × (length left ≡ result)
        × ((h : ℕ → ℕ) → weight_put h ends.items ≡ weight_taken h ends.items + sum_by h left) }
{
    let mut left = 0;
    while let Some(own) = ends.pop() {
        left += own.left() as u128;
    }
    left
}

/// Returns how many tasks are left in the deques, once the ends of all workers are back. However tasks
/// are weighed, those that were pushed weigh as much as those that were popped or stolen and those that
/// are left: each task that was pushed comes out at most once, and no task comes out that was not
/// pushed. Does not allocate.
pub fn settle<T: Drop, Q: TaskTest<T>>(mut ends: Vec<Ends<T, Q>>) -> u128
    requires { AreAllEnds ends.items }
    ensures { (left : List ℕ) × (length left ≡ result)
        × ((h : ℕ → ℕ) → weight_put h ends.items ≡ weight_taken h ends.items + sum_by h left) }
{
    for worker in (0..ends.len()).rev() {
        give_back(worker, &mut ends);
    }
    count(ends)
}
