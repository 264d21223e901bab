//! The deques of some workers.

ghost use Rattle.std.specs.Prelude.{◌≡◌, ◌<◌, ◌+◌, All, IfOk, length, map};
ghost use Rattle.work_deques.specs.FrontsSoFar.{AreSoFar, AreUnused};
ghost use Rattle.work_deques.specs.WorkerEnds.{AreAllEnds, AreFresh, deque_of};

use crate::ends::Ends;
use crate::tally::TaskTest;
use pipe_model::memory::NoMemory;
use std::alloc::Global;

// Makes a deque for each worker, without fronts.
fn without_fronts<T: Drop, Q: TaskTest<T>>(
    alloc: Global,
    workers: u32,
    capacity: u32,
) -> Result<Vec<Ends<T, Q>>, NoMemory>
    ensures length { IfOk result (λ v. length v.items ≡ workers) }
    ensures unused { IfOk result (λ v. All (AreUnused capacity) v.items) }
    ensures so_far { IfOk result (λ v. AreSoFar (map deque_of v.items) 0 0 0 v.items) }
{
    let mut ends = Vec::new(alloc);
    for _ in 0..workers {
        ends.push(Ends::new(alloc, capacity)?)?;
    }
    Ok(ends)
}

// Gives the next worker a front of each deque.
fn add_fronts<T: Drop, Q: TaskTest<T>>(
    workers: u32,
    capacity: u32,
    worker: u32,
    ends: &mut Vec<Ends<T, Q>>,
) -> Result<(), NoMemory>
    requires length { length ends.old.items ≡ workers }
    requires worker { worker < workers }
    requires unused { All (AreUnused capacity) ends.old.items }
    requires so_far { AreSoFar (map deque_of ends.old.items) worker 0 0 ends.old.items }
    ensures length { IfOk result (λ _. length ends.new.items ≡ workers) }
    ensures unused { IfOk result (λ _. All (AreUnused capacity) ends.new.items) }
    ensures so_far { IfOk result (λ _. AreSoFar (map deque_of ends.new.items) (worker + 1) 0 0 ends.new.items) }
{
    for k in 0..workers {
        let front = ends[k as usize].make_front()?;
        ends[worker as usize].add_front(front)?;
    }
    Ok(())
}

/// Returns the ends of each worker: the back of its own deque, and a front of the deque of each worker,
/// by their numbers. The deques are empty, and each has room for `capacity` tasks.
///
/// # Errors
/// Out of memory.
pub fn deques<T: Drop, Q: TaskTest<T>>(
    alloc: Global,
    workers: u32,
    capacity: u32,
) -> Result<Vec<Ends<T, Q>>, NoMemory>
    ensures length { IfOk result (λ v. length v.items ≡ workers) }
    ensures fresh { IfOk result (λ v. All (AreFresh workers capacity) v.items) }
    ensures all { IfOk result (λ v. AreAllEnds v.items) }
{
    let mut ends = without_fronts(alloc, workers, capacity)?;
    for worker in 0..workers {
        add_fronts(workers, capacity, worker, &mut ends)?;
    }
    Ok(ends)
}
