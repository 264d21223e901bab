//! Deques of two workers.

ghost use Rattle.std.specs.Prelude.{◌≡◌, ◌<◌, length};
ghost use Rattle.work_deques.specs.WorkerEnds.{AreAllEnds};

use std::alloc::Global;
use std::sync::Wait;
use work_deques::deques::deques;
use work_deques::ends::Ends;
use work_deques::settle::settle;
use work_deques::tally::TaskTest;

// The test that each number meets. Tallies count a number by itself.
struct AnyNumber;

impl TaskTest<u32> for AnyNumber {
    ghost meets = { λ task. Unit {0} };

    ghost tag = { λ task. task };
}

// The ends of some workers.
type AllEnds = Vec<Ends<u32, AnyNumber>>;

// Pushes a task to a worker's deque. Returns whether there is memory for it.
fn push(all: &mut AllEnds, worker: usize, task: u32) -> bool
    requires worker { worker < length all.old.items }
    requires all { AreAllEnds all.old.items }
    ensures count { length all.new.items ≡ length all.old.items }
    ensures all { AreAllEnds all.new.items }
{
    all[worker].push(task).is_ok()
}

// Pops a task from a worker's deque.
fn pop(all: &mut AllEnds, worker: usize) -> Option<u32>
    requires worker { worker < length all.old.items }
    requires all { AreAllEnds all.old.items }
    ensures count { length all.new.items ≡ length all.old.items }
    ensures all { AreAllEnds all.new.items }
{
    all[worker].pop()
}

// Steals a task for a worker from the deque of another.
fn steal<R: Wait>(rt: &R, all: &mut AllEnds, worker: usize, victim: u32) -> Option<u32>
    requires worker { worker < length all.old.items }
    requires victim { victim < length all.old.items }
    requires all { AreAllEnds all.old.items }
    ensures count { length all.new.items ≡ length all.old.items }
    ensures all { AreAllEnds all.new.items }
{
    all[worker].steal(rt, victim)
}

// Pushes three tasks to a worker's deque. Returns whether there is memory for them.
fn push_three(all: &mut AllEnds, worker: usize) -> bool
    requires worker { worker < length all.old.items }
    requires all { AreAllEnds all.old.items }
    ensures count { length all.new.items ≡ length all.old.items }
    ensures all { AreAllEnds all.new.items }
{
    push(all, worker, 10) && push(all, worker, 11) && push(all, worker, 12)
}

// Pushes three tasks to the first of two deques. Returns whether nothing is popped from it before, and
// then the last task; whether the second worker steals the first task from it; and whether the first
// worker steals nothing from the second.
fn are_taken<R: Wait>(rt: &R, all: &mut AllEnds) -> bool
    requires two { length all.old.items ≡ 2 }
    requires all { AreAllEnds all.old.items }
    ensures all { AreAllEnds all.new.items }
{
    let before = pop(all, 0);
    let pushed = push_three(all, 0);
    let last = pop(all, 0);
    let first = steal(rt, all, 1, 0);
    let none = steal(rt, all, 0, 1);
    pushed && before.is_none() && last == Some(12) && first == Some(10) && none.is_none()
}

// Whether this is so for new deques, and one task is left in them.
fn are_taken_but_one<R: Wait>(rt: &R, alloc: Global) -> bool {
    let Ok(mut all) = deques::<u32, AnyNumber>(alloc, 2, 2) else {
        return false;
    };
    let taken = are_taken(rt, &mut all);
    let left = settle(all);
    taken && left == 1
}

// The deques have room for two tasks, and the first grows for the third.
#[test]
fn a_worker_pops_the_last_task_and_another_steals_the_first(rt: HostRuntime) {
    assert!(rt; are_taken_but_one(&rt, rt.alloc()));
}
