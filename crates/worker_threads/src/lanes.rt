//! Workers beside their seats. Each pair goes to a thread of its own.

ghost use Rattle.std.specs.Prelude.{◌≡◌, ◌≤◌, ◌<◌, ◌+◌, ◌^◌, [], ℕ, List, All, IfOk, length, map, slice_index_or, sum_by, vec_capacity};
ghost use Rattle.std.specs.Prelude.{vec_len};
ghost use Rattle.worker_threads.specs.Lanes.{AreNumbered, ends_in, seat_in};
ghost use Rattle.worker_threads.specs.TokensOut.{LaneKeeps, NoneIsLost};
ghost use Rattle.pipe_worker.specs.Machines.{CanDrive};
ghost use Rattle.worker_tasks.specs.Tasks.{IsOver};
ghost use Rattle.pipe_worker.specs.Workers.{IsSameWorker};
ghost use Rattle.worker_threads.specs.declared.lanes.Lane.{Lane};
ghost use Rattle.work_deques.specs.WorkerEnds.{AreAllEnds, weight_put, weight_taken};

use crate::task_test::{DrivenHall, TestOf};
use pipe_frame::hall::Hall;
use pipe_frame::token::Task;
use pipe_model::list::Numbers;
use pipe_model::memory::NoMemory;
use pipe_worker::gate::Gate;
use pipe_worker::runs::Runs;
use pipe_worker::worker::Worker;
use stage_code::code::Code;
use std::alloc::Global;
use std::sync::Wait;
use std::thread::{Threads, for_each_mut};
use work_deques::ends::Ends;
use work_deques::settle::settle;

/// A worker and its seat at the hall.
#[derive(Drop)]
pub struct Lane<J: DrivenHall, M: Runs + Drop, H: Hall<M> + Drop> {
    worker: Worker<M, TestOf<J, M>>,
    seat: H,
}

/// Puts each seat beside a worker. The workers have numbers from 0, in the order of their ends.
///
/// # Errors
/// Out of memory.
pub fn lanes<J: DrivenHall, M: Runs + Drop, H: Hall<M> + Drop>(
    alloc: Global,
    ends: Vec<Ends<Task<M>, TestOf<J, M>>>,
    mut seats: Vec<H>,
) -> Result<Vec<Lane<J, M, H>>, NoMemory>
    requires bounded { vec_len ends < 2 ^ 32 }
    requires seats { vec_len seats ≡ vec_len ends }
    requires named { All (λ seat. H.named seat ≡ J.named) seats.items }
    ensures named { IfOk result (λ lanes. All (λ lane. H.named (seat_in lane) ≡ J.named) lanes.items) }
    ensures ends { IfOk result (λ lanes. map ends_in lanes.items ≡ ends.items) }
    ensures seats { IfOk result (λ lanes. (f : H → ℕ) → sum_by (λ lane. f (seat_in lane)) lanes.items ≡ sum_by f seats.items) }
    ensures numbers { IfOk result (λ lanes. AreNumbered lanes.items) }
{
    let mut lanes = Vec::with_capacity(alloc, seats.len())?;
    for ends in ends {
        let Some(seat) = seats.pop() else {
            unreachable!()
        };
        let worker = Worker::new(lanes.len() as u32, ends);
        lanes.push(Lane { worker, seat })?;
    }
    Ok(lanes)
}

// Lends each worker and its seat to a thread of its own, until all workers have returned.
fn lend<
    J: DrivenHall + Send,
    R: Threads + Wait + Sync,
    M: Runs + Drop + Send,
    H: Hall<M> + Drop + Send,
    G: Gate + Sync,
>(rt: &R, code: &Code, input: &Numbers, lanes: &mut [Lane<J, M, H>], gate: &G)
    requires nonempty { 0 < length lanes.old }
    requires named { All (λ lane. H.named (seat_in lane) ≡ J.named) lanes.old }
    requires drives { CanDrive M.code J.named code.now input.now }
    ensures length { length lanes.new ≡ length lanes.old }
    ensures named { All (λ lane. H.named (seat_in lane) ≡ J.named) lanes.new }
    ensures over { All (λ lane. IsOver (H.seen (seat_in lane))) lanes.new }
    ensures workers { (k : ℕ) (d : Lane J M H) → k < length lanes.old
        → IsSameWorker (slice_index_or lanes.old k d).worker (slice_index_or lanes.new k d).worker }
    ensures tokens { (k : ℕ) (d : Lane J M H) → k < length lanes.old → LaneKeeps H.tokens (slice_index_or lanes.old k d)
        (slice_index_or lanes.new k d) }
{
    let threads = lanes.len();
    for_each_mut(
        rt,
        lanes,
        threads,
        &|_, lane| { lane.worker.work(rt, code, input, &mut lane.seat, gate) },
    );
}

/// Lends each worker and its seat to a thread of its own, until all workers have returned. One lane
/// runs on the thread of the caller, so a single worker makes no thread. Where no thread can be made,
/// workers run one after another: the first to run ends the run, and the others find that it is over.
/// The ends of all workers are then still all ends of their deques, and no token is lost: as many came
/// to the workers, from the hall or with tasks, as went back to the hall or were pushed.
pub fn work<
    J: DrivenHall + Send,
    R: Threads + Wait + Sync,
    M: Runs + Drop + Send,
    H: Hall<M> + Drop + Send,
    G: Gate + Sync,
>(rt: &R, code: &Code, input: &Numbers, lanes: &mut Vec<Lane<J, M, H>>, gate: &G)
    requires nonempty { 0 < vec_len lanes.old }
    requires named { All (λ lane. H.named (seat_in lane) ≡ J.named) lanes.old.items }
    requires drives { CanDrive M.code J.named code.now input.now }
    requires all { AreAllEnds (map ends_in lanes.old.items) }
    ensures length { vec_len lanes.new ≡ vec_len lanes.old }
    ensures named { All (λ lane. H.named (seat_in lane) ≡ J.named) lanes.new.items }
    ensures over { All (λ lane. IsOver (H.seen (seat_in lane))) lanes.new.items }
    ensures all { AreAllEnds (map ends_in lanes.new.items) }
    ensures tokens { NoneIsLost H.tokens lanes.old.items lanes.new.items }
{
    lend(rt, code, input, lanes.as_mut_slice(), gate);
}

// Takes workers and seats apart. There is room for the seats and for the ends.
fn part<J: DrivenHall, M: Runs + Drop, H: Hall<M> + Drop>(
    lanes: Vec<Lane<J, M, H>>,
    seats: &mut Vec<H>,
    ends: &mut Vec<Ends<Task<M>, TestOf<J, M>>>,
)
    requires seats { (seats.old.items ≡ []) × (vec_len lanes ≤ vec_capacity seats.old) }
    requires ends { (ends.old.items ≡ []) × (vec_len lanes ≤ vec_capacity ends.old) }
    ensures seats { seats.new.items ≡ map seat_in lanes.items }
    ensures ends { ends.new.items ≡ map ends_in lanes.items }
{
    for lane in lanes {
        let Lane { worker, seat } = lane;
        seats.push_reserved(seat);
        ends.push_reserved(worker.into_ends());
    }
}

/// Returns the seats of the workers, and how many tasks are left in their deques. However tasks are
/// weighed, those that the workers pushed weigh as much as those that they popped or stole and those
/// that are left: each task that was pushed comes out at most once, and no task comes out that was not
/// pushed. There is room for the seats in `seats`, and for the workers' ends in `ends`, so this does
/// not allocate.
pub fn disband<J: DrivenHall, M: Runs + Drop, H: Hall<M> + Drop>(
    lanes: Vec<Lane<J, M, H>>,
    mut seats: Vec<H>,
    mut ends: Vec<Ends<Task<M>, TestOf<J, M>>>,
) -> (Vec<H>, u128)
    requires seats { (seats.items ≡ []) × (vec_len lanes ≤ vec_capacity seats) }
    requires ends { (ends.items ≡ []) × (vec_len lanes ≤ vec_capacity ends) }
    requires all { AreAllEnds (map ends_in lanes.items) }
    ensures seats { result.0.items ≡ map seat_in lanes.items }
    ensures account { (left : List ℕ) × (length left ≡ result.1)
        × ((h : ℕ → ℕ) → weight_put h (map ends_in lanes.items) ≡ weight_taken h (map ends_in lanes.items) + sum_by h left) }
{
    part(lanes, &mut seats, &mut ends);
    let left = settle(ends);
    (seats, left)
}
