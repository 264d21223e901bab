//! Workers that run the instances of a hall, each on a thread of its own.

ghost use Rattle.std.specs.Prelude.{◌≡◌, ◌<◌, ◌≤◌, ◌+◌, ◌++◌, ◌∷◌, ◌^◌, [], ℕ, All, IfOk, vec_len};
ghost use Rattle.worker_threads.specs.TokensOut.{AreOut};
ghost use Rattle.pipe_worker.specs.Machines.{CanDrive};
ghost use Rattle.worker_tasks.specs.Tasks.{IsOver};

use crate::lanes::{disband, lanes, work};
use crate::task_test::{DrivenHall, TestOf};
use pipe_frame::hall::Hall;
use pipe_frame::token::Task;
use pipe_model::list::Numbers;
use pipe_model::memory::NoMemory;
use pipe_worker::gate::Gate;
use pipe_worker::runs::Runs;
use stage_code::code::Code;
use std::alloc::Global;
use std::marker::Brand;
use std::sync::Wait;
use std::thread::Threads;
use work_deques::deques::deques;

/// What workers leave after a run.
#[derive(Drop)]
pub struct Driven<H> {
    /// The seats of the workers.
    pub seats: Vec<H>,
    /// How many tasks are left in the deques: those that were pushed, less those that were popped or
    /// stolen.
    pub left: u128,
}

// The same as `drive`, for a hall with a name.
fn drive_hall<
    J: DrivenHall + Send,
    R: Threads + Wait + Sync,
    M: Runs + Drop + Send,
    H: Hall<M> + Drop + Send,
    G: Gate + Sync,
>(
    rt: &R,
    alloc: Global,
    code: &Code,
    input: &Numbers,
    capacity: u32,
    seats: Vec<H>,
    gate: &G,
) -> Result<Driven<H>, NoMemory>
    requires nonempty { 0 < vec_len seats }
    requires bounded { vec_len seats < 2 ^ 32 }
    requires named { All (λ seat. H.named seat ≡ J.named) seats.items }
    requires drives { CanDrive M.code J.named code.now input.now }
    ensures length { IfOk result (λ driven. vec_len driven.seats ≡ vec_len seats) }
    ensures named { IfOk result (λ driven. All (λ seat. H.named seat ≡ J.named) driven.seats.items) }
    ensures over { IfOk result (λ driven. All (λ seat. IsOver (H.seen seat)) driven.seats.items) }
    ensures tokens { IfOk result (λ driven. (n : ℕ) × (n ≤ driven.left) × AreOut H.tokens n seats.items driven.seats.items) }
{
    let workers = seats.len();
    let room_for_seats = Vec::with_capacity(alloc, workers)?;
    let room_for_ends = Vec::with_capacity(alloc, workers)?;
    let ends = deques::<Task<M>, TestOf<J, M>>(alloc, workers as u32, capacity)?;
    let mut lanes = lanes(alloc, ends, seats)?;
    work(rt, code, input, &mut lanes, gate);
    let (seats, left) = disband(lanes, room_for_seats, room_for_ends);
    Ok(Driven { seats, left })
}

// The same as `drive`, for a hall with a name.
fn drive_first<
    J: DrivenHall + Send,
    R: Threads + Wait + Sync,
    M: Runs + Drop + Send,
    H: Hall<M> + Drop + Send,
    G: Gate + Sync,
>(
    rt: &R,
    alloc: Global,
    code: &Code,
    input: &Numbers,
    capacity: u32,
    first: H,
    others: Vec<H>,
    gate: &G,
) -> Result<Driven<H>, NoMemory>
    requires bounded { vec_len others + 1 < 2 ^ 32 }
    requires first { H.named first ≡ J.named }
    requires others { All (λ seat. H.named seat ≡ J.named) others.items }
    requires drives { CanDrive M.code J.named code.now input.now }
    ensures length { IfOk result (λ driven. vec_len driven.seats ≡ vec_len others + 1) }
    ensures named { IfOk result (λ driven. All (λ seat. H.named seat ≡ J.named) driven.seats.items) }
    ensures over { IfOk result (λ driven. All (λ seat. IsOver (H.seen seat)) driven.seats.items) }
    ensures tokens { IfOk result (λ driven. (n : ℕ) × (n ≤ driven.left) × AreOut H.tokens n
        (others.items ++ first ∷ []) driven.seats.items) }
{
    let mut seats = others;
    seats.push(first)?;
    drive_hall::<J, R, M, H, G>(rt, alloc, code, input, capacity, seats, gate)
}

/// Gives each of the seats to a worker on a thread of its own, which has a deque with room for
/// `capacity` tasks, and returns the seats once the run is over. Each seat has then seen the run
/// finished or stopped. No token is lost: of those that the hall gave through these seats and did not
/// get back there are at most as many as tasks are left in the deques.
///
/// # Errors
/// Out of memory. Then no thread was made.
pub fn drive<
    R: Threads + Wait + Sync,
    M: Runs + Drop + Send,
    H: Hall<M> + Drop + Send,
    G: Gate + Sync,
>(
    rt: &R,
    alloc: Global,
    code: &Code,
    input: &Numbers,
    capacity: u32,
    first: H,
    others: Vec<H>,
    gate: &G,
) -> Result<Driven<H>, NoMemory>
    requires bounded { vec_len others + 1 < 2 ^ 32 }
    requires others { All (λ seat. H.named seat ≡ H.named first) others.items }
    requires drives { CanDrive M.code (H.named first) code.now input.now }
    ensures length { IfOk result (λ driven. vec_len driven.seats ≡ vec_len others + 1) }
    ensures named { IfOk result (λ driven. All (λ seat. H.named seat ≡ H.named first) driven.seats.items) }
    ensures over { IfOk result (λ driven. All (λ seat. IsOver (H.seen seat)) driven.seats.items) }
    ensures tokens { IfOk result (λ driven. (n : ℕ) × (n ≤ driven.left) × AreOut H.tokens n
        (others.items ++ first ∷ []) driven.seats.items) }
{
    drive_first::<Brand, R, M, H, G>(rt, alloc, code, input, capacity, first, others, gate)
}
