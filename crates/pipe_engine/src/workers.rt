//! The workers of a run: a seat for each at the same hall.

ghost use Rattle.std.specs.Prelude.{◌≡◌, ◌<◌, ◌+◌, All, IfOk, vec_len};
ghost use Rattle.pipe_engine.specs.SeenRuns.{HasSeenOver};
ghost use Rattle.pipe_frame.specs.HallViews.{BeginsWith};
ghost use Rattle.hall_table.specs.WorkerSeats.{IsSameHall, hall_name};
ghost use Rattle.pipe_worker.specs.Machines.{CanDrive};

use pipe_hall::hall::{HallKey, HallOf};
use pipe_hall::seat::HallSeat;
use pipe_model::list::Numbers;
use pipe_model::memory::NoMemory;
use pipe_worker::gate::Gate;
use program_hall::carried::{Carried, RunCode};
use stage_code::code::Code;
use std::alloc::Global;
use std::sync::Wait;
use std::thread::Threads;
use worker_threads::drive::drive;

// Returns seats for the workers after the first.
fn further_seats<'a, B: RunCode>(
    alloc: Global,
    workers: u32,
    first: &mut HallSeat<'a, Carried<B>>,
) -> Result<Vec<HallSeat<'a, Carried<B>>>, NoMemory>
    requires positive { 0 < workers }
    ensures unchanged { first.new ≡ first.old }
    ensures length { IfOk result (λ seats. vec_len seats + 1 ≡ workers) }
    ensures named { IfOk result (λ seats. All (λ seat. hall_name seat.hall ≡ hall_name first.old.hall) seats.items) }
{
    let mut seats = Vec::with_capacity(alloc, (workers - 1) as usize)?;
    for _ in 1..workers {
        seats.push(first.split())?;
    }
    Ok(seats)
}

// Joins seats of the same hall.
fn join_seats<'a, B: RunCode>(
    first: HallSeat<'a, Carried<B>>,
    others: Vec<HallSeat<'a, Carried<B>>>,
) -> HallKey<Carried<B>>
    requires named { All (λ seat. hall_name seat.hall ≡ hall_name first.hall) others.items }
    ensures hall { result.hall ≡ first.entry.hall }
    ensures seen { BeginsWith result.seen first.entry.seen }
{
    let mut joined = first;
    for seat in others {
        let key = seat.into_key();
        joined.join(key);
    }
    joined.into_key()
}

/// Runs the instances of a hall on `workers` threads, each with a deque that has room for `capacity`
/// tasks, until the run is finished or stopped. The key is of the hall. Returns the key, joined with
/// those of all workers. A single worker runs on the thread of the caller, and no thread is made.
///
/// # Errors
/// Out of memory. Then no thread was made.
pub fn run_workers<'a, R: Threads + Wait + Sync, B: RunCode + Send, G: Gate + Sync>(
    rt: &R,
    alloc: Global,
    code: &Code,
    input: &Numbers,
    workers: u32,
    capacity: u32,
    hall: &'a HallOf<Carried<B>>,
    key: HallKey<Carried<B>>,
    gate: &G,
) -> Result<HallKey<Carried<B>>, NoMemory>
    requires workers { 0 < workers }
    requires key { IsSameHall key.hall hall.now.hall }
    requires drives { CanDrive B.code (hall_name key.hall) code.now input.now }
    ensures key { IfOk result (λ joined. hall_name joined.hall ≡ hall_name key.hall) }
    ensures over { IfOk result (λ joined. HasSeenOver joined.seen) }
{
    let mut first = HallSeat::new(hall, key);
    let others = further_seats(alloc, workers, &mut first)?;
    let driven = drive(rt, alloc, code, input, capacity, first, others, gate)?;
    let mut seats = driven.seats;
    let Some(first) = seats.pop() else {
        unreachable!()
    };
    Ok(join_seats(first, seats))
}
