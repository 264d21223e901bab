//! Workers on threads of their own.

ghost use Rattle.std.specs.Prelude.{◌≡◌};
ghost use Rattle.pipe_worker.specs.Machines.{CanDrive};
ghost use Rattle.hall_table.specs.WorkerSeats.{hall_name};

use crate::worker::work;
use pipe_hall::hall::HallKey;
use pipe_hall::seat::HallSeat;
use pipe_model::list::Numbers;
use program_hall::carried::{Carried, RunCode};
use stage_code::code::Code;
use std::sync::Wait;
use std::thread::{Threads, join};

/// Runs instances on two threads until the run is finished or stopped.
pub fn work_on_two<'a, R: Threads + Wait + Sync, B: RunCode + Send>(
    rt: &R,
    code: &Code,
    input: &Numbers,
    seat: HallSeat<'a, Carried<B>>,
) -> HallSeat<'a, Carried<B>>
    requires drives { CanDrive B.code (hall_name seat.hall) code.now input.now }
    ensures hall { hall_name result.hall ≡ hall_name seat.entry.hall }
{
    let mut first = seat;
    let second = first.split();
    let (key, seat) = join(
        rt,
        move || -> HallKey<Carried<B>>
            requires { CanDrive B.code (hall_name second.hall) code.now input.now }
            ensures { hall_name result.hall ≡ hall_name second.entry.hall }
        { work(rt, code, input, second).into_key() },
        move || -> HallSeat<Carried<B>>
            requires { CanDrive B.code (hall_name first.hall) code.now input.now }
            ensures { hall_name result.hall ≡ hall_name first.entry.hall }
        { work(rt, code, input, first) },
    );
    let mut seat = seat;
    seat.join(key);
    seat
}

/// Runs instances on four threads until the run is finished or stopped.
pub fn work_on_four<'a, R: Threads + Wait + Sync, B: RunCode + Send>(
    rt: &R,
    code: &Code,
    input: &Numbers,
    seat: HallSeat<'a, Carried<B>>,
) -> HallSeat<'a, Carried<B>>
    requires drives { CanDrive B.code (hall_name seat.hall) code.now input.now }
    ensures hall { hall_name result.hall ≡ hall_name seat.entry.hall }
{
    let mut first = seat;
    let second = first.split();
    let (key, seat) = join(
        rt,
        move || -> HallKey<Carried<B>>
            requires { CanDrive B.code (hall_name second.hall) code.now input.now }
            ensures { hall_name result.hall ≡ hall_name second.entry.hall }
        { work_on_two(rt, code, input, second).into_key() },
        move || -> HallSeat<Carried<B>>
            requires { CanDrive B.code (hall_name first.hall) code.now input.now }
            ensures { hall_name result.hall ≡ hall_name first.entry.hall }
        { work_on_two(rt, code, input, first) },
    );
    let mut seat = seat;
    seat.join(key);
    seat
}
