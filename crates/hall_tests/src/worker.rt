//! Workers of a hall.

ghost use Rattle.std.specs.Prelude.{◌≡◌};
ghost use Rattle.hall_tests.specs.GivenTokens.{IsGivenIn};
ghost use Rattle.pipe_worker.specs.Machines.{CanDrive};
ghost use Rattle.hall_tests.specs.Workers.{IsWorkerOf};
ghost use Rattle.hall_table.specs.WorkerSeats.{hall_name};

use book_tests::play::Seen;
use pipe_frame::hall::Hall;
use pipe_frame::results::{Begun, Next, Rescue};
use pipe_frame::token::FrameToken;
use pipe_hall::seat::HallSeat;
use pipe_model::list::Numbers;
use pipe_worker::advance::run_and_advance;
use program_hall::carried::{Carried, RunCode};
use stage_code::code::Code;
use std::mem;
use std::sync::Wait;
use std::thread::yield_now;

/// A call of the hall; `u32` is an iteration. `Run` runs the instance of the worker's token, and ends
/// it.
#[derive(Clone, Copy)]
pub enum Call {
    Begin,
    Run,
    CheckRight(u32),
    LeaveReady,
    Rescue,
}

/// A worker's seat, and the token that the worker holds, if it holds one.
#[derive(Drop)]
pub struct Worker<'a, B: RunCode> {
    pub seat: HallSeat<'a, Carried<B>>,
    pub token: Option<FrameToken<Carried<B>>>,
}

impl<'a, B: RunCode> Worker<'a, B> {
    // Holds a token of the hall.
    fn hold(&mut self, token: FrameToken<Carried<B>>) -> Seen
        requires { IsGivenIn B.code (hall_name self.old.seat.hall) token }
        ensures { IsWorkerOf B.code (hall_name self.old.seat.hall) self.new.seat self.new.token }
    {
        let seen = Seen::Token(token.iteration, token.index);
        drop(mem::replace(&mut self.token, Some(token)));
        seen
    }

    fn begin<R: Wait>(&mut self, rt: &R) -> Seen
        requires { IsWorkerOf B.code (hall_name self.old.seat.hall) self.old.seat self.old.token }
        ensures { IsWorkerOf B.code (hall_name self.old.seat.hall) self.new.seat self.new.token }
    {
        match self.seat.begin(rt) {
            Begun::Started(token) => self.hold(token),
            Begun::Throttled => Seen::Throttled,
            Begun::Closed => Seen::Closed,
            Begun::NotYet => Seen::NotYet,
            Begun::Stopped => Seen::Stopped,
        }
    }

    fn check_right<R: Wait>(&mut self, rt: &R, iteration: u32) -> Seen
        requires { IsWorkerOf B.code (hall_name self.old.seat.hall) self.old.seat self.old.token }
        ensures { IsWorkerOf B.code (hall_name self.old.seat.hall) self.new.seat self.new.token }
    {
        match self.seat.check_right(rt, iteration) {
            Some(token) => self.hold(token),
            None => Seen::Absent,
        }
    }

    fn rescue<R: Wait>(&mut self, rt: &R) -> Seen
        requires { IsWorkerOf B.code (hall_name self.old.seat.hall) self.old.seat self.old.token }
        ensures { IsWorkerOf B.code (hall_name self.old.seat.hall) self.new.seat self.new.token }
    {
        match self.seat.rescue(rt) {
            Rescue::Token(token) => self.hold(token),
            Rescue::MayBegin => Seen::MayBegin,
            Rescue::Nothing => Seen::Nothing,
            Rescue::Finished => Seen::Finished,
            Rescue::Stopped => Seen::Stopped,
        }
    }

    fn leave_ready<R: Wait>(&mut self, rt: &R) -> Seen
        requires { IsWorkerOf B.code (hall_name self.old.seat.hall) self.old.seat self.old.token }
        ensures { IsWorkerOf B.code (hall_name self.old.seat.hall) self.new.seat self.new.token }
    {
        match self.token.take() {
            Some(token) => {
                self.seat.leave_ready(rt, token);
                Seen::Done
            }
            None => Seen::Refused,
        }
    }

    // Runs the instance of the token, and ends it.
    fn run<R: Wait>(&mut self, rt: &R, code: &Code, input: &Numbers) -> Seen
        requires drives { CanDrive B.code (hall_name self.old.seat.hall) code.now input.now }
        requires given { IsWorkerOf B.code (hall_name self.old.seat.hall) self.old.seat self.old.token }
        ensures { IsWorkerOf B.code (hall_name self.old.seat.hall) self.new.seat self.new.token }
    {
        let Some(token) = self.token.take() else {
            return Seen::Refused;
        };
        let (next, _end, _length) = run_and_advance(rt, code, input, &mut self.seat, token);
        match next {
            Next::Go(token) => self.hold(token),
            Next::Suspended => Seen::Suspended,
            Next::Ended => Seen::Ended,
            Next::Stopped => Seen::Stopped,
        }
    }

    /// Returns the seat. A token that the worker holds is dropped.
    pub fn into_seat(self) -> HallSeat<'a, Carried<B>>
        ensures { result ≡ self.entry.seat }
    {
        let Worker { seat, token } = self;
        drop(token);
        seat
    }

    /// Makes a call, and returns the result.
    pub fn make<R: Wait>(&mut self, rt: &R, code: &Code, input: &Numbers, call: Call) -> Seen
        requires drives { CanDrive B.code (hall_name self.old.seat.hall) code.now input.now }
        requires given { IsWorkerOf B.code (hall_name self.old.seat.hall) self.old.seat self.old.token }
        ensures { IsWorkerOf B.code (hall_name self.old.seat.hall) self.new.seat self.new.token }
    {
        match call {
            Call::Begin => self.begin(rt),
            Call::Run => self.run(rt, code, input),
            Call::CheckRight(iteration) => self.check_right(rt, iteration),
            Call::LeaveReady => self.leave_ready(rt),
            Call::Rescue => self.rescue(rt),
        }
    }
}

// The call that a worker makes after a result.
fn next_call(seen: Seen) -> Call {
    match seen {
        Seen::Token(_, _) => Call::Run,
        Seen::MayBegin => Call::Begin,
        _ => Call::Rescue,
    }
}

/// Runs instances until the run is finished or stopped.
pub fn work<'a, R: Wait, B: RunCode>(
    rt: &R,
    code: &Code,
    input: &Numbers,
    seat: HallSeat<'a, Carried<B>>,
) -> HallSeat<'a, Carried<B>>
    requires drives { CanDrive B.code (hall_name seat.hall) code.now input.now }
    ensures hall { hall_name result.hall ≡ hall_name seat.entry.hall }
{
    let mut worker = Worker { seat, token: None };
    let mut seen = Seen::Nothing;
    for _ in rt.forever() {
        seen = worker.make(rt, code, input, next_call(seen));
        match seen {
            Seen::Finished | Seen::Stopped => return worker.into_seat(),
            Seen::Nothing => yield_now(),
            _ => {}
        }
    }
    unreachable!()
}
