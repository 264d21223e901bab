//! Calls of two workers of one hall. Each row of a script has the worker, its call and the result.

ghost use Rattle.std.specs.Prelude.{◌≡◌, ◌<◌};
ghost use Rattle.hall_tests.specs.PreparedPrograms.{IsPrepared};
ghost use Rattle.pipe_worker.specs.Machines.{CanDrive};
ghost use Rattle.hall_tests.specs.Workers.{IsWorkerOf};
ghost use Rattle.hall_table.specs.WorkerSeats.{IsSameHall, hall_name};
ghost use Rattle.pipe_model.specs.Language.SyntaxTree.{tree_of};

use crate::call_rows::Caller::{First, Second};
use crate::closing::close_logs;
use crate::opening::open_new;
use crate::sources::{PREFIX_SUMS, Prepared, RACING, prepare};
use crate::worker::Call::{Begin, CheckRight, LeaveReady, Rescue, Run};
use crate::worker::{Call, Worker};
use book_tests::play::Seen;
use book_tests::play::Seen::{
    Absent, Done, Ended, MayBegin, NotYet, Nothing, Stopped, Suspended, Throttled, Token,
};
use pipe_hall::hall::{HallKey, HallOf};
use pipe_hall::seat::HallSeat;
use pipe_model::access::CellId;
use pipe_model::list::Numbers;
use program_hall::carried::{Carried, RunCode};
use stage_code::code::Code;
use std::alloc::Global;
use std::marker::Brand;
use std::sync::Wait;

// One of two workers.
#[derive(Clone, Copy)]
enum Caller {
    First,
    Second,
}

// A worker, its call and the result.
type Row = (Caller, Call, Seen);

// A source, the throttling limit, a script, and the cell of the race, if there is one.
type Script = (&'static str, u32, &'static [Row], Option<CellId>);

// What came of a script, and of its hall, which was closed after it.
#[derive(Clone, Copy)]
struct Played {
    // The first row whose result is another one, with that result.
    other: Option<(usize, Seen)>,
    // The cell of the race, if just one race was found.
    racing: Option<CellId>,
    // Whether the log ends with `Stop`.
    stopped: bool,
}

// Makes a call of one of two workers of a hall.
fn make<'a, R: Wait, B: RunCode>(
    rt: &R,
    code: &Code,
    input: &Numbers,
    first: &mut Worker<'a, B>,
    second: &mut Worker<'a, B>,
    caller: Caller,
    call: Call,
) -> Seen
    requires drives { CanDrive B.code (hall_name first.old.seat.hall) code.now input.now }
    requires first { IsWorkerOf B.code (hall_name first.old.seat.hall) first.old.seat first.old.token }
    requires second { IsWorkerOf B.code (hall_name first.old.seat.hall) second.old.seat second.old.token }
    ensures first { IsWorkerOf B.code (hall_name first.old.seat.hall) first.new.seat first.new.token }
    ensures second { IsWorkerOf B.code (hall_name first.old.seat.hall) second.new.seat second.new.token }
{
    match caller {
        Caller::First => first.make(rt, code, input, call),
        Caller::Second => second.make(rt, code, input, call),
    }
}

// Makes the calls up to the first row whose result is another one, which is returned with that result.
fn play_rows<'a, R: Wait, B: RunCode>(
    rt: &R,
    code: &Code,
    input: &Numbers,
    first: &mut Worker<'a, B>,
    second: &mut Worker<'a, B>,
    rows: &[Row],
) -> Option<(usize, Seen)>
    requires drives { CanDrive B.code (hall_name first.old.seat.hall) code.now input.now }
    requires first { IsWorkerOf B.code (hall_name first.old.seat.hall) first.old.seat first.old.token }
    requires second { IsWorkerOf B.code (hall_name first.old.seat.hall) second.old.seat second.old.token }
    ensures first { IsWorkerOf B.code (hall_name first.old.seat.hall) first.new.seat first.new.token }
    ensures second { IsWorkerOf B.code (hall_name first.old.seat.hall) second.new.seat second.new.token }
{
    for (index, (caller, call, seen)) in rows.iter().enumerate() {
        let got = make(rt, code, input, first, second, *caller, *call);
        if got != *seen {
            return Some((index, got));
        }
    }
    None
}

// Plays a script by two workers. Returns the first row whose result is another one, with that result,
// and the seats of the workers, joined.
fn play_at<'a, R: Wait, B: RunCode>(
    rt: &R,
    code: &Code,
    input: &Numbers,
    seat: HallSeat<'a, Carried<B>>,
    rows: &[Row],
) -> (Option<(usize, Seen)>, HallKey<Carried<B>>)
    requires { CanDrive B.code (hall_name seat.hall) code.now input.now }
    ensures { hall_name result.1.hall ≡ hall_name seat.entry.hall }
{
    let mut seat = seat;
    let mut second = Worker {
        seat: seat.split(),
        token: None,
    };
    let mut first = Worker { seat, token: None };
    let other = play_rows(rt, code, input, &mut first, &mut second, rows);
    let mut seat = first.into_seat();
    seat.join(second.into_seat().into_key());
    (other, seat.into_key())
}

// Closes the hall of a script. Returns nothing only if memory runs out.
fn close_played<R: Wait, B: RunCode>(
    rt: &R,
    alloc: Global,
    hall: HallOf<Carried<B>>,
    key: HallKey<Carried<B>>,
    other: Option<(usize, Seen)>,
) -> Option<Played>
    requires same_hall { IsSameHall key.hall hall.hall }
{
    let Ok(logs) = close_logs(rt, alloc, hall, key) else {
        return None;
    };
    Some(Played {
        other,
        racing: logs.racing_cell(),
        stopped: logs.end_with_stop(),
    })
}

// Plays a script at a new hall, and closes it. Returns nothing only if memory runs out.
fn play<R: Wait, B: RunCode>(
    rt: &R,
    alloc: Global,
    prepared: &Prepared,
    throttle: u32,
    rows: &[Row],
) -> Option<Played>
    requires prepared { IsPrepared (tree_of prepared.now.checked) prepared.now.code }
    requires code { prepared.now.code ≡ B.code }
    requires throttle { 0 < throttle }
{
    let Ok((hall, key)) = open_new::<B>(alloc, prepared, throttle) else {
        return None;
    };
    let seat = HallSeat::new(&hall, key);
    let (other, key) = play_at(rt, &prepared.code, &prepared.input, seat, rows);
    close_played(rt, alloc, hall, key, other)
}

// The same for a source; nothing also if the source is refused.
fn play_source<R: Wait>(
    rt: &R,
    alloc: Global,
    source: &str,
    throttle: u32,
    rows: &[Row],
) -> Option<Played>
    requires throttle { 0 < throttle }
{
    let Some(prepared) = prepare(alloc, source) else {
        return None;
    };
    let played = play::<R, Brand>(rt, alloc, &prepared, throttle, rows);
    drop(prepared);
    played
}

// An instance that was left ready is returned by `rescue`, and only once.
const LEFT_READY: [Row; 6] = [
    (First, Begin, Token(0, 0)),
    (First, LeaveReady, Done),
    (Second, Rescue, Token(0, 0)),
    (First, Rescue, Nothing),
    (Second, Rescue, Nothing),
    (First, Begin, NotYet),
];

// What one worker has done is there for the next call of the other.
const ONE_AFTER_THE_OTHER: [Row; 18] = [
    (Second, Rescue, MayBegin),
    (First, Begin, Token(0, 0)),
    (Second, Begin, NotYet),
    (Second, Rescue, Nothing),
    (First, Run, Token(0, 1)),
    (Second, Begin, Token(1, 0)),
    (First, Begin, NotYet),
    (Second, Run, Suspended),
    (Second, CheckRight(0), Absent),
    (Second, Begin, Throttled),
    (First, Run, Ended),
    (Second, Rescue, Token(1, 1)),
    (First, CheckRight(0), Absent),
    (First, Begin, Token(2, 0)),
    (Second, Run, Ended),
    (First, Run, Token(2, 1)),
    (First, Run, Ended),
    (Second, Begin, Token(3, 0)),
];

// Iteration 1 reads what instance 1 of iteration 0 has written, which is not known to be before it. So
// the order lists get their labels, or this script would not end.
const RACE: [Row; 5] = [
    (First, Begin, Token(0, 0)),
    (First, Run, Token(0, 1)),
    (First, Run, Ended),
    (Second, Begin, Token(1, 0)),
    (Second, Run, Token(1, 1)),
];

// The race is that of `f`.
static SCRIPTS: [Script; 3] = [
    (PREFIX_SUMS, 4, &LEFT_READY, None),
    (PREFIX_SUMS, 2, &ONE_AFTER_THE_OTHER, None),
    (RACING, 2, &RACE, Some(CellId(3))),
];

// Whether all results are those of a script, without a stop, and its race alone is found.
fn is_as_written(played: Played, racing: Option<CellId>) -> bool {
    played.other.is_none() && played.racing == racing && !played.stopped
}

// Whether a script is played so.
fn plays<R: Wait>(rt: &R, alloc: Global, script: &Script) -> bool {
    let (source, throttle, rows, racing) = *script;
    if throttle == 0 {
        return false;
    }
    match play_source(rt, alloc, source, throttle, rows) {
        Some(played) => is_as_written(played, racing),
        None => false,
    }
}

// The first script for which it is otherwise.
fn first_other<R: Wait>(rt: &R, alloc: Global) -> Option<usize> {
    for (index, script) in SCRIPTS.iter().enumerate() {
        if !plays(rt, alloc, script) {
            return Some(index);
        }
    }
    None
}

#[test]
fn calls_of_two_workers_have_their_results(rt: HostRuntime) {
    let other = first_other(&rt, rt.alloc());
    assert!(rt; other.is_none(), "{other:?}");
}

static THREE_OUT: [Row; 7] = [
    (First, Begin, Token(0, 0)),
    (First, Run, Token(0, 1)),
    (First, Begin, Token(1, 0)),
    (First, Run, Token(1, 1)),
    (Second, Begin, Token(2, 0)),
    (First, Begin, NotYet),
    (Second, Run, Ended),
];

// Whether the log ends with `Stop` exactly if a result is another one, and that is `Stopped`.
fn is_stopped_or_not(played: Played) -> bool {
    match played.other {
        Some((_row, seen)) => seen == Stopped && played.stopped,
        None => !played.stopped,
    }
}

// Whether this is so for three instances that are out.
fn is_closed_with_three_out<R: Wait>(rt: &R, alloc: Global) -> bool {
    match play_source(rt, alloc, RACING, 3, &THREE_OUT) {
        Some(played) => is_stopped_or_not(played),
        None => false,
    }
}

// Three instances are out when the last of them runs, two of them without their tokens, which are
// dropped. A hall has no call that stops a run, so this one is stopped only if an allocation of an
// instance fails; then the row of that instance has another result, and the log ends with `Stop`.
#[test]
fn a_hall_is_closed_with_tokens_out(rt: HostRuntime) {
    assert!(rt; is_closed_with_three_out(&rt, rt.alloc()));
}
