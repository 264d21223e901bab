//! Scripts of calls, each with the log that it leaves, where that is compared. Each row of a script has a
//! call, its result, and the last ticket after it.

ghost use Rattle.std.specs.Prelude.{◌<◌, IfOk};
ghost use Rattle.book_tests.specs.HeldTokens.{AreHeld};
ghost use Rattle.book_tests.specs.ScriptPrograms.{IsSmall};

use book_tests::play::Call::{
    Advance, Begin, CheckRight, Enter, LeaveReady, NameNext, Reads, Rescue, Stop,
};
use book_tests::play::Seen::{
    Absent, Closed, Count, Done, Ended, Finished, MayBegin, NotYet, Nothing, Stopped, Suspended,
    Throttled, Token, Waits,
};
use book_tests::play::{Call, Play, Seen};
use book_tests::program::Source;
use pipe_model::column::ColumnEnd;
use pipe_model::event::Event;
use pipe_model::memory::NoMemory;
use pipe_model::node::Kind;
use pipe_model::stage::StageEnd::{self, End, Trap, Wait};
use pipe_model::ticket::{BookEntry, BookLog};
use pipe_model::trap::Trap::StageLimit;
use std::alloc::Global;

type Row = (Call, Seen, u64);

// A script for the book of a program, and the log that it leaves, where that is compared.
struct Script {
    source: Source,
    throttle: u32,
    rows: &'static [Row],
    log: Option<&'static [BookEntry]>,
}

// At most one iteration is alive.
const ONE_ALIVE: [Row; 11] = [
    (Begin, Token(0, 0), 1),
    (Begin, NotYet, 1),
    (Advance(0, Wait(1)), Token(0, 1), 3),
    (Begin, Throttled, 3),
    (Rescue, Nothing, 3),
    (Advance(0, End), Ended, 4),
    (Rescue, MayBegin, 4),
    (Begin, Token(1, 0), 5),
    (Advance(1, StageEnd::Closed), Ended, 6),
    (Begin, Closed, 6),
    (Rescue, Finished, 6),
];

// Two iterations are alive.
const TWO_ALIVE: [Row; 12] = [
    (Begin, Token(0, 0), 1),
    (Advance(0, Wait(1)), Token(0, 1), 3),
    (Begin, Token(1, 0), 4),
    (Advance(1, Wait(1)), Suspended, 5),
    (Reads, Count(1), 5),
    (CheckRight(0), Absent, 5),
    (Advance(0, End), Ended, 6),
    (CheckRight(0), Token(1, 1), 7),
    (LeaveReady(1), Done, 7),
    (Rescue, Token(1, 1), 7),
    (Stop, Done, 8),
    (Begin, Stopped, 8),
];

// `name_next` and `enter` make the same events as `advance` and `check_right`.
const BY_HALVES: [Row; 10] = [
    (Begin, Token(0, 0), 1),
    (NameNext(0, Wait(1)), Waits, 2),
    (Enter(0), Token(0, 1), 3),
    (Begin, Token(1, 0), 4),
    (NameNext(1, Wait(1)), Waits, 5),
    (Enter(1), Absent, 5),
    (NameNext(0, End), Ended, 6),
    (Enter(1), Token(1, 1), 7),
    (Reads, Count(0), 7),
    (Stop, Done, 8),
];

// The log of both.
const LOG_OF_TWO: [BookEntry; 8] = [
    BookEntry {
        ticket: 1,
        event: Event::Begin(0),
    },
    BookEntry {
        ticket: 2,
        event: Event::Advance(0, Kind::Wait, 1),
    },
    BookEntry {
        ticket: 3,
        event: Event::Enter(0),
    },
    BookEntry {
        ticket: 4,
        event: Event::Begin(1),
    },
    BookEntry {
        ticket: 5,
        event: Event::Advance(1, Kind::Wait, 1),
    },
    BookEntry {
        ticket: 6,
        event: Event::Finish(0, ColumnEnd::End),
    },
    BookEntry {
        ticket: 7,
        event: Event::Enter(1),
    },
    BookEntry {
        ticket: 8,
        event: Event::Stop,
    },
];

// The left counter is read only if the kept one is not past.
const LEFT_READS: [Row; 12] = [
    (Begin, Token(0, 0), 1),
    (Advance(0, Wait(1)), Token(0, 1), 3),
    (Advance(0, Wait(2)), Token(0, 2), 5),
    (Advance(0, Wait(3)), Token(0, 3), 7),
    (Reads, Count(0), 7),
    (Begin, Token(1, 0), 8),
    (Advance(1, Wait(1)), Token(1, 1), 10),
    (Reads, Count(1), 10),
    (Advance(1, Wait(2)), Token(1, 2), 12),
    (Reads, Count(1), 12),
    (Advance(1, Wait(3)), Suspended, 13),
    (Reads, Count(2), 13),
];

// A right neighbour may go on after an advance and after an end.
const RIGHT_CHECKS: [Row; 15] = [
    (Begin, Token(0, 0), 1),
    (Advance(0, Wait(1)), Token(0, 1), 3),
    (Begin, Token(1, 0), 4),
    (Advance(1, Wait(1)), Suspended, 5),
    (CheckRight(0), Absent, 5),
    (Advance(0, Wait(2)), Token(0, 2), 7),
    (CheckRight(0), Token(1, 1), 8),
    (CheckRight(0), Absent, 8),
    (Advance(1, Wait(2)), Suspended, 9),
    (Advance(0, Wait(3)), Token(0, 3), 11),
    (CheckRight(0), Token(1, 2), 12),
    (Advance(1, Wait(3)), Suspended, 13),
    (CheckRight(0), Absent, 13),
    (Advance(0, End), Ended, 14),
    (CheckRight(0), Token(1, 3), 15),
];

// The loop is closed while iterations are alive.
const CLOSED_EARLY: [Row; 14] = [
    (Begin, Token(0, 0), 1),
    (Advance(0, Wait(1)), Token(0, 1), 3),
    (Begin, Token(1, 0), 4),
    (Advance(1, Wait(1)), Suspended, 5),
    (Begin, Token(2, 0), 6),
    (Advance(2, StageEnd::Closed), Ended, 7),
    (Begin, Closed, 7),
    (Rescue, Nothing, 7),
    (Advance(0, End), Ended, 8),
    (Rescue, Token(1, 1), 9),
    (Rescue, Nothing, 9),
    (Begin, Closed, 9),
    (Advance(1, End), Ended, 10),
    (Rescue, Finished, 10),
];

// A trap closes the loop in instance 0, and not later.
const TRAP_IN_0: [Row; 4] = [
    (Begin, Token(0, 0), 1),
    (Advance(0, Trap(StageLimit)), Ended, 2),
    (Begin, Closed, 2),
    (Rescue, Finished, 2),
];

const TRAP_LATER: [Row; 7] = [
    (Begin, Token(0, 0), 1),
    (Advance(0, Wait(1)), Token(0, 1), 3),
    (Advance(0, Trap(StageLimit)), Ended, 4),
    (Rescue, MayBegin, 4),
    (Begin, Token(1, 0), 5),
    (Advance(1, StageEnd::Closed), Ended, 6),
    (Rescue, Finished, 6),
];

// Rescue takes the first iteration that can go on.
const RESCUES: [Row; 15] = [
    (Begin, Token(0, 0), 1),
    (Advance(0, Wait(1)), Token(0, 1), 3),
    (Begin, Token(1, 0), 4),
    (Advance(1, Wait(1)), Suspended, 5),
    (Begin, Token(2, 0), 6),
    (LeaveReady(2), Done, 6),
    (LeaveReady(0), Done, 6),
    (Rescue, Token(0, 1), 6),
    (Rescue, Token(2, 0), 6),
    (Rescue, Nothing, 6),
    (LeaveReady(2), Done, 6),
    (Advance(0, End), Ended, 7),
    (Rescue, Token(1, 1), 8),
    (Rescue, Token(2, 0), 8),
    (Rescue, Nothing, 8),
];

// A stopped book makes no event.
const STOP_AT_FIRST: [Row; 6] = [
    (Stop, Done, 1),
    (Begin, Stopped, 1),
    (Rescue, Stopped, 1),
    (CheckRight(0), Absent, 1),
    (Enter(0), Absent, 1),
    (Stop, Done, 1),
];

const STOP_WHILE_RUNNING: [Row; 8] = [
    (Begin, Token(0, 0), 1),
    (Advance(0, Wait(1)), Token(0, 1), 3),
    (Begin, Token(1, 0), 4),
    (Stop, Done, 5),
    (Advance(0, End), Stopped, 5),
    (NameNext(1, StageEnd::Stopped), Stopped, 5),
    (Rescue, Stopped, 5),
    (Reads, Count(0), 5),
];

const STOP_BEFORE_ENTER: [Row; 12] = [
    (Begin, Token(0, 0), 1),
    (Advance(0, Wait(1)), Token(0, 1), 3),
    (Begin, Token(1, 0), 4),
    (Advance(1, Wait(1)), Suspended, 5),
    (Advance(0, End), Ended, 6),
    (Begin, Token(2, 0), 7),
    (Stop, Done, 8),
    (CheckRight(0), Absent, 8),
    (Enter(1), Absent, 8),
    (LeaveReady(2), Done, 8),
    (Rescue, Stopped, 8),
    (Begin, Stopped, 8),
];

const STOP_AT_THE_END: [Row; 6] = [
    (Begin, Token(0, 0), 1),
    (Advance(0, StageEnd::Closed), Ended, 2),
    (Rescue, Finished, 2),
    (Stop, Done, 3),
    (Rescue, Stopped, 3),
    (Begin, Stopped, 3),
];

static SCRIPTS: [Script; 13] = [
    Script {
        source: Source {
            iterations: 2,
            stages: 2,
            turns: 1,
            three: false,
        },
        throttle: 1,
        rows: &ONE_ALIVE,
        log: None,
    },
    Script {
        source: Source {
            iterations: 2,
            stages: 2,
            turns: 2,
            three: false,
        },
        throttle: 2,
        rows: &TWO_ALIVE,
        log: Some(&LOG_OF_TWO),
    },
    Script {
        source: Source {
            iterations: 2,
            stages: 2,
            turns: 2,
            three: false,
        },
        throttle: 2,
        rows: &BY_HALVES,
        log: Some(&LOG_OF_TWO),
    },
    Script {
        source: Source {
            iterations: 2,
            stages: 4,
            turns: 2,
            three: true,
        },
        throttle: 2,
        rows: &LEFT_READS,
        log: None,
    },
    Script {
        source: Source {
            iterations: 2,
            stages: 4,
            turns: 2,
            three: true,
        },
        throttle: 2,
        rows: &RIGHT_CHECKS,
        log: None,
    },
    Script {
        source: Source {
            iterations: 2,
            stages: 2,
            turns: 2,
            three: false,
        },
        throttle: 3,
        rows: &CLOSED_EARLY,
        log: None,
    },
    Script {
        source: Source {
            iterations: 2,
            stages: 1,
            turns: 2,
            three: false,
        },
        throttle: 2,
        rows: &TRAP_IN_0,
        log: None,
    },
    Script {
        source: Source {
            iterations: 2,
            stages: 2,
            turns: 1,
            three: true,
        },
        throttle: 1,
        rows: &TRAP_LATER,
        log: None,
    },
    Script {
        source: Source {
            iterations: 3,
            stages: 2,
            turns: 3,
            three: false,
        },
        throttle: 3,
        rows: &RESCUES,
        log: None,
    },
    Script {
        source: Source {
            iterations: 2,
            stages: 2,
            turns: 2,
            three: false,
        },
        throttle: 2,
        rows: &STOP_AT_FIRST,
        log: None,
    },
    Script {
        source: Source {
            iterations: 2,
            stages: 2,
            turns: 2,
            three: false,
        },
        throttle: 2,
        rows: &STOP_WHILE_RUNNING,
        log: None,
    },
    Script {
        source: Source {
            iterations: 2,
            stages: 2,
            turns: 2,
            three: false,
        },
        throttle: 2,
        rows: &STOP_BEFORE_ENTER,
        log: None,
    },
    Script {
        source: Source {
            iterations: 2,
            stages: 2,
            turns: 0,
            three: false,
        },
        throttle: 2,
        rows: &STOP_AT_THE_END,
        log: None,
    },
];

// The number of the first row with another result.
fn first_other_row(play: &mut Play, rows: &[Row]) -> Option<usize>
    requires { AreHeld play.old.book play.old.tokens.items }
{
    for (index, (call, seen, ticket)) in rows.iter().enumerate() {
        if play.make(*call) != (*seen, *ticket) {
            return Some(index);
        }
    }
    None
}

// Plays a script. Returns the number of the first row with another result, and the log.
fn played(
    alloc: Global,
    source: Source,
    throttle: u32,
    rows: &[Row],
) -> Result<(Option<usize>, BookLog), NoMemory>
    requires small { IsSmall source }
    requires throttle { 0 < throttle }
{
    let mut play = Play::new(alloc, source, throttle)?;
    let other = first_other_row(&mut play, rows);
    Ok((other, play.into_log()))
}

// Whether a log has these entries, if it is compared.
fn has_entries(log: &[BookEntry], wanted: Option<&[BookEntry]>) -> bool {
    match wanted {
        Some(entries) => log == entries,
        None => true,
    }
}

// The number of the first row with another result; the number of rows if the log is another one, or the
// program is too large.
fn first_other(alloc: Global, script: &Script) -> Result<Option<usize>, NoMemory> {
    let Script {
        source,
        throttle,
        rows,
        log,
    } = *script;
    if !source.is_small() || throttle == 0 {
        return Ok(Some(rows.len()));
    }
    match played(alloc, source, throttle, rows)? {
        (None, found) if !has_entries(found.as_slice(), log) => Ok(Some(rows.len())),
        (other, _) => Ok(other),
    }
}

// Where the first script goes otherwise: its number, and that of the row.
fn first_other_script(
    alloc: Global,
    scripts: &[Script],
) -> Result<Option<(usize, usize)>, NoMemory> {
    for (number, script) in scripts.iter().enumerate() {
        if let Some(row) = first_other(alloc, script)? {
            return Ok(Some((number, row)));
        }
    }
    Ok(None)
}

fn first_other_of_all(alloc: Global) -> Result<Option<(usize, usize)>, NoMemory> {
    first_other_script(alloc, &SCRIPTS)
}

#[test]
fn books_answer_as_in_the_scripts(rt: HostRuntime) {
    let other = first_other_of_all(rt.alloc());
    assert!(rt; other == Ok(None), "{other:?}");
}
