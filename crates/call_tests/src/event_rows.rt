// The events of runs with one worker.

use crate::cases::{RUN, ended, expect_none, merged};
use pipe_model::access::AccessKind::{self, Read, Write};
use pipe_model::access::{Access, CellId};
use pipe_model::column::ColumnEnd;
use pipe_model::event::Event;
use pipe_model::event::Event::{Advance, Begin, Enter, Finish};
use pipe_model::memory::NoMemory;
use pipe_model::node::Kind;
use pipe_model::trap::Trap;
use run_record::logged_run::LoggedRun;
use std::alloc::Global;
use std::sync::Wait;
use std::thread::Threads;

// The event of an access.
macro_rules! access {
    ($iteration:expr, $kind:expr, $cell:expr, $value:expr) => {
        Event::Access(
            $iteration,
            Access {
                cell: CellId($cell),
                kind: $kind,
                value: $value,
            },
        )
    };
}

const RUN_OF_TWO_STAGES: &str =
    "limits iterations 1, stages 2, steps 50, emits 1; cell n = 0; pipe_while (n < 1) { n = 1; pipe_wait(1); emit n; }";

const EVENTS_OF_TWO_STAGES: [Event; 12] = [
    Begin(0),
    access!(0, Read, 2, 0),
    access!(0, Write, 2, 1),
    Advance(0, Kind::Wait, 1),
    Enter(0),
    access!(0, Read, 2, 1),
    access!(0, Read, 1, 0),
    access!(0, Write, 1, 1),
    Finish(0, ColumnEnd::End),
    Begin(1),
    access!(1, Read, 2, 1),
    Finish(1, ColumnEnd::Closed),
];

// The pipeline traps in its second stage.
const TRAP: &str =
    "limits iterations 1, stages 3, steps 50, emits 1; cell n = 0; pipe_while (n < 1) { n = 1; pipe_wait(1); pipe_wait(1); }";

const EVENTS_OF_A_TRAP: [Event; 9] = [
    Begin(0),
    access!(0, Read, 2, 0),
    access!(0, Write, 2, 1),
    Advance(0, Kind::Wait, 1),
    Enter(0),
    Finish(0, ColumnEnd::Trapped(Trap::StageOrder)),
    Begin(1),
    access!(1, Read, 2, 1),
    Finish(1, ColumnEnd::Closed),
];

// In an assignment to an element the index is read before the value. Neither `init` nor `final` has
// events.
const ELEMENT: &str =
    "limits iterations 1, stages 1, steps 50, emits 1; cell a[2] = 0; cell n = 0; init { a[0] = 7; } \
    pipe_while (n < 1) { n = 1; a[n] = a[0]; } final { emit a[1]; }";

const EVENTS_OF_AN_ELEMENT: [Event; 10] = [
    Begin(0),
    access!(0, Read, 4, 0),
    access!(0, Write, 4, 1),
    access!(0, Read, 4, 1),
    access!(0, Read, 2, 7),
    access!(0, Write, 3, 7),
    Finish(0, ColumnEnd::End),
    Begin(1),
    access!(1, Read, 4, 1),
    Finish(1, ColumnEnd::Closed),
];

static RUNS: [(&str, &[Event]); 3] = [
    (RUN_OF_TWO_STAGES, &EVENTS_OF_TWO_STAGES),
    (TRAP, &EVENTS_OF_A_TRAP),
    (ELEMENT, &EVENTS_OF_AN_ELEMENT),
];

// Whether a log has these events, and two columns.
fn has_events(alloc: Global, log: Option<LoggedRun>, events: &[Event]) -> bool {
    match merged(alloc, log) {
        Some(log) => log.columns.len() == 2 && log.events.as_slice() == events,
        None => false,
    }
}

// Whether the run of a source has these events, and two columns.
fn run_has_events(
    rt: &(impl Threads + Wait + Sync),
    alloc: Global,
    source: &str,
    events: &[Event],
) -> bool {
    match ended(rt, alloc, RUN, source) {
        Ok(ended) => has_events(alloc, ended.run_log, events),
        Err(NoMemory) => false,
    }
}

// The first run with other events.
fn first_other_run(rt: &(impl Threads + Wait + Sync), alloc: Global) -> Option<usize> {
    for (index, (source, events)) in RUNS.iter().enumerate() {
        if !run_has_events(rt, alloc, source, events) {
            return Some(index);
        }
    }
    None
}

#[test]
fn runs_have_their_events(rt: HostRuntime) {
    let other = first_other_run(&rt, rt.alloc());
    expect_none(&rt, "RUNS", other);
}
