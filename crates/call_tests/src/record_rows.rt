// Records that are checked, and wave loops that are run.

use crate::cases::{BLANK, CallRow, Case, ended, expect_none, first_other, first_other_call};
use pipe_model::memory::NoMemory;
use std::alloc::Global;
use std::sync::Wait;
use std::thread::Threads;

const EMITS_ONE: &str =
    "limits iterations 1, stages 2, steps 50, emits 1; cell n = 0; pipe_while (n < 1) { n = 1; pipe_wait(1); emit n; }";

const RACING: &str =
    "limits iterations 2, stages 2, steps 50, emits 1; cell s = 0; pipe_while (iter() < 2) { pipe_continue(1); s = 1; }";

const CHECK_RECORD: &[&str] = &["check-record", "a.pipe", "a.in", "a.log"];

const OF_EMITS_ONE: Case<'static> = Case {
    words: CHECK_RECORD,
    source: EMITS_ONE,
    ..BLANK
};

const OF_RACING: Case<'static> = Case {
    words: CHECK_RECORD,
    source: RACING,
    ..BLANK
};

static RECORDS: [Case<'static>; 9] = [
    Case {
        record: "begin 0\nread 0 n 0\nwrite 0 n 1\nwait 0 1\nenter 0\nread 0 n 1\nread 0 output 0\nwrite 0 output 1\nend 0\nbegin 1\nread 1 n 1\nclosed 1\n",
        status: 0,
        text: "run finished\n",
        ..OF_EMITS_ONE
    },
    Case {
        record: "1\nbegin 0\nread 0 n 0\nwrite 0 n 1\nwait 0 1\nenter 0\nread 0 n 1\nread 0 output 0\nwrite 0 output 1\nend 0\nbegin 1\nread 1 n 1",
        status: 0,
        text: "run unfinished\n",
        ..OF_EMITS_ONE
    },
    Case {
        record: "begin 0\nread 0 n 0\nwrite 0 n 1\nwait 0 1\nread 0 n 1\n",
        status: 1,
        text: "refused record NotAllowed at 4\n",
        ..OF_EMITS_ONE
    },
    Case {
        record: "1\nbegin 0\nread 0 m 0\n",
        status: 1,
        text: "refused record BadLine at 2\n",
        ..OF_EMITS_ONE
    },
    Case {
        record: "begin 0\nstop\n",
        status: 0,
        text: "run stopped\n",
        ..OF_EMITS_ONE
    },
    Case {
        record: "begin 0\nstop\nstop\n",
        status: 1,
        text: "refused record NotAllowed at 2\n",
        ..OF_EMITS_ONE
    },
    Case {
        record: "",
        status: 0,
        text: "run unfinished\n",
        ..OF_EMITS_ONE
    },
    Case {
        record: "\n",
        status: 1,
        text: "refused record BadLine at 0\n",
        ..OF_EMITS_ONE
    },
    // A run of two iterations that race, by its own log; another order of the accesses is another race.
    Case {
        record: "begin 0\ncontinue 0 1\nbegin 1\ncontinue 1 1\nenter 1\nwrite 1 s 1\nenter 0\nwrite 0 s 1\nend 0\nend 1\nbegin 2\nclosed 2\n",
        status: 2,
        text: "run finished\nrace s write 1/1 write 0/1\n",
        ..OF_RACING
    },
];

#[test]
fn records_are_judged(rt: HostRuntime) {
    let other = first_other(&rt, rt.alloc(), &RECORDS);
    expect_none(&rt, "RECORDS", other);
}

// A beginning of a run of `RACING`.
const BEGINNING: Case<'static> = Case {
    record: "begin 0\ncontinue 0 1\nbegin 1\n",
    ..OF_RACING
};

// A record that needs a greater throttling limit, one that is not there, and one that cannot be read. The
// source takes eighteen reads, and the input one; the last read of a file finds its end.
static OTHERS: [Case<'static>; 3] = [
    Case {
        words: &["check-record", "a.pipe", "a.in", "a.log", "--throttle", "1"],
        status: 1,
        text: "refused record NotAllowed at 2\n",
        ..BEGINNING
    },
    Case {
        words: &["check-record", "a.pipe", "a.in", "b.log"],
        status: 1,
        text: "refused missing b.log\n",
        ..BEGINNING
    },
    Case {
        read_fails: &[19],
        status: 4,
        text: "fault read a.log\n",
        ..BEGINNING
    },
];

#[test]
fn other_records_are_refused(rt: HostRuntime) {
    let other = first_other(&rt, rt.alloc(), &OTHERS);
    expect_none(&rt, "OTHERS", other);
}

const GRID: &str =
    "limits iterations 3, stages 3, steps 100, emits 1; cell a[9] = 1; pipe_while (1) { let row = 0; if (row > 0) { if (iter() > 0) { a[row * 3 + iter()] = a[row * 3 + iter() - 1] + a[(row - 1) * 3 + iter()]; } } } final { emit a[8]; }";

const RACING_GRID: &str =
    "limits iterations 2, stages 2, steps 50, emits 1; cell s = 0; pipe_while (1) { let row = 0; s = s + 1; }";

const WAVE: &[&str] = &["wave", "a.pipe", "a.in", "--workers", "8"];

static WAVES: [CallRow<'static>; 6] = [
    (
        &["wave", "a.pipe", "a.in", "--workers", "1"],
        GRID,
        0,
        "6\n",
    ),
    (WAVE, GRID, 0, "6\n"),
    // Programs that are no wave loops.
    (WAVE, EMITS_ONE, 1, "refused wave BadTest\n"),
    (
        WAVE,
        "limits iterations 2, stages 2, steps 50, emits 1; pipe_while (1) { let column = 0; }",
        1,
        "refused wave NoRow\n",
    ),
    (
        WAVE,
        "limits iterations 2, stages 2, steps 50, emits 1; pipe_while (1) { let row = 0; pipe_wait(); }",
        1,
        "refused wave HasStage at 80\n",
    ),
    (
        WAVE,
        "limits iterations 2, stages 2, steps 50, emits 1; pipe_while (1) { let row = 0; row = 1; }",
        1,
        "refused wave RowSet at 80\n",
    ),
];

#[test]
fn waves_are_run(rt: HostRuntime) {
    let other = first_other_call(&rt, rt.alloc(), &WAVES);
    expect_none(&rt, "WAVES", other);
}

// Whether the wave loop whose points race has one report.
fn wave_races(rt: &(impl Threads + Wait + Sync), alloc: Global) -> bool {
    match ended(rt, alloc, WAVE, RACING_GRID) {
        Ok(ended) => ended.status == 2 && ended.reports.len() == 1,
        Err(NoMemory) => false,
    }
}

#[test]
fn waves_race(rt: HostRuntime) {
    assert!(rt; wave_races(&rt, rt.alloc()));
}
