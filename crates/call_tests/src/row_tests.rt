// Programs that run, and the status and the bytes written of each.

use crate::cases::{
    Call, Case, RUN, RUN_BY_FOUR, Row, SERIAL, call_ends, case_of, ended, expect_none,
    first_other_row, is_end, row_ends, set_up,
};
use pipe_model::memory::NoMemory;
use pipe_model::report::Report;
use std::alloc::Global;
use std::sync::Wait;
use std::thread::Threads;

const LET_AND_SET: &str = "cell n = 0; pipe_while (n < 1) { let m = 1; n = m; }";

const LET_ALONE: &str = "cell n = 0; pipe_while (n < 1) { let m = 1; }";

const COUNT_UP: &str = "cell n = 0; pipe_while (n < 2) { n = n + 1; emit n; }";

const PREFIX_SUMS: &str =
    "limits iterations 8, stages 4, steps 100, emits 8; cell n = 0; cell s = 0; pipe_while (n < 3) { n = n + 1; let t = n; pipe_wait(1); s = s + t; emit s; }";

const RACING_SUMS: &str =
    "limits iterations 8, stages 4, steps 100, emits 8; cell n = 0; cell s = 0; pipe_while (n < 3) { n = n + 1; let t = n; pipe_continue(1); s = s + t; emit s; }";

const RACING_LINES: &str = "race output write 0/1 read 1/1\nrace s write 0/1 read 1/1\n";

const MOST_LOCALS: &str = "pipe_while (0) { \
    let a0 = 1; let a1 = 1; let a2 = 1; let a3 = 1; let a4 = 1; let a5 = 1; let a6 = 1; \
    let a7 = 1; let a8 = 1; let a9 = 1; let a10 = 1; let a11 = 1; let a12 = 1; let a13 = 1; \
    let a14 = 1; let a15 = 1; let a16 = 1; let a17 = 1; let a18 = 1; let a19 = 1; let a20 = 1; \
    let a21 = 1; let a22 = 1; let a23 = 1; let a24 = 1; let a25 = 1; let a26 = 1; let a27 = 1; \
    let a28 = 1; let a29 = 1; let a30 = 1; let a31 = 1; let a32 = 1; let a33 = 1; let a34 = 1; \
    let a35 = 1; let a36 = 1; let a37 = 1; let a38 = 1; let a39 = 1; let a40 = 1; let a41 = 1; \
    let a42 = 1; let a43 = 1; let a44 = 1; let a45 = 1; let a46 = 1; let a47 = 1; let a48 = 1; \
    let a49 = 1; let a50 = 1; let a51 = 1; let a52 = 1; let a53 = 1; let a54 = 1; let a55 = 1; \
    let a56 = 1; let a57 = 1; let a58 = 1; let a59 = 1; let a60 = 1; let a61 = 1; let a62 = 1; \
    let a63 = 1; }";

// Programs that run.
static PROGRAMS: [Row<'static>; 54] = [
    ([1, 1, 2, 0], "pipe_while (0) { }", 0, ""),
    (
        [1, 1, 1, 0],
        "pipe_while (0) { }",
        3,
        "trap Budget at 0/0\n",
    ),
    (
        [2, 1, 50, 2],
        "cell n = 0; pipe_while (n < 3) { n = n + 1; emit n; }",
        3,
        "1\n2\ntrap IterLimit at 2/0\n",
    ),
    (
        [1, 1, 2, 0],
        "cell n = 1; pipe_while (n - 1) { }",
        3,
        "trap Budget at 0/0\n",
    ),
    // The greatest limits on iterations and on stage instances.
    (
        [65_536, 4, 1, 1],
        "pipe_while (0) { }",
        3,
        "trap Budget at 0/0\n",
    ),
    ([2, 1, 50, 2], COUNT_UP, 0, "1\n2\n"),
    // The test is 4 steps, the assignment 4, and the emit 2.
    ([2, 1, 10, 2], COUNT_UP, 0, "1\n2\n"),
    ([2, 1, 9, 2], COUNT_UP, 3, "trap Budget at 0/0\n"),
    ([2, 1, 3, 2], COUNT_UP, 3, "trap Budget at 0/0\n"),
    // The test is 4 steps, `let` 2, and the assignment 2.
    ([1, 1, 8, 0], LET_AND_SET, 0, ""),
    ([1, 1, 7, 0], LET_AND_SET, 3, "trap Budget at 0/0\n"),
    ([1, 1, 5, 0], LET_AND_SET, 3, "trap Budget at 0/0\n"),
    // The `let` takes the last step, or one too many.
    ([1, 1, 6, 0], LET_ALONE, 3, "trap IterLimit at 1/0\n"),
    ([1, 1, 5, 0], LET_ALONE, 3, "trap Budget at 0/0\n"),
    // The second emit is one too many, and its number is not printed.
    ([2, 1, 50, 1], COUNT_UP, 3, "1\ntrap OutputLimit at 1/0\n"),
    ([2, 1, 50, 0], COUNT_UP, 3, "trap OutputLimit at 0/0\n"),
    (
        [1, 1, 50, 0],
        "cell n = 9223372036854775807; pipe_while (1) { n = n + 1; }",
        3,
        "trap Overflow at 0/0\n",
    ),
    (
        [1, 1, 50, 1],
        "cell n = 9223372036854775806; pipe_while (n < 9223372036854775807) { n = n + 1; emit n; }",
        0,
        "9223372036854775807\n",
    ),
    (
        [1, 1, 50, 0],
        "cell n = -9223372036854775807; cell m = -2; pipe_while (n + m) { }",
        3,
        "trap Overflow at 0/0\n",
    ),
    // Pipelines: their output and trap, or their race lines.
    // The last stage runs in the order of the iterations.
    (
        [8, 4, 100, 8],
        "cell n = 0; cell s = 0; pipe_while (n < 3) { n = n + 1; let t = n; pipe_wait(1); s = s + t; emit s; }",
        0,
        "1\n3\n6\n",
    ),
    // Without the wait, both the sum and the output race.
    (
        [8, 4, 100, 8],
        "cell n = 0; cell s = 0; pipe_while (n < 3) { n = n + 1; let t = n; pipe_continue(1); s = s + t; emit s; }",
        2,
        RACING_LINES,
    ),
    // The next iteration may count before the last stage reads.
    (
        [8, 4, 100, 8],
        "cell n = 0; cell s = 0; pipe_while (n < 3) { n = n + 1; let t = n; pipe_wait(1); s = s + n; emit s; }",
        2,
        "race n read 0/1 write 1/0\n",
    ),
    (
        [1, 3, 50, 1],
        "cell n = 0; pipe_while (n < 1) { n = 1; pipe_wait(1); pipe_wait(1); }",
        3,
        "trap StageOrder at 0/1\n",
    ),
    (
        [1, 2, 50, 1],
        "cell n = 0; pipe_while (n < 1) { n = 1; pipe_wait(1); pipe_wait(2); }",
        3,
        "trap StageLimit at 0/1\n",
    ),
    (
        [1, 3, 50, 1],
        "cell n = 0; pipe_while (n < 1) { n = 1; pipe_wait(1); pipe_wait(2); }",
        0,
        "",
    ),
    (
        [1, 3, 50, 1],
        "cell n = 0; pipe_while (n < 1) { n = 1; pipe_wait(); pipe_wait(); }",
        0,
        "",
    ),
    // A wait for a stage that the previous iteration skipped follows its last stage before that
    // one, so 0/1 precedes 1/2.
    (
        [3, 3, 50, 0],
        "cell n = 0; cell s = 0; pipe_while (n < 2) { n = n + 1; let t = n; pipe_wait(t); s = s + t; }",
        0,
        "",
    ),
    // In the other direction, the later stage of the left column does not precede the earlier stage
    // of the next.
    (
        [3, 3, 50, 0],
        "cell n = 3; cell m = -1; cell s = 0; pipe_while (1 < n) { let t = n; n = n + m; pipe_wait(t); s = s + t; }",
        2,
        "race s write 0/3 read 1/2\n",
    ),
    // After a continue, the stage of a later wait is still in order.
    (
        [3, 3, 50, 4],
        "cell n = 0; pipe_while (n < 2) { n = n + 1; let t = n; pipe_continue(1); let u = t + t; pipe_wait(2); emit u; }",
        0,
        "2\n4\n",
    ),
    // The only path from 0/2 to 2/2 goes through two waits.
    (
        [4, 4, 50, 4],
        "cell n = 0; cell s = 0; pipe_while (n < 3) { n = n + 1; let t = n; pipe_wait(1); pipe_wait(2); s = s + t; emit s; }",
        0,
        "1\n3\n6\n",
    ),
    // The stage number overflows, and so does the implied number after the greatest one.
    (
        [1, 3, 50, 0],
        "cell n = 9223372036854775807; pipe_while (n) { pipe_wait(n + 1); }",
        3,
        "trap Overflow at 0/0\n",
    ),
    (
        [1, 3, 50, 0],
        "cell n = 9223372036854775807; pipe_while (n) { pipe_wait(n); pipe_wait(); }",
        3,
        "trap Overflow at 0/9223372036854775807\n",
    ),
    // A trap in a later stage ends only its iteration, and the line names the least iteration that trapped.
    (
        [3, 3, 50, 4],
        "cell n = 0; pipe_while (n < 2) { n = n + 1; let t = n; pipe_wait(1); emit t; let u = 9223372036854775807 + t; }",
        3,
        "1\n2\ntrap Overflow at 0/1\n",
    ),
    // The left column ends early, by a trap in stage 2, so stage 4 of the next follows stage 2.
    (
        [3, 3, 50, 4],
        "cell n = 0; cell m = 1; pipe_while (n < 2) { n = n + 1; let t = n; let u = t + t; pipe_wait(u); emit t; pipe_wait(u); }",
        3,
        "1\n2\ntrap StageOrder at 0/2\n",
    ),
    // Stages 6 and 7 both follow stage 5 on the left, so the edge to 7 is redundant, and 7 is
    // parallel to stage 9 on the left.
    (
        [2, 3, 50, 4],
        "cell n = 0; cell a = 5; cell b = 9; cell m = -2; cell s = 0; pipe_while (n < 2) { n = n + 1; let t = a; let u = b; a = a + 1; b = b + m; pipe_wait(t); s = s + t; pipe_wait(u); emit t; }",
        2,
        "race output write 0/9 read 1/7\n",
    ),
    // A race in a program that also traps: its output and trap are not printed.
    (
        [3, 3, 50, 4],
        "cell n = 0; cell s = 0; pipe_while (n < 2) { n = n + 1; pipe_continue(1); s = s + 1; let u = 9223372036854775807 + s; }",
        2,
        "race s write 0/1 read 1/1\n",
    ),
    // Each instance has its own limit on steps: the first takes 9 steps, and the second 2.
    (
        [1, 2, 9, 1],
        "cell n = 0; pipe_while (n < 1) { n = n + 1; pipe_wait(); emit n; }",
        0,
        "1\n",
    ),
    (
        [1, 2, 8, 1],
        "cell n = 0; pipe_while (n < 1) { n = n + 1; pipe_wait(); emit n; }",
        3,
        "trap Budget at 0/0\n",
    ),
    // A stage without a number has the next number, after a continue too.
    (
        [2, 2, 9, 0],
        "cell n = 0; pipe_while (n < 1) { n = n + 1; pipe_continue(); pipe_wait(); }",
        3,
        "trap StageLimit at 0/1\n",
    ),
    // A program can use the greatest stage number.
    (
        [2, 2, 50, 1],
        "cell n = 0; pipe_while (n < 2) { n = n + 1; let t = n; pipe_continue(9223372036854775807); let x = 9223372036854775806 + t; emit x; }",
        3,
        "9223372036854775807\ntrap Overflow at 1/9223372036854775807\n",
    ),
    // Small programs of each form, one with a comment, and a loop with the most locals, which take at most two
    // steps.
    ([1, 1, 2, 0], "pipe_while ((0)) { }", 0, ""),
    ([1, 1, 2, 0], "cell n[2] = 0; pipe_while (0) { }", 0, ""),
    ([1, 1, 2, 0], "init { } pipe_while (0) { }", 0, ""),
    ([1, 1, 2, 0], "pipe_while (0) { } final { }", 0, ""),
    ([1, 1, 2, 0], "pipe_while (iter()) { }", 0, ""),
    ([1, 1, 2, 0], "pipe_while (0) { emit take(); }", 0, ""),
    ([1, 1, 2, 0], "pipe_while (0) { emit -1; }", 0, ""),
    ([1, 1, 2, 0], "pipe_while (0) { emit 1 && 0; }", 0, ""),
    ([1, 1, 2, 0], "pipe_while (0) { if (1) { } }", 0, ""),
    ([1, 1, 2, 0], "pipe_while (0) { while (0) { } }", 0, ""),
    ([1, 1, 2, 0], "pipe_while (0) { pipe_wait((1)); }", 0, ""),
    (
        [1, 1, 2, 0],
        "cell n[2] = 0; pipe_while (0) { n[0] = 1; }",
        0,
        "",
    ),
    ([1, 1, 2, 0], "pipe_while (0) { } // a comment", 0, ""),
    ([1, 1, 2, 0], MOST_LOCALS, 0, ""),
];

// The first row whose program does not end so with four workers, except for programs that race: the schedule
// decides which of two races of a cell is reported.
fn first_other_by_four(
    rt: &(impl Threads + Wait + Sync),
    alloc: Global,
    rows: &[Row<'_>],
) -> Option<usize> {
    for (index, row) in rows.iter().enumerate() {
        if row.2 != 2 && !row_ends(rt, alloc, RUN_BY_FOUR, row) {
            return Some(index);
        }
    }
    None
}

// A source, and the status and text of its calls.
type EndingRow<'a> = (&'a str, u8, &'a str);

// Programs that finish, race and trap.
static ENDINGS: [EndingRow<'static>; 3] = [
    (PREFIX_SUMS, 0, "1\n3\n6\n"),
    (RACING_SUMS, 2, RACING_LINES),
    (
        "limits iterations 8, stages 4, steps 100, emits 8; init { emit 1; } pipe_while (0) { } final { emit 1 / 0; }",
        3,
        "1\ntrap DivZero in final\n",
    ),
];

// Whether `serial` has no run log, and these reports.
fn serial_reports(
    rt: &(impl Threads + Wait + Sync),
    alloc: Global,
    source: &str,
    reports: &[Report],
) -> bool {
    match ended(rt, alloc, SERIAL, source) {
        Ok(ended) => ended.run_log.is_none() && ended.reports.as_slice() == reports,
        Err(NoMemory) => false,
    }
}

// Whether `run` has a run log, and `serial` has none and the same reports.
fn calls_agree(rt: &(impl Threads + Wait + Sync), alloc: Global, source: &str) -> bool {
    match ended(rt, alloc, RUN, source) {
        Ok(ended) => {
            ended.run_log.is_some() && serial_reports(rt, alloc, source, ended.reports.as_slice())
        }
        Err(NoMemory) => false,
    }
}

// Whether `run` and `serial` end as the row says, and agree.
fn is_ending(rt: &(impl Threads + Wait + Sync), alloc: Global, row: &EndingRow<'_>) -> bool {
    let (source, status, text) = *row;
    call_ends(rt, alloc, &(RUN, source, status, text))
        && call_ends(rt, alloc, &(SERIAL, source, status, text))
        && calls_agree(rt, alloc, source)
}

// The first row for which that is not so.
fn first_other_ending(rt: &(impl Threads + Wait + Sync), alloc: Global) -> Option<usize> {
    for (index, row) in ENDINGS.iter().enumerate() {
        if !is_ending(rt, alloc, row) {
            return Some(index);
        }
    }
    None
}

// Whether the call ends as the case says, or runs out of memory after a prefix of the text.
fn is_usual(
    rt: &(impl Threads + Wait + Sync),
    alloc: Global,
    call: &mut Call,
    case: &Case<'_>,
) -> bool {
    match call.make(rt, alloc) {
        Ok(ended) => is_end(&ended, call.taken(), case),
        Err(NoMemory) => case.text.as_bytes().starts_with(call.taken()),
    }
}

// The same for a program. Out of memory before the call is usual.
fn is_usual_run<'a>(
    rt: &(impl Threads + Wait + Sync),
    alloc: Global,
    source: &'a str,
    status: u8,
    text: &'a str,
) -> bool {
    let case = Case {
        status,
        text,
        ..case_of(RUN, source)
    };
    match set_up(alloc, &case) {
        Ok(mut call) => is_usual(rt, alloc, &mut call, &case),
        Err(NoMemory) => true,
    }
}

// Two calls for `checks/refused_memory`, which makes one allocation after the other fail.
#[test]
fn an_allocation_may_fail(rt: HostRuntime) {
    assert!(rt; is_usual_run(&rt, rt.alloc(), PREFIX_SUMS, 0, "1\n3\n6\n"));
    assert!(rt; is_usual_run(&rt, rt.alloc(), RACING_SUMS, 2, RACING_LINES));
}

#[test]
fn programs_are_run(rt: HostRuntime) {
    let rows: &[Row<'_>] = &PROGRAMS;
    let with_one = first_other_row(&rt, rt.alloc(), RUN, rows);
    expect_none(&rt, "PROGRAMS", with_one);
    let with_four = first_other_by_four(&rt, rt.alloc(), rows);
    expect_none(&rt, "PROGRAMS by four", with_four);
}

#[test]
fn serial_agrees_with_run(rt: HostRuntime) {
    let other = first_other_ending(&rt, rt.alloc());
    expect_none(&rt, "ENDINGS", other);
}
