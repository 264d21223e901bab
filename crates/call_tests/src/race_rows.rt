// Races by `run` and by `serial`, which report the same cells, and long runs.

use crate::cases::{
    BLANK, CallRow, Case, RUN, RUN_BY_FOUR, SERIAL, ended, ends, expect_none, first_other_call,
};
use pipe_model::memory::NoMemory;
use pipe_model::report::Report;
use std::alloc::{AllocError, Global};
use std::sync::Wait;
use std::thread::Threads;

// What iterations do in stage 0 and how they go on, and the number of reports of the five programs that end
// like this, counted by hand.
type StartRow<'a> = (&'a str, &'a str, usize);

static STARTS: [StartRow<'static>; 10] = [
    ("", "pipe_wait(1);", 1),
    ("", "pipe_continue(1);", 5),
    ("let t = c;", "pipe_wait(1);", 3),
    ("let t = c;", "pipe_continue(1);", 5),
    ("c = c + 1;", "pipe_wait(1);", 5),
    ("c = c + 1;", "pipe_continue(1);", 7),
    ("d = 1;", "pipe_wait(1);", 3),
    ("d = 1;", "pipe_continue(1);", 6),
    ("let t = c; d = t;", "pipe_wait(1);", 5),
    ("let t = c; d = t;", "pipe_continue(1);", 6),
];

const ENDS: [&str; 5] = [
    "let u = c;",
    "c = 2;",
    "let u = d; c = u;",
    "emit c;",
    "d = c; pipe_continue(2); c = 3;",
];

// Whether reports are of the same cells.
fn are_of_same_cells(reports: &[Report], others: &[Report]) -> bool {
    for (report, other) in reports.iter().zip(others) {
        if report.cell != other.cell {
            return false;
        }
    }
    reports.len() == others.len()
}

// Whether `serial` of a source reports the cells of these reports.
fn serial_reports(
    rt: &(impl Threads + Wait + Sync),
    alloc: Global,
    source: &str,
    reports: &[Report],
) -> bool {
    match ended(rt, alloc, SERIAL, source) {
        Ok(ended) => are_of_same_cells(ended.reports.as_slice(), reports),
        Err(NoMemory) => false,
    }
}

// How many reports there are, if `serial` of a source reports the same cells.
fn same_count(
    rt: &(impl Threads + Wait + Sync),
    alloc: Global,
    source: &str,
    reports: &[Report],
) -> Option<usize> {
    if serial_reports(rt, alloc, source, reports) {
        Some(reports.len())
    } else {
        None
    }
}

// How many cells `run` by four workers and `serial` of a source report, if these are the same.
fn same_cells(rt: &(impl Threads + Wait + Sync), alloc: Global, source: &str) -> Option<usize> {
    match ended(rt, alloc, RUN_BY_FOUR, source) {
        Ok(ended) => same_count(rt, alloc, source, ended.reports.as_slice()),
        Err(NoMemory) => None,
    }
}

// The same for the source with this start and this end.
fn same_cells_of(
    rt: &(impl Threads + Wait + Sync),
    alloc: Global,
    first: &str,
    stage: &str,
    end: &str,
) -> Option<usize> {
    let source = format!(in alloc;
        "limits iterations 4, stages 3, steps 50, emits 4; cell n = 0; cell c = 0; cell d = 0; pipe_while (n < 3) {{ n = n + 1; {first} {stage} {end} }}"
    );
    match source {
        Ok(source) => same_cells(rt, alloc, source.as_str()),
        Err(_) => None,
    }
}

// The number of reports of the five programs that start like this, if `run` and `serial` of each report the
// same cells.
fn report_count(
    rt: &(impl Threads + Wait + Sync),
    alloc: Global,
    first: &str,
    stage: &str,
) -> Option<usize> {
    let mut count = 0usize;
    for end in &ENDS {
        count = count.saturating_add(same_cells_of(rt, alloc, first, stage, end)?);
    }
    Some(count)
}

// The first start for which that is another number, or the cells are not the same.
fn first_other_start(rt: &(impl Threads + Wait + Sync), alloc: Global) -> Option<usize> {
    for (index, (first, stage, reports)) in STARTS.iter().enumerate() {
        if report_count(rt, alloc, first, stage) != Some(*reports) {
            return Some(index);
        }
    }
    None
}

#[test]
fn run_and_serial_report_the_same_cells(rt: HostRuntime) {
    let other = first_other_start(&rt, rt.alloc());
    expect_none(&rt, "STARTS", other);
}

// A cell that is written twice before it is read.
const WRITTEN_TWICE: &str =
    "limits iterations 2, stages 3, steps 50, emits 0; cell n = 0; cell c = 0; pipe_while (n < 2) { n = n + 1; let t = c; pipe_continue(1); c = 1; pipe_continue(2); c = 2; }";

// Prefix sums without their wait.
const RACING_SUMS: &str =
    "limits iterations 8, stages 4, steps 100, emits 8; cell n = 0; cell s = 0; pipe_while (n < 3) { n = n + 1; let t = n; pipe_continue(1); s = s + t; emit s; }";

static RACES: [CallRow<'static>; 3] = [
    // The histories name the last write, and the explicit search the first.
    (RUN, WRITTEN_TWICE, 2, "race c write 0/2 read 1/0\n"),
    (SERIAL, WRITTEN_TWICE, 2, "race c write 0/1 read 1/0\n"),
    // Throttling is no dependency: the race is there for one worker and one iteration at a time too.
    (
        &["run", "a.pipe", "a.in", "--workers", "1", "--throttle", "1"],
        RACING_SUMS,
        2,
        "race output write 0/1 read 1/1\nrace s write 0/1 read 1/1\n",
    ),
];

#[test]
fn races_have_their_lines(rt: HostRuntime) {
    let other = first_other_call(&rt, rt.alloc(), &RACES);
    expect_none(&rt, "RACES", other);
}

const PIPELINE: &str =
    "limits iterations 1000, stages 6, steps 100, emits 1; cell sum = 0; pipe_while (more()) { let x = take(); pipe_continue(1); let a = x * 2; pipe_continue(2); a = a + 1; pipe_continue(3); a = a * a; pipe_continue(4); let b = a; pipe_wait(5); sum = sum + b; } final { emit sum; }";

// Appends the numbers from 1 up to `last`, each in a line.
fn push_numbers(input: &mut String, last: u32) -> Result<(), AllocError> {
    for number in 0..last {
        writeln!(input, "{}", number + 1)?;
    }
    Ok(())
}

// Whether eight workers emit the sum of the pipeline for a thousand items.
fn thousand_items_pass(rt: &(impl Threads + Wait + Sync), alloc: Global) -> bool {
    let mut input = String::new(alloc);
    if push_numbers(&mut input, 1000).is_err() {
        return false;
    }
    let case = Case {
        words: &[
            "run",
            "a.pipe",
            "a.in",
            "--workers",
            "8",
            "--throttle",
            "32",
        ],
        source: PIPELINE,
        input: input.as_str(),
        text: "1337337000\n",
        ..BLANK
    };
    ends(rt, alloc, &case)
}

#[test]
fn a_thousand_items_pass_six_stages(rt: HostRuntime) {
    assert!(rt; thousand_items_pass(&rt, rt.alloc()));
}

// Sizes of generated workloads, and the summaries of their runs. The second is the greatest size.
static WORKLOADS: [CallRow<'static>; 2] = [
    (
        &["bench", "--seed", "1", "--size", "1000"],
        "",
        0,
        "items 1000\ninstances 6001\nworkers 1 last 459974\nworkers 8 last 459974\n",
    ),
    (
        &["bench", "--seed", "1", "--size", "40000"],
        "",
        0,
        "items 40000\ninstances 240001\nworkers 1 last 18348055\nworkers 8 last 18348055\n",
    ),
];

#[test]
fn workloads_have_their_summaries(rt: HostRuntime) {
    let other = first_other_call(&rt, rt.alloc(), &WORKLOADS);
    expect_none(&rt, "WORKLOADS", other);
}
