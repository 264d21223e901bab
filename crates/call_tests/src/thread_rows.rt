// Runs by several workers, and instances that overlap.

use crate::cases::{
    CallGate, CallRow, Case, case_of, ended_at, ends_at, expect_none, first_other_call, merged,
};
use pipe_model::column::ColumnEnd;
use pipe_model::event::{Event, RunLog};
use pipe_model::memory::NoMemory;
use pipe_model::node::NodeId;
use pipe_worker::hold::HoldGate;
use run_record::logged_run::LoggedRun;
use std::alloc::Global;
use std::sync::Wait;
use std::thread::Threads;

// Prefix sums: the last stage runs in the order of the iterations.
const PREFIX_SUMS: &str =
    "limits iterations 8, stages 4, steps 100, emits 8; cell n = 0; cell s = 0; pipe_while (n < 3) { n = n + 1; let t = n; pipe_wait(1); s = s + t; emit s; }";

// Four workers, with one iteration alive, and with eight.
static SUMS: [CallRow<'static>; 2] = [
    (
        &["run", "a.pipe", "a.in", "--workers", "4", "--throttle", "1"],
        PREFIX_SUMS,
        0,
        "1\n3\n6\n",
    ),
    (
        &["run", "a.pipe", "a.in", "--workers", "4", "--throttle", "8"],
        PREFIX_SUMS,
        0,
        "1\n3\n6\n",
    ),
];

#[test]
fn four_workers_keep_the_order(rt: HostRuntime) {
    let other = first_other_call(&rt, rt.alloc(), &SUMS);
    expect_none(&rt, "SUMS", other);
}

// The words of runs with two workers.
const RUN_BY_TWO: &[&str] = &["run", "a.pipe", "a.in", "--workers", "2", "--throttle", "2"];

// Two iterations whose last stages wait for nothing.
const TWO_ITERATIONS: &str =
    "limits iterations 2, stages 2, steps 50, emits 2; cell n = 0; pipe_while (n < 2) { n = n + 1; let t = n; pipe_continue(1); t = t + 1; }";

const TURNS: u64 = 10_000_000;

// The last stage of an iteration of `TWO_ITERATIONS`.
fn last_stage(iteration: u32) -> NodeId {
    NodeId {
        iteration,
        index: 1,
    }
}

// The place of an event in a log, or how many events there are.
fn place_of(log: &RunLog, event: Event) -> usize {
    for (place, other) in log.events.as_slice().iter().enumerate() {
        if *other == event {
            return place;
        }
    }
    log.events.len()
}

// Whether the last stage of one iteration is entered before another iteration ends.
fn enters_before_end(alloc: Global, log: Option<LoggedRun>, enters: u32, ends: u32) -> bool {
    match merged(alloc, log) {
        Some(log) => {
            place_of(&log, Event::Enter(enters))
                < place_of(&log, Event::Finish(ends, ColumnEnd::End))
        }
        None => false,
    }
}

// Runs the two iterations with a gate. Returns whether the run finishes, and the last stage of `other` is
// entered before `held` ends.
fn gated_run_overlaps(
    rt: &(impl Threads + Wait + Sync),
    alloc: Global,
    gate: &CallGate,
    held: u32,
    other: u32,
) -> bool {
    match ended_at(rt, alloc, gate, RUN_BY_TWO, TWO_ITERATIONS) {
        Ok(ended) => ended.status == 0 && enters_before_end(alloc, ended.run_log, other, held),
        Err(NoMemory) => false,
    }
}

// Holds the last stage of one iteration until the other is at its own. Returns whether the run finishes, the
// two met, and the other is entered before the held iteration ends, so that they overlap.
fn overlaps(rt: &(impl Threads + Wait + Sync), alloc: Global, held: u32, other: u32) -> bool {
    let gate = CallGate::Hold(HoldGate::new(last_stage(held), last_stage(other), TURNS));
    gated_run_overlaps(rt, alloc, &gate, held, other) && gate.met()
}

// Each iteration is in its last stage before the other ends. One thread could not pass both gates.
#[test]
fn workers_overlap(rt: HostRuntime) {
    assert!(rt; overlaps(&rt, rt.alloc(), 0, 1));
    assert!(rt; overlaps(&rt, rt.alloc(), 1, 0));
}

// Holds the last stage of iteration 0 until an instance that never comes. Returns whether the run goes on after
// the turns of its gate, and prints the sums.
fn goes_on(rt: &(impl Threads + Wait + Sync), alloc: Global) -> bool {
    let never = NodeId {
        iteration: 5,
        index: 0,
    };
    let gate = CallGate::Hold(HoldGate::new(last_stage(0), never, 1000));
    let case = Case {
        text: "1\n3\n6\n",
        ..case_of(RUN_BY_TWO, PREFIX_SUMS)
    };
    ends_at(rt, alloc, &gate, &case) && !gate.met()
}

#[test]
fn a_held_instance_goes_on(rt: HostRuntime) {
    assert!(rt; goes_on(&rt, rt.alloc()));
}
