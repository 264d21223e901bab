// Plays by seeds, and the lines of run logs.

use crate::cases::{Call, CallRow, case_of, expect_none, first_other_call, set_up};
use pipe_model::memory::NoMemory;
use std::alloc::Global;
use std::sync::Wait;
use std::thread::Threads;

// Iterations 0 and 1 wait for no one, and both use `f`; the second reads it in stage 0.
const RACING: &str = "limits iterations 2, stages 3, steps 50, emits 2; \
    cell n = 0; cell f = 0; cell c = 0; pipe_while (n < 2) { n = n + 1; \
    if (iter() == 0) { pipe_continue(1); f = 1; } \
    else { if (f == 0) { pipe_continue(1); } pipe_continue(2); c = 1; } }";

// How many lines a text has.
fn line_count(text: &[u8]) -> usize {
    text.iter().filter(|byte| **byte == b'\n').count()
}

// Whether the call ends with one race, of `f`.
fn has_race_of_f(rt: &(impl Threads + Wait + Sync), alloc: Global, call: &mut Call) -> bool {
    match call.make(rt, alloc) {
        Ok(ended) => {
            ended.status == 2
                && call.taken().starts_with(b"race f ")
                && line_count(call.taken()) == 1
        }
        Err(NoMemory) => false,
    }
}

// Whether the call with these words has one race, of `f`. Which access is the earlier one depends on the
// schedule.
fn words_race(rt: &(impl Threads + Wait + Sync), alloc: Global, words: &[&str]) -> bool {
    match set_up(alloc, &case_of(words, RACING)) {
        Ok(mut call) => has_race_of_f(rt, alloc, &mut call),
        Err(NoMemory) => false,
    }
}

// The same for a play by this seed.
fn seed_races(rt: &(impl Threads + Wait + Sync), alloc: Global, seed: usize) -> bool {
    match format!(in alloc; "{seed}") {
        Ok(seed) => words_race(
            rt,
            alloc,
            &["play", "a.pipe", "a.in", "--seed", seed.as_str()],
        ),
        Err(_) => false,
    }
}

// The first seed that has no such race.
fn first_other_seed(rt: &(impl Threads + Wait + Sync), alloc: Global) -> Option<usize> {
    for seed in 0..100 {
        if !seed_races(rt, alloc, seed) {
            return Some(seed);
        }
    }
    None
}

// Each seed plays another schedule.
#[test]
fn each_seed_has_the_race(rt: HostRuntime) {
    let other = first_other_seed(&rt, rt.alloc());
    expect_none(&rt, "seeds", other);
}

const EMPTY: &str = "limits iterations 1, stages 1, steps 2, emits 0; pipe_while (0) { }";

// Counts to 1, waits, and emits the count.
const COUNTING: &str =
    "limits iterations 1, stages 2, steps 50, emits 1; cell n = 0; pipe_while (n < 1) { n = 1; pipe_wait(1); emit n; }";

const RECORDED: &str = "1\nbegin 0\nread 0 n 0\nwrite 0 n 1\nwait 0 1\nenter 0\nread 0 n 1\n\
    read 0 output 0\nwrite 0 output 1\nend 0\nbegin 1\nread 1 n 1\nclosed 1\n";

const TRAP_OF_INIT: &str =
    "limits iterations 4, stages 2, steps 50, emits 4; init { emit 1; emit 1 / 0; } pipe_while (0) { }";

const TRAP_OF_ITERATION: &str =
    "limits iterations 4, stages 2, steps 50, emits 4; cell n = 0; pipe_while (n < 2) { n = n + 1; let t = n; pipe_wait(1); emit 6 / (2 - t); }";

// With one iteration alive at a time there is one schedule, for `run` and for `play`.
static SCHEDULES: [CallRow<'static>; 5] = [
    (
        &["run", "a.pipe", "a.in", "--record"],
        EMPTY,
        0,
        "begin 0\nclosed 0\n",
    ),
    (
        &["run", "a.pipe", "a.in", "--throttle=1", "--record"],
        COUNTING,
        0,
        RECORDED,
    ),
    (
        &["play", "a.pipe", "a.in", "--throttle=1", "--record"],
        COUNTING,
        0,
        RECORDED,
    ),
    // A trap of `init`, and one of an iteration, after what was emitted before.
    (
        &["play", "a.pipe", "a.in", "--throttle", "1"],
        TRAP_OF_INIT,
        3,
        "1\ntrap DivZero in init\n",
    ),
    (
        &["play", "a.pipe", "a.in", "--throttle", "1"],
        TRAP_OF_ITERATION,
        3,
        "6\ntrap DivZero at 1/1\n",
    ),
];

#[test]
fn one_schedule_has_one_text(rt: HostRuntime) {
    let other = first_other_call(&rt, rt.alloc(), &SCHEDULES);
    expect_none(&rt, "SCHEDULES", other);
}
