//! Loops, played by given choices.

ghost use Rattle.std.specs.Prelude.{◌<◌};
ghost use Rattle.pipe_model.specs.Language.CheckingRules.{BreaksNoRule};
ghost use Rattle.pipe_model.specs.Language.SyntaxTree.{tree_of};

use crate::plays::{Bounds, limits, play_of};
use crate::sources::accepted;
use pipe_check::checked::Checked;
use pipe_model::access::CellId;
use pipe_model::memory::NoMemory;
use run_record::log_text::text;
use schedule_play::choices::choices;
use schedule_play::program_play::Played;
use std::alloc::Global;

// Counts to 1, waits, and emits the count.
const COUNTING: &str = "limits iterations 1, stages 2, steps 50, emits 1; \
    cell n = 0; pipe_while (n < 1) { n = 1; pipe_wait(1); emit n; }";

// Iterations 0 and 1 wait for no one, and both use `f`; the second reads it in stage 0.
const RACING: &str = "limits iterations 2, stages 3, steps 50, emits 2; \
    cell n = 0; cell f = 0; cell c = 0; pipe_while (n < 2) { n = n + 1; if (iter() == 0) { \
    pipe_continue(1); f = 1; } else { if (f == 0) { pipe_continue(1); } pipe_continue(2); c = 1; } }";

// Two iterations; each waits in its stage 1.
const WAITING: &str = "limits iterations 2, stages 2, steps 50, emits 0; \
    cell n = 0; pipe_while (n < 2) { n = n + 1; pipe_wait(1); }";

const LINES: [&str; 12] = [
    "begin 0\n",
    "read 0 n 0\n",
    "write 0 n 1\n",
    "wait 0 1\n",
    "enter 0\n",
    "read 0 n 1\n",
    "read 0 output 0\n",
    "write 0 output 1\n",
    "end 0\n",
    "begin 1\n",
    "read 1 n 1\n",
    "closed 1\n",
];

const WAITING_LINES: [&str; 17] = [
    "begin 0\n",
    "read 0 n 0\n",
    "read 0 n 0\n",
    "write 0 n 1\n",
    "wait 0 1\n",
    "begin 1\n",
    "read 1 n 1\n",
    "read 1 n 1\n",
    "write 1 n 2\n",
    "wait 1 1\n",
    "enter 0\n",
    "end 0\n",
    "begin 2\n",
    "read 2 n 2\n",
    "closed 2\n",
    "enter 1\n",
    "end 1\n",
];

// The same with one iteration alive at a time.
const SERIAL_LINES: [&str; 17] = [
    "begin 0\n",
    "read 0 n 0\n",
    "read 0 n 0\n",
    "write 0 n 1\n",
    "wait 0 1\n",
    "enter 0\n",
    "end 0\n",
    "begin 1\n",
    "read 1 n 1\n",
    "read 1 n 1\n",
    "write 1 n 2\n",
    "wait 1 1\n",
    "enter 1\n",
    "end 1\n",
    "begin 2\n",
    "read 2 n 2\n",
    "closed 2\n",
];

// Whether a text is the first of these lines, as many as are asked for.
fn are_first_lines(text: &[u8], lines: &[&str], count: usize) -> bool {
    let mut left = text;
    for line in lines.iter().take(count) {
        match left.strip_prefix(line.as_bytes()) {
            Some(rest) => left = rest,
            None => return false,
        }
    }
    left.is_empty()
}

// Whether the log of a play has the first of these lines, as many as are asked for.
fn has_lines(
    alloc: Global,
    checked: &Checked,
    played: &Played,
    lines: &[&str],
    count: usize,
) -> bool {
    match text(alloc, &played.run_log, checked) {
        Ok(found) => are_first_lines(found.as_slice(), lines, count),
        Err(NoMemory) => false,
    }
}

// The same for a play by these choices, which is to have no race, and to be finished exactly if it has all
// of the lines.
fn plays_lines(
    alloc: Global,
    checked: &Checked,
    limits: Bounds,
    choices: &[u32],
    lines: &[&str],
) -> bool
    requires accepted { BreaksNoRule (tree_of checked.now) }
    requires workers { 0 < limits.workers }
    requires throttle { 0 < limits.throttle }
{
    let count = limits.turns.min(100) as usize;
    match play_of(alloc, checked, limits, choices) {
        Ok(played) => {
            let found = played.finished == (lines.len() <= count)
                && played.reports.is_empty()
                && has_lines(alloc, checked, &played, lines, count);
            drop(played);
            found
        }
        Err(NoMemory) => false,
    }
}

// The numbers of turns for the loop that counts to 1, which has twelve events.
const TURNS: [u64; 4] = [0, 11, 12, 100];

// The first number of turns that do not have the first lines of this loop.
fn first_other_turns(alloc: Global, checked: &Checked) -> Option<u64>
    requires { BreaksNoRule (tree_of checked.now) }
{
    for turns in &TURNS {
        if !plays_lines(alloc, checked, limits(1, 2, *turns), &[], &LINES) {
            return Some(*turns);
        }
    }
    None
}

fn first_other_of_counting(alloc: Global) -> Option<u64> {
    match accepted(alloc, COUNTING.as_bytes()) {
        Some(checked) => {
            let found = first_other_turns(alloc, &checked);
            drop(checked);
            found
        }
        None => Some(0),
    }
}

#[test]
fn a_loop_is_played_to_its_end(rt: HostRuntime) {
    let other = first_other_of_counting(rt.alloc());
    assert!(rt; other.is_none(), "{other:?}");
}

// Whether a play is finished, and has a race of cell `f` alone.
fn races_once(played: &Played) -> bool {
    let reports = played.reports.as_slice();
    played.finished && reports.len() == 1 && reports[0].cell == CellId(3)
}

// Whether this is so for a play by a seed.
fn has_the_race(alloc: Global, checked: &Checked, seed: u32) -> bool
    requires accepted { BreaksNoRule (tree_of checked.now) }
    requires seed { seed < 100 }
{
    let Ok(choices) = choices(alloc, seed) else {
        return false;
    };
    match play_of(alloc, checked, limits(2, 2, 10_000), choices.as_slice()) {
        Ok(played) => {
            let found = races_once(&played);
            drop(played);
            found
        }
        Err(NoMemory) => false,
    }
}

// The first seed for which it is not so.
fn first_other_seed(alloc: Global, checked: &Checked) -> Option<u32>
    requires { BreaksNoRule (tree_of checked.now) }
{
    for seed in 0..100 {
        if !has_the_race(alloc, checked, seed) {
            return Some(seed);
        }
    }
    None
}

fn first_other_seed_of_racing(alloc: Global) -> Option<u32> {
    match accepted(alloc, RACING.as_bytes()) {
        Some(checked) => {
            let found = first_other_seed(alloc, &checked);
            drop(checked);
            found
        }
        None => Some(100),
    }
}

#[test]
fn each_schedule_has_the_race(rt: HostRuntime) {
    let other = first_other_seed_of_racing(rt.alloc());
    assert!(rt; other.is_none(), "{other:?}");
}

// Whether a play by a seed, with one iteration alive at a time, is serial.
fn is_serial(alloc: Global, checked: &Checked, seed: u32) -> bool
    requires accepted { BreaksNoRule (tree_of checked.now) }
    requires seed { seed < 100 }
{
    match choices(alloc, seed) {
        Ok(choices) => {
            let limits = limits(4, 1, 1000);
            plays_lines(alloc, checked, limits, choices.as_slice(), &SERIAL_LINES)
        }
        Err(NoMemory) => false,
    }
}

// The first seed for which it is not.
fn first_other_order(alloc: Global, checked: &Checked) -> Option<u32>
    requires { BreaksNoRule (tree_of checked.now) }
{
    for seed in 0..10 {
        if !is_serial(alloc, checked, seed) {
            return Some(seed);
        }
    }
    None
}

// The same for the program of `WAITING`.
fn first_other_order_of_waiting(alloc: Global) -> Option<u32> {
    match accepted(alloc, WAITING.as_bytes()) {
        Some(checked) => {
            let found = first_other_order(alloc, &checked);
            drop(checked);
            found
        }
        None => Some(10),
    }
}

// With one iteration alive at a time there is one order.
#[test]
fn throttled_loops_are_serial(rt: HostRuntime) {
    let other = first_other_order_of_waiting(rt.alloc());
    assert!(rt; other.is_none(), "{other:?}");
}

// Whether the play for one worker is serial too, and an iteration waits and goes on if two may be alive.
// Choice 1 begins iteration 1 as soon as it may begin, and lets it go on up to its wait. It enters its stage
// once iteration 0 has ended, after iteration 2, which closes the loop.
fn waits_and_goes_on(alloc: Global, checked: &Checked) -> bool
    requires { BreaksNoRule (tree_of checked.now) }
{
    plays_lines(alloc, checked, limits(1, 1, 1000), &[], &SERIAL_LINES)
        && plays_lines(alloc, checked, limits(2, 2, 1000), &[1], &WAITING_LINES)
}

fn waiting_goes_on(alloc: Global) -> bool {
    match accepted(alloc, WAITING.as_bytes()) {
        Some(checked) => {
            let found = waits_and_goes_on(alloc, &checked);
            drop(checked);
            found
        }
        None => false,
    }
}

#[test]
fn an_iteration_waits_and_goes_on(rt: HostRuntime) {
    assert!(rt; waiting_goes_on(rt.alloc()));
}
