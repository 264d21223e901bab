//! Whole programs, played by given choices.

ghost use Rattle.std.specs.Prelude.{◌<◌};
ghost use Rattle.pipe_model.specs.Language.CheckingRules.{BreaksNoRule};
ghost use Rattle.pipe_model.specs.Language.SyntaxTree.{tree_of};

use crate::plays::{limits, play_of};
use crate::sources::accepted;
use pipe_check::checked::Checked;
use pipe_model::column::ColumnEnd;
use pipe_model::event::Event;
use pipe_model::memory::NoMemory;
use pipe_model::node::NodeId;
use pipe_model::trap::{Trap, TrapAt, TrapPlace};
use race_report::race_text::text;
use schedule_play::choices::choices;
use schedule_play::program_play::Played;
use std::alloc::Global;

const PREFIX_SUMS: &str =
    "limits iterations 8, stages 4, steps 100, emits 8; cell n = 0; cell s = 0; \
    pipe_while (n < 3) { n = n + 1; let t = n; pipe_wait(1); s = s + t; emit s; }";

// The same without the wait, so that both the sum and the output race.
const RACING_SUMS: &str =
    "limits iterations 8, stages 4, steps 100, emits 8; cell n = 0; cell s = 0; \
    pipe_while (n < 3) { n = n + 1; let t = n; pipe_continue(1); s = s + t; emit s; } \
    final { emit 7; }";

const RACING_LINES: &str = "race output write 0/1 read 1/1\nrace s write 0/1 read 1/1\n";

// `init`, the loop and `final` emit 5, 1 and 2, and 12. An iteration has 10 events, and the closing one 3.
const THREE_PARTS: &str = "limits iterations 2, stages 2, steps 50, emits 8; cell n = 5; \
    init { emit n; n = 0; } \
    pipe_while (n < 2) { n = n + 1; let t = n; pipe_wait(1); emit t; } \
    final { emit n + 10; }";

const TRAP_IN_INIT: &str = "limits iterations 1, stages 1, steps 50, emits 8; cell n = 0; \
    init { emit 1; emit 1 / 0; } pipe_while (n < 1) { n = 1; emit 2; } final { emit 3; }";

const TRAP_IN_FINAL: &str = "limits iterations 1, stages 1, steps 50, emits 8; cell n = 0; \
    pipe_while (n < 1) { n = 1; emit 2; } final { emit 3; emit 1 / 0; emit 4; }";

// Iterations 1 and 3 trap in their last stage, and no other waits for it.
const TWO_TRAPS: &str = "limits iterations 4, stages 3, steps 50, emits 8; cell n = 0; \
    pipe_while (n < 4) { n = n + 1; pipe_wait(1); emit iter(); \
    pipe_continue(5); let t = 1 / ((iter() + 1) % 2); } final { emit 9; }";

// A source, its number of turns, and what is left after them: the number of events and of columns, the
// output, the part in which 1 is divided by 0, and whether the run is finished.
type Row = (
    &'static str,
    u64,
    [usize; 2],
    &'static [i64],
    Option<TrapPlace>,
    bool,
);

const ROWS: [Row; 6] = [
    (THREE_PARTS, 0, [0, 0], &[5], None, false),
    (THREE_PARTS, 10, [10, 1], &[5, 1], None, false),
    (THREE_PARTS, 22, [22, 3], &[5, 1, 2], None, false),
    (THREE_PARTS, 23, [23, 3], &[5, 1, 2, 12], None, true),
    (TRAP_IN_INIT, 100, [0, 0], &[1], Some(TrapPlace::Init), true),
    (
        TRAP_IN_FINAL,
        100,
        [9, 2],
        &[2, 3],
        Some(TrapPlace::Last),
        true,
    ),
];

// Returns the trap of a division by 0 at this place.
fn division(place: Option<TrapPlace>) -> Option<TrapAt> {
    let place = place?;
    Some(TrapAt {
        place,
        trap: Trap::DivZero,
    })
}

// Returns the greatest number of instances that run at a time.
fn most_running(events: &[Event]) -> u32 {
    let mut running = 0u32;
    let mut most = 0;
    for event in events {
        match event {
            Event::Begin(_) | Event::Enter(_) => running = running.saturating_add(1),
            Event::Advance(..) | Event::Finish(..) => running = running.saturating_sub(1),
            Event::Access(..) | Event::Stop => (),
        }
        most = most.max(running);
    }
    most
}

// Returns the iteration that trapped last.
fn last_trapped(events: &[Event]) -> Option<u32> {
    let mut last = None;
    for event in events {
        if let Event::Finish(iteration, ColumnEnd::Trapped(_)) = event {
            last = Some(*iteration);
        }
    }
    last
}

fn are_prefix_sums(played: &Played) -> bool {
    played.finished
        && played.run_log.events.len() == 42
        && played.output.as_slice() == [1, 3, 6].as_slice()
        && played.reports.is_empty()
        && played.trap.is_none()
}

// Plays the prefix sums for this number of turns. Returns whether the run is finished, and whether the
// sums are right; not finished but right if memory runs out.
fn ends(alloc: Global, checked: &Checked, turns: u64) -> (bool, bool)
    requires { BreaksNoRule (tree_of checked.now) }
{
    match play_of(alloc, checked, limits(4, 4, turns), &[59]) {
        Ok(played) => {
            let found = (played.finished, are_prefix_sums(&played));
            drop(played);
            found
        }
        Err(NoMemory) => (false, true),
    }
}

// Whether the sums take 42 turns.
fn end_after_42(alloc: Global, checked: &Checked) -> bool
    requires { BreaksNoRule (tree_of checked.now) }
{
    ends(alloc, checked, 41) == (false, false) && ends(alloc, checked, 42) == (true, true)
}

// Whether the sums of a play are right, and the most instances that ran at a time.
fn sums_and_most(played: &Played) -> (bool, u32) {
    let most = most_running(played.run_log.events.as_slice());
    (are_prefix_sums(played), most)
}

// Plays the prefix sums by the choices of a seed. Returns whether they are right, and the most instances
// that ran at a time.
fn seeded(alloc: Global, checked: &Checked, workers: u32, seed: u32) -> (bool, u32)
    requires accepted { BreaksNoRule (tree_of checked.now) }
    requires workers { 0 < workers }
    requires seed { seed < 10 }
{
    let Ok(choices) = choices(alloc, seed) else {
        return (false, 0);
    };
    match play_of(alloc, checked, limits(workers, 4, 1000), choices.as_slice()) {
        Ok(played) => {
            let found = sums_and_most(&played);
            drop(played);
            found
        }
        Err(NoMemory) => (false, 0),
    }
}

// Whether the sums of a seed are right for four workers, and for two, which run two instances at a time.
fn is_right(alloc: Global, checked: &Checked, seed: u32) -> bool
    requires accepted { BreaksNoRule (tree_of checked.now) }
    requires seed { seed < 10 }
{
    seeded(alloc, checked, 4, seed).0 && seeded(alloc, checked, 2, seed) == (true, 2)
}

// The first seed for which it is otherwise.
fn first_other_seed(alloc: Global, checked: &Checked) -> Option<u32>
    requires { BreaksNoRule (tree_of checked.now) }
{
    for seed in 0..10 {
        if !is_right(alloc, checked, seed) {
            return Some(seed);
        }
    }
    None
}

fn sums_end_after_42(alloc: Global) -> bool {
    match accepted(alloc, PREFIX_SUMS.as_bytes()) {
        Some(checked) => {
            let found = end_after_42(alloc, &checked);
            drop(checked);
            found
        }
        None => false,
    }
}

#[test]
fn sums_take_42_turns(rt: HostRuntime) {
    assert!(rt; sums_end_after_42(rt.alloc()));
}

fn first_other_seed_of_sums(alloc: Global) -> Option<u32> {
    match accepted(alloc, PREFIX_SUMS.as_bytes()) {
        Some(checked) => {
            let found = first_other_seed(alloc, &checked);
            drop(checked);
            found
        }
        None => Some(10),
    }
}

#[test]
fn schedules_change_no_sum(rt: HostRuntime) {
    let other = first_other_seed_of_sums(rt.alloc());
    assert!(rt; other.is_none(), "{other:?}");
}

// Whether a play has the races of the sums, and `final`, which would emit 7, has not run.
fn leaves_out_final(alloc: Global, checked: &Checked, played: &Played) -> bool {
    match text(alloc, &played.reports, checked) {
        Ok(lines) => {
            played.finished
                && played.trap.is_none()
                && lines.as_slice() == RACING_LINES.as_bytes()
                && played.output.as_slice() == [1, 3, 6].as_slice()
        }
        Err(NoMemory) => false,
    }
}

fn play_leaves_out_final(alloc: Global, checked: &Checked) -> bool
    requires { BreaksNoRule (tree_of checked.now) }
{
    match play_of(alloc, checked, limits(1, 1, 10_000), &[]) {
        Ok(played) => {
            let found = leaves_out_final(alloc, checked, &played);
            drop(played);
            found
        }
        Err(NoMemory) => false,
    }
}

fn racing_sums_leave_out_final(alloc: Global) -> bool {
    match accepted(alloc, RACING_SUMS.as_bytes()) {
        Some(checked) => {
            let found = play_leaves_out_final(alloc, &checked);
            drop(checked);
            found
        }
        None => false,
    }
}

#[test]
fn races_leave_out_final(rt: HostRuntime) {
    assert!(rt; racing_sums_leave_out_final(rt.alloc()));
}

// Whether what is left of a program after some turns is as the row says.
fn is_left(played: &Played, row: &Row) -> bool {
    let (_, _, counts, output, place, finished) = *row;
    [played.run_log.events.len(), played.run_log.columns.len()] == counts
        && played.output.as_slice() == output
        && played.trap == division(place)
        && played.finished == finished
}

fn leaves(alloc: Global, checked: &Checked, row: &Row) -> bool
    requires { BreaksNoRule (tree_of checked.now) }
{
    match play_of(alloc, checked, limits(2, 2, row.1), &[]) {
        Ok(played) => {
            let found = is_left(&played, row);
            drop(played);
            found
        }
        Err(NoMemory) => false,
    }
}

// The same for the program of the row's source.
fn row_leaves(alloc: Global, row: &Row) -> bool {
    match accepted(alloc, row.0.as_bytes()) {
        Some(checked) => {
            let found = leaves(alloc, &checked, row);
            drop(checked);
            found
        }
        None => false,
    }
}

// The first row of which something else is left.
fn first_other(alloc: Global) -> Option<usize> {
    for (index, row) in ROWS.iter().enumerate() {
        if !row_leaves(alloc, row) {
            return Some(index);
        }
    }
    None
}

#[test]
fn parts_run_in_order(rt: HostRuntime) {
    let other = first_other(rt.alloc());
    assert!(rt; other.is_none(), "{other:?}");
}

// Whether the trap of iteration 1 is reported, and `last` is the iteration that trapped last.
fn has_least_trap(played: &Played, last: u32) -> bool {
    let node = NodeId {
        iteration: 1,
        index: 2,
    };
    played.finished
        && last_trapped(played.run_log.events.as_slice()) == Some(last)
        && played.trap == division(Some(TrapPlace::At(node, 5)))
        && played.output.as_slice() == [0, 1, 2, 3].as_slice()
}

// The same for a play that takes this choice each time.
fn plays_least_trap(alloc: Global, checked: &Checked, choice: u32, last: u32) -> bool
    requires { BreaksNoRule (tree_of checked.now) }
{
    match play_of(alloc, checked, limits(4, 4, 47), &[choice]) {
        Ok(played) => {
            let found = has_least_trap(&played, last);
            drop(played);
            found
        }
        Err(NoMemory) => false,
    }
}

// The last candidate is taken each time by choice 59, as there are at most 5: iteration 3 traps first.
fn both_have_least_trap(alloc: Global, checked: &Checked) -> bool
    requires { BreaksNoRule (tree_of checked.now) }
{
    plays_least_trap(alloc, checked, 0, 3) && plays_least_trap(alloc, checked, 59, 1)
}

fn two_traps_have_least(alloc: Global) -> bool {
    match accepted(alloc, TWO_TRAPS.as_bytes()) {
        Some(checked) => {
            let found = both_have_least_trap(alloc, &checked);
            drop(checked);
            found
        }
        None => false,
    }
}

#[test]
fn least_iteration_has_the_trap(rt: HostRuntime) {
    assert!(rt; two_traps_have_least(rt.alloc()));
}
