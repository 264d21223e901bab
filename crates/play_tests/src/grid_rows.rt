//! Grids that are filled.

ghost use Rattle.std.specs.Prelude.{◌<◌};
ghost use Rattle.pipe_model.specs.Language.CheckingRules.{BreaksNoRule};
ghost use Rattle.pipe_model.specs.Language.SyntaxTree.{tree_of};

use crate::plays::{limits, play_of};
use crate::wave_sources::lowered;
use pipe_check::checked::Checked;
use pipe_model::memory::NoMemory;
use pipe_model::node::NodeId;
use pipe_model::trap::{Trap, TrapAt, TrapPlace};
use race_report::race_text::text;
use schedule_play::program_play::Played;
use std::alloc::Global;

// Paths from the upper left corner of a grid that lead down and to the right.
const PATHS: &str = "limits iterations 3, stages 3, steps 100, emits 1; cell a[9] = 1; \
    pipe_while (1) { let row = 0; if (row > 0) { if (iter() > 0) { \
    a[row * 3 + iter()] = a[row * 3 + iter() - 1] + a[(row - 1) * 3 + iter()]; } } } final { emit a[8]; }";

const ONE_ROW: &str = "limits iterations 4, stages 1, steps 50, emits 1; cell s = 0; \
    pipe_while (1) { let row = 0; s = s * 10 + iter(); } final { emit s; }";

const ONE_COLUMN: &str = "limits iterations 1, stages 4, steps 50, emits 1; cell s = 0; \
    pipe_while (1) { let row = 0; s = s * 10 + row; } final { emit s; }";

// A point in row 0 takes 19 + 4 + 9 steps, and one in the last row 4 + 4 + 4.
const JUST_ENOUGH_STEPS: &str = "limits iterations 1, stages 2, steps 32, emits 1; cell s = 0; \
    pipe_while (1) { let row = 0; s = s + 1; } final { emit s; }";

const ONE_STEP_TOO_FEW: &str = "limits iterations 1, stages 2, steps 31, emits 1; cell s = 0; \
    pipe_while (1) { let row = 0; s = s + 1; } final { emit s; }";

// Divisions by 0 in column 1: in row 0, which ends the grid, in row 1, and in the last row.
const TRAP_IN_ROW_0: &str = "limits iterations 3, stages 3, steps 99, emits 1; cell n = 0; \
    pipe_while (1) { let row = 0; let t = 1 / (iter() * 9 + row - 9); } final { emit 1; }";

const TRAP_IN_ROW_1: &str = "limits iterations 3, stages 3, steps 99, emits 1; cell n = 0; \
    pipe_while (1) { let row = 0; let t = 1 / (iter() * 9 + row - 10); } final { emit 1; }";

const TRAP_IN_ROW_2: &str = "limits iterations 3, stages 3, steps 99, emits 1; cell n = 0; \
    pipe_while (1) { let row = 0; let t = 1 / (iter() * 9 + row - 11); } final { emit 1; }";

// As many columns as the limits allow, and as many rows.
const MOST_COLUMNS: &str = "limits iterations 65536, stages 1, steps 27, emits 1; cell s = 0; \
    pipe_while (1) { let row = 0; s = s + 1; } final { emit s; }";

const MOST_ROWS: &str = "limits iterations 1, stages 4096, steps 32, emits 1; cell s = 0; \
    pipe_while (1) { let row = 0; s = s + 1; } final { emit s; }";

// No point waits for the one below its left neighbour.
const RACING_POINTS: &str = "limits iterations 2, stages 2, steps 50, emits 1; cell s = 0; \
    pipe_while (1) { let row = 0; s = s + 1; }";

// A source, its output, its trap with the column and the row in which it occurs, and the columns, the
// closing one included.
type Row = (
    &'static str,
    &'static [i64],
    Option<(Trap, u32, u32)>,
    usize,
);

const ROWS: [Row; 10] = [
    (PATHS, &[6], None, 4),
    (ONE_ROW, &[123], None, 5),
    (ONE_COLUMN, &[123], None, 2),
    (MOST_COLUMNS, &[65536], None, 65537),
    (MOST_ROWS, &[4096], None, 2),
    (JUST_ENOUGH_STEPS, &[2], None, 2),
    (ONE_STEP_TOO_FEW, &[], Some((Trap::Budget, 0, 0)), 1),
    (TRAP_IN_ROW_0, &[], Some((Trap::DivZero, 1, 0)), 2),
    (TRAP_IN_ROW_1, &[], Some((Trap::DivZero, 1, 1)), 4),
    (TRAP_IN_ROW_2, &[], Some((Trap::DivZero, 1, 2)), 4),
];

// Returns the place of a trap in this column and this row.
fn trap_at(trap: Option<(Trap, u32, u32)>) -> Option<TrapAt> {
    let (trap, iteration, index) = trap?;
    let node = NodeId { iteration, index };
    Some(TrapAt {
        place: TrapPlace::At(node, index as i64),
        trap,
    })
}

// Whether a grid was filled without a race, with the output, the trap and the columns of the row.
fn is_filled(played: &Played, row: &Row) -> bool {
    let (_, output, trap, columns) = *row;
    played.finished
        && played.reports.is_empty()
        && played.output.as_slice() == output
        && played.trap == trap_at(trap)
        && played.run_log.columns.len() == columns
}

// Whether the program fills the grid of the row for this number of workers.
fn fills(alloc: Global, checked: &Checked, row: &Row, workers: u32) -> bool
    requires accepted { BreaksNoRule (tree_of checked.now) }
    requires workers { 0 < workers }
{
    match play_of(alloc, checked, limits(workers, workers, 1_000_000), &[]) {
        Ok(played) => {
            let found = is_filled(&played, row);
            drop(played);
            found
        }
        Err(NoMemory) => false,
    }
}

// Whether this is so for one worker and for eight.
fn fills_twice(alloc: Global, checked: &Checked, row: &Row) -> bool
    requires { BreaksNoRule (tree_of checked.now) }
{
    fills(alloc, checked, row, 1) && fills(alloc, checked, row, 8)
}

// The same for the lowered program of the row's source.
fn row_fills(alloc: Global, row: &Row) -> bool {
    match lowered(alloc, row.0.as_bytes()) {
        Some(checked) => {
            let found = fills_twice(alloc, &checked, row);
            drop(checked);
            found
        }
        None => false,
    }
}

// The first row whose grid is filled otherwise.
fn first_other(alloc: Global) -> Option<usize> {
    for (index, row) in ROWS.iter().enumerate() {
        if !row_fills(alloc, row) {
            return Some(index);
        }
    }
    None
}

#[test]
fn grids_are_filled(rt: HostRuntime) {
    let other = first_other(rt.alloc());
    assert!(rt; other.is_none(), "{other:?}");
}

const RACING_LINES: &[u8] = b"race s write 0/1 read 1/0\n";

// Whether a play is finished without a trap, and has the lines of these races.
fn has_races(alloc: Global, checked: &Checked, played: &Played) -> bool {
    match text(alloc, &played.reports, checked) {
        Ok(found) => {
            played.finished && played.trap.is_none() && found.as_slice() == RACING_LINES
        }
        Err(NoMemory) => false,
    }
}

fn plays_with_races(alloc: Global, checked: &Checked) -> bool
    requires { BreaksNoRule (tree_of checked.now) }
{
    match play_of(alloc, checked, limits(1, 1, 1_000_000), &[]) {
        Ok(played) => {
            let found = has_races(alloc, checked, &played);
            drop(played);
            found
        }
        Err(NoMemory) => false,
    }
}

// The same for the lowered program of the source.
fn points_race(alloc: Global) -> bool {
    match lowered(alloc, RACING_POINTS.as_bytes()) {
        Some(checked) => {
            let found = plays_with_races(alloc, &checked);
            drop(checked);
            found
        }
        None => false,
    }
}

#[test]
fn points_off_the_paths_race(rt: HostRuntime) {
    assert!(rt; points_race(rt.alloc()));
}

// A body in 64 brackets.
const DEEPEST: [(&str, usize); 5] = [
    (
        "limits iterations 1, stages 1, steps 999, emits 1; cell s = 0; pipe_while (1) { let row = 0; ",
        1,
    ),
    ("if (1) { ", 63),
    ("s = 1; ", 1),
    ("} ", 63),
    ("} final { emit s; }", 1),
];

// Appends a text some times.
fn push_times(source: &mut String, text: &str, times: usize) -> Result<(), NoMemory> {
    for _ in 0..times {
        source.push_str(text)?;
    }
    Ok(())
}

fn deepest(alloc: Global) -> Result<String, NoMemory> {
    let mut source = String::new(alloc);
    for (text, times) in &DEEPEST {
        push_times(&mut source, text, *times)?;
    }
    Ok(source)
}

// Whether a program emits 1.
fn emits_one(alloc: Global, checked: &Checked) -> bool
    requires { BreaksNoRule (tree_of checked.now) }
{
    match play_of(alloc, checked, limits(1, 1, 1_000_000), &[]) {
        Ok(played) => {
            let found = played.output.as_slice() == [1].as_slice();
            drop(played);
            found
        }
        Err(NoMemory) => false,
    }
}

// The same for the lowered program of a source.
fn source_emits_one(alloc: Global, source: &str) -> bool {
    match lowered(alloc, source.as_bytes()) {
        Some(checked) => {
            let found = emits_one(alloc, &checked);
            drop(checked);
            found
        }
        None => false,
    }
}

fn deepest_emits_one(alloc: Global) -> bool {
    match deepest(alloc) {
        Ok(source) => source_emits_one(alloc, source.as_str()),
        Err(NoMemory) => false,
    }
}

// The lowered program has one open bracket more than a source may have.
#[test]
fn deepest_bodies_are_lowered(rt: HostRuntime) {
    assert!(rt; deepest_emits_one(rt.alloc()));
}
