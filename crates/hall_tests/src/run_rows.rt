//! Whole runs on several threads.

ghost use Rattle.std.specs.Prelude.{◌≡◌, ◌<◌, All};
ghost use Rattle.hall_tests.specs.PreparedPrograms.{IsPrepared};
ghost use Rattle.pipe_worker.specs.Machines.{CanDrive};
ghost use Rattle.hall_table.specs.WorkerSeats.{hall_name};
ghost use Rattle.pipe_model.specs.Language.SyntaxTree.{tree_of};
ghost use Rattle.run_record.specs.MergedLogs.{BookRises, ShardRises};

use crate::checker::{Verdict, check};
use crate::closing::{Logs, close_logs};
use crate::opening::open_new;
use crate::sources::{MANY_CELLS, Prepared, RACING, prepare};
use crate::threads::{work_on_four, work_on_two};
use access_history::history::Found;
use pipe_hall::hall::HallKey;
use pipe_hall::seat::HallSeat;
use pipe_model::access::{AccessKind, CellId};
use pipe_model::node::NodeId;
use pipe_model::ticket::{BookLog, ShardLog};
use program_hall::carried::{Carried, RunCode};
use run_record::merge::merge;
use std::alloc::Global;
use std::marker::Brand;
use std::sync::Wait;
use std::thread::Threads;

// Each cell of `b` of `MANY_CELLS`, shard by shard. Cells 32, 33 and 34 are in shards 0, 1 and 2, and 19 is
// in shard 3.
const CELLS_OF_B: [u32; 16] = [
    32, 33, 34, 19, 20, 21, 22, 23, 24, 25, 26, 27, 28, 29, 30, 31,
];

const WRITER_OF_F: NodeId = NodeId {
    iteration: 0,
    index: 1,
};

const READER_OF_F: NodeId = NodeId {
    iteration: 1,
    index: 0,
};

// A program, with the races that it has.
#[derive(Clone, Copy)]
enum Run {
    // `RACING` on two threads, with the race of the two accesses to `f`, cell 3.
    Racing,
    // `MANY_CELLS` on four threads, with races of the cells of `b`.
    ManyCells,
}

// Whether instance 1 of iteration 0 writes a cell, and instance 0 of iteration 1 reads it.
fn is_written_and_read(race: Found) -> bool {
    let (writer, reader) = match race.earlier_kind {
        AccessKind::Write => (race.earlier, race.later),
        AccessKind::Read => (race.later, race.earlier),
    };
    race.earlier_kind != race.later_kind && writer == WRITER_OF_F && reader == READER_OF_F
}

// Whether the only race is that of the two accesses to `f`.
fn are_those_of_f(races: &[(CellId, Found)]) -> bool {
    races.len() == 1 && races[0].0 == CellId(3) && is_written_and_read(races[0].1)
}

// Whether the races are those of these cells.
fn are_races_of(races: &[(CellId, Found)], cells: &[u32]) -> bool {
    for (index, (cell, _race)) in races.iter().enumerate() {
        if cells.get(index) != Some(&cell.0) {
            return false;
        }
    }
    races.len() == cells.len()
}

impl Run {
    fn source(self) -> &'static str {
        match self {
            Run::Racing => RACING,
            Run::ManyCells => MANY_CELLS,
        }
    }

    // The throttling limit.
    fn throttle(self) -> u32
        ensures { 0 < result }
    {
        match self {
            Run::Racing => 2,
            Run::ManyCells => 16,
        }
    }

    // Whether these are the races of the program.
    fn has_races(self, races: &[(CellId, Found)]) -> bool {
        match self {
            Run::Racing => are_those_of_f(races),
            Run::ManyCells => are_races_of(races, &CELLS_OF_B),
        }
    }
}

// Runs instances on the threads of a run until it is finished or stopped.
fn work_on<R: Threads + Wait + Sync, B: RunCode + Send>(
    rt: &R,
    prepared: &Prepared,
    run: Run,
    seat: HallSeat<'_, Carried<B>>,
) -> HallKey<Carried<B>>
    requires drives { CanDrive B.code (hall_name seat.hall) prepared.now.code prepared.now.input }
    ensures hall { hall_name result.hall ≡ hall_name seat.entry.hall }
{
    let seat = match run {
        Run::Racing => work_on_two(rt, &prepared.code, &prepared.input, seat),
        Run::ManyCells => work_on_four(rt, &prepared.code, &prepared.input, seat),
    };
    seat.into_key()
}

// Whether the log of a run is that of a finished run.
fn is_finished(
    alloc: Global,
    prepared: &Prepared,
    run: Run,
    book: BookLog,
    shards: Vec<ShardLog>,
) -> bool
    requires prepared { IsPrepared (tree_of prepared.now.checked) prepared.now.code }
    requires book { BookRises book }
    requires shards { All ShardRises shards.items }
{
    let Ok(log) = merge(alloc, book, shards) else {
        return false;
    };
    check(alloc, prepared, run.throttle(), log.events.as_slice()) == Verdict::Finished
}

// Whether the logs are those of a finished run, in which the races of the program were found.
fn are_right(alloc: Global, prepared: &Prepared, run: Run, logs: Logs) -> bool
    requires prepared { IsPrepared (tree_of prepared.now.checked) prepared.now.code }
    requires book { BookRises logs.book }
    requires shards { All ShardRises logs.shards.items }
{
    let Logs {
        book,
        shards,
        found,
    } = logs;
    let are_found = run.has_races(found.as_slice());
    let finished = is_finished(alloc, prepared, run, book, shards);
    are_found && finished
}

// Runs a program, and closes its hall. Returns whether the log is that of a finished run, in which the races of
// the program were found; false also if memory runs out.
fn is_right<R: Threads + Wait + Sync, B: RunCode + Send>(
    rt: &R,
    alloc: Global,
    prepared: &Prepared,
    run: Run,
) -> bool
    requires prepared { IsPrepared (tree_of prepared.now.checked) prepared.now.code }
    requires code { prepared.now.code ≡ B.code }
{
    let Ok((hall, key)) = open_new::<B>(alloc, prepared, run.throttle()) else {
        return false;
    };
    let key = work_on(rt, prepared, run, HallSeat::new(&hall, key));
    let Ok(logs) = close_logs(rt, alloc, hall, key) else {
        return false;
    };
    are_right(alloc, prepared, run, logs)
}

// The same from the source; false also if the source is refused.
fn runs_right<R: Threads + Wait + Sync>(rt: &R, alloc: Global, run: Run) -> bool {
    let Some(prepared) = prepare(alloc, run.source()) else {
        return false;
    };
    let is_right = is_right::<R, Brand>(rt, alloc, &prepared, run);
    drop(prepared);
    is_right
}

// The first of twenty runs of `RACING` that is otherwise.
fn first_other<R: Threads + Wait + Sync>(rt: &R, alloc: Global) -> Option<u32> {
    for run in 0..20 {
        if !runs_right(rt, alloc, Run::Racing) {
            return Some(run);
        }
    }
    None
}

#[test]
fn two_threads_find_the_race(rt: HostRuntime) {
    let other = first_other(&rt, rt.alloc());
    assert!(rt; other.is_none(), "{other:?}");
}

#[test]
fn four_threads_run_a_program_with_cells_in_all_shards(rt: HostRuntime) {
    assert!(rt; runs_right(&rt, rt.alloc(), Run::ManyCells));
}
