//! The end of a loop: the hall is closed, the cells are taken from its shards, and the races are reported.

ghost use Rattle.std.specs.Prelude.{◌≡◌, ℕ, ℤ, [], List, IfOk, cond, false, map};
ghost use Rattle.std.specs.List.{list_any};
ghost use Rattle.pipe_model.specs.declared.ticket.BookEntry.{BookEntry as Entry};
ghost use Rattle.run_record.specs.OwnColumns.{made_columns};
ghost use Rattle.run_record.specs.TrappedEvents.{ends_trapped};
ghost use Rattle.frame_book.specs.BookStates.{state_of};
ghost use Rattle.hall_headline.specs.HallEnds as ends;
ghost use Rattle.hall_laws.specs.ClosedHalls.{IsSoundBook};
ghost use Rattle.pipe_engine.specs.LoopEnds.{IsLoopEnd};
ghost use Rattle.program_hall.specs.OpenedHalls.{IsOpenedAfterInit};
ghost use Rattle.hall_table.specs.WorkerSeats.{IsSameHall};
ghost use Rattle.cell_store.specs.ShardState.{IsStateAfter};
ghost use Rattle.pipe_model.specs.Language.CheckingRules.{BreaksNoRule};
ghost use Rattle.pipe_model.specs.Language.Programs.{store_of};
ghost use Rattle.pipe_model.specs.Language.ProgramsOfTrees.{whole_of};
ghost use Rattle.pipe_model.specs.Language.SyntaxTree.{tree_of};
ghost use Rattle.pipe_model.specs.Pipelines.WholePrograms.{init_accesses};
ghost use Rattle.pipe_model.specs.Runs.Run.{IsFinished};
ghost use Rattle.serial_elision.specs.PartRuns.{Serves};

use crate::final_cells::collect;
use access_history::history::Found;
use cell_store::cells::Cells;
use frame_book::book::Book;
use hall_shards::found::found_by;
use hall_shards::shard::Shard;
use om_shared::writer::OmWriter;
use pipe_frame::results::Rescue;
use pipe_hall::close::{HallEnd, close};
use pipe_hall::hall::{HallKey, HallOf};
use pipe_model::access::CellId;
use pipe_model::column::Columns;
use pipe_model::memory::NoMemory;
use pipe_model::report::Reports;
use pipe_model::ticket::{BookEntry, BookLog, ShardLog};
use pipe_model::trap::TrapAt;
use program_hall::carried::{Carried, RunCode};
use race_report::gather::gather;
use run_record::logged_run::LoggedRun;
use run_record::own_columns::{columns_in, has_trap};
use serial_elision::prepared::Prepared;
use serial_elision::traps::least_trap;
use std::alloc::Global;
use std::sync::Wait;

/// A loop that a hall has run to its end.
#[derive(Drop)]
pub(crate) struct LoopEnd {
    /// The events, by their tickets, and their columns.
    pub run_log: LoggedRun,
    /// A race of each cell for which its access history found one, rising by cell.
    pub reports: Reports,
    /// The trap of the least iteration that trapped.
    pub trap: Option<TrapAt>,
    /// The cells.
    pub cells: Cells,
}

// Returns the log of a book whose run is finished. A run ends otherwise only if memory ran out.
fn finished_log<B: RunCode>(mut book: Book<Carried<B>, OmWriter>) -> Result<BookLog, NoMemory>
    ensures log { IfOk result (λ log. log ≡ book.log) }
    ensures sound { IfOk result (λ _. IsSoundBook book) }
    ensures finished { IfOk result (λ _. IsFinished (state_of book)) }
{
    match book.rescue() {
        Rescue::Finished => Ok(book.into_log()),
        rescue => {
            drop(rescue);
            drop(book);
            Err(NoMemory)
        }
    }
}

// Returns the logs of the shards.
fn logs_of(alloc: Global, shards: Vec<Shard>) -> Result<Vec<ShardLog>, NoMemory>
    ensures { IfOk result (λ logs. logs.items ≡ ends.logs_of shards.items) }
{
    let mut logs = Vec::with_capacity(alloc, shards.len())?;
    for shard in shards {
        logs.push(shard.into_log())?;
    }
    Ok(logs)
}

// Returns whether the columns of a run are needed: reports name the stages of their instances, and a trap
// the stage of its own. Most runs have neither, and making the columns takes longer than a look for a trap.
fn are_columns_needed(book: &[BookEntry], found: &[(CellId, Found)]) -> bool
    ensures trap { result ≡ false → list_any (λ (b : Entry). ends_trapped b.event) book.now ≡ false }
    ensures found { result ≡ false → found.now ≡ [] }
{
    !found.is_empty() || has_trap(book)
}

// Returns the columns of the events of a book if they are needed, and none otherwise. Returns an error
// only if memory runs out.
fn columns_if(alloc: Global, needed: bool, book: &[BookEntry]) -> Result<Columns, NoMemory>
    ensures { IfOk result (λ columns. columns ≡ cond needed (made_columns (map (λ (b : Entry). b.event) book.now)) []) }
{
    if needed {
        columns_in(alloc, book)
    } else {
        Ok(Columns::new(alloc))
    }
}

/// Closes a hall of which the key is, and gathers the reports of its shards. The hall must be of this
/// program and limit, and opened with these cells, which are those after `init`. Returns an error if
/// memory runs out, or if the run was not finished because memory ran out.
pub(crate) fn end_loop<R: Wait, B: RunCode>(
    rt: &R,
    alloc: Global,
    prepared: &Prepared,
    throttle: u32,
    hall: HallOf<Carried<B>>,
    key: HallKey<Carried<B>>,
    mut cells: Cells,
) -> Result<LoopEnd, NoMemory>
    requires accepted { BreaksNoRule (tree_of prepared.now.checked.now) }
    requires opened { IsOpenedAfterInit (tree_of prepared.now.checked.now) prepared.now.input.now throttle hall }
    requires same_hall { IsSameHall key.hall hall.hall }
    requires serves { Serves (tree_of prepared.now.checked.now) cells }
    requires state { IsStateAfter (store_of (tree_of prepared.now.checked.now))
        (init_accesses (whole_of (tree_of prepared.now.checked.now) prepared.now.input.now)) cells }
    ensures { IfOk result (IsLoopEnd (tree_of prepared.now.checked.now) prepared.now.input.now throttle) }
{
    let _ = throttle;
    let HallEnd { book, shards } = close(rt, alloc, hall, key)?;
    let book_log = finished_log(book)?;
    let found = found_by(alloc, shards.as_slice())?;
    collect(&mut cells, prepared.checked.cell_count(), shards.as_slice());
    let shard_logs = logs_of(alloc, shards)?;
    let needed = are_columns_needed(book_log.as_slice(), found.as_slice());
    let columns = columns_if(alloc, needed, book_log.as_slice())?;
    let reports = gather(alloc, found.as_slice(), &columns)?;
    let trap = least_trap(columns.as_slice());
    let run_log = LoggedRun::of_logs(book_log, shard_logs);
    Ok(LoopEnd {
        run_log,
        reports,
        trap,
        cells,
    })
}
