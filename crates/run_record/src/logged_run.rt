//! The log of a run, whose events are merged only when they are asked for.

ghost use Rattle.std.specs.Prelude.{◌≡◌, All, IfOk};
ghost use Rattle.run_record.specs.LogLines.{log_text};
ghost use Rattle.run_record.specs.LoggedRuns.{CanBeMerged, columns_of, events_of};
ghost use Rattle.run_record.specs.MergedLogs.{AreMerged, BookRises, ShardRises};
ghost use Rattle.run_record.specs.OwnColumns.{made_columns};

use crate::log_text::lines_of;
use crate::merge::merged_events;
use crate::own_columns::columns_in;
use pipe_check::checked::Checked;
use pipe_model::column::Columns;
use pipe_model::event::{Events, RunLog};
use pipe_model::list::Bytes;
use pipe_model::memory::NoMemory;
use pipe_model::ticket::{BookLog, ShardLog};
use pipe_model::tree::Declaration;
use std::alloc::Global;
use std::marker::Model;

// Where the events of a run are.
#[derive(Drop)]
pub(crate) enum EventLogs {
    // In one list, beside the columns.
    Merged(RunLog),
    // In the book and in the shards, by their tickets.
    Apart(BookLog, Vec<ShardLog>),
}

/// The run log of a finished run. Contracts see its columns and its events in the order in which they
/// happened. The events may still be in the logs that the workers wrote: they are merged, and columns
/// are made of them, when somebody asks, since most callers want neither.
#[derive(Drop)]
pub struct LoggedRun {
    logs: EventLogs,
}

impl Model for LoggedRun {
    ghost use Rattle.pipe_model.specs.declared.event.RunLog.{RunLog};

    ghost Value = { RunLog };

    ghost use Rattle.run_record.specs.LoggedRuns.{CanBeMerged, columns_of, events_of};

    ghost view = { λ l. record { columns = columns_of l.logs; events = events_of l.logs } };

    ghost invariant = { λ l. CanBeMerged l.logs };
}

// Returns the columns, made of the events unless they are there.
fn into_columns(alloc: Global, logs: EventLogs) -> Result<Columns, NoMemory>
    ensures { IfOk result (λ columns. columns ≡ columns_of logs) }
{
    match logs {
        EventLogs::Merged(log) => Ok(log.columns),
        EventLogs::Apart(book, _) => columns_in(alloc, book.as_slice()),
    }
}

// Returns the events, merged unless they are merged already, and the columns.
fn into_run_log(alloc: Global, logs: EventLogs) -> Result<RunLog, NoMemory>
    requires { CanBeMerged logs }
    ensures { IfOk result (λ log. log ≡ record { columns = columns_of logs; events = events_of logs }) }
{
    match logs {
        EventLogs::Merged(log) => Ok(log),
        EventLogs::Apart(book, shards) => {
            let merged = merged_events(alloc, book.as_slice(), shards.as_slice())?;
            let columns = columns_in(alloc, book.as_slice())?;
            Ok(RunLog {
                columns,
                events: merged,
            })
        }
    }
}

// Builds the lines of the events, with the names of the declared cells.
fn lines_in(alloc: Global, cells: &[Declaration], logs: &EventLogs) -> Result<Vec<u8>, NoMemory>
    requires { CanBeMerged logs.now }
    ensures { IfOk result (λ lines. lines.items ≡ log_text cells.now (events_of logs.now)) }
{
    match logs {
        EventLogs::Merged(log) => Ok(lines_of(alloc, cells, log.events.as_slice())?),
        EventLogs::Apart(book, shards) => {
            let events = merged_events(alloc, book.as_slice(), shards.as_slice())?;
            Ok(lines_of(alloc, cells, events.as_slice())?)
        }
    }
}

impl LoggedRun {
    /// Returns the run log of these logs, as `merge` does, but leaves the events where they are. In each
    /// log the tickets must rise.
    pub fn of_logs(book: BookLog, shards: Vec<ShardLog>) -> Self
        requires book { BookRises book }
        requires shards { All ShardRises shards.items }
        ensures events { AreMerged book shards.items result.events }
        ensures columns { result.columns ≡ made_columns result.events }
    {
        let logs = EventLogs::Apart(book, shards);
        LoggedRun { logs }
    }

    /// Returns a run log whose events are merged.
    pub fn of_run_log(run_log: RunLog) -> Self
        ensures { result ≡ run_log }
    {
        let logs = EventLogs::Merged(run_log);
        LoggedRun { logs }
    }

    /// Returns the columns of the run. Returns an error only if memory runs out.
    pub fn into_columns(self, alloc: Global) -> Result<Columns, NoMemory>
        ensures { IfOk result (λ columns. columns ≡ self.columns) }
    {
        let LoggedRun { logs } = self;
        into_columns(alloc, logs)
    }

    /// Merges the events, unless they are merged already. Returns an error only if memory runs out.
    pub fn into_run_log(self, alloc: Global) -> Result<RunLog, NoMemory>
        ensures { IfOk result (λ log. log ≡ self) }
    {
        let LoggedRun { logs } = self;
        into_run_log(alloc, logs)
    }

    /// Builds the lines of the events, as `text` does. Returns an error only if memory runs out.
    pub fn text(&self, alloc: Global, checked: &Checked) -> Result<Bytes, NoMemory>
        ensures { IfOk result (λ bytes. bytes ≡ log_text checked.now.cells self.now.events) }
    {
        let cells = checked.program().cells.as_slice();
        Ok(Bytes::from_vec(lines_in(alloc, cells, &self.logs)?))
    }
}
