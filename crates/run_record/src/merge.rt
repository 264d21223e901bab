//! The merge of the logs of a run.

ghost use Rattle.std.specs.Prelude.{◌≡◌, All, IfOk};
ghost use Rattle.run_record.specs.MergedLogs.{AreMerged, BookRises, ShardRises};
ghost use Rattle.run_record.specs.OwnColumns.{made_columns};
ghost use Rattle.run_record.specs.SortedEntries.{merged_events};

use crate::cursors::Cursors;
use crate::own_columns::columns_in;
use pipe_model::event::{Events, RunLog};
use pipe_model::list::ListOf;
use pipe_model::memory::NoMemory;
use pipe_model::ticket::{BookEntry, BookLog, ShardLog};
use std::alloc::Global;

// Counts the entries of all logs, to reserve room for their events.
fn entry_count(book: &[BookEntry], shards: &[ShardLog]) -> usize {
    let mut count = book.len();
    for shard in shards {
        count = count.saturating_add(shard.len());
    }
    count
}

// The events of the merge of the logs.
pub(crate) fn merged_events(
    alloc: Global,
    book: &[BookEntry],
    shards: &[ShardLog],
) -> Result<Events, NoMemory>
    requires book { BookRises book.now }
    requires shards { All ShardRises shards.now }
    ensures merged { IfOk result (AreMerged book.now shards.now) }
    ensures sorted { IfOk result (λ events. events ≡ merged_events book.now shards.now) }
{
    let mut events = Vec::with_capacity(alloc, entry_count(book, shards))?;
    let mut cursors = Cursors::new(alloc, shards)?;
    while let Some(event) = cursors.next(book, shards) {
        events.push(event)?;
    }
    Ok(ListOf::from_vec(events))
}

/// Merges the logs of a run into its run log: the events of the book and the accesses of its
/// shards, by ticket; at equal tickets first the book, and then the shards by number. The columns
/// are those that these events make. In each log the tickets must rise. Returns an error only if
/// memory runs out.
pub fn merge(alloc: Global, book: BookLog, shards: Vec<ShardLog>) -> Result<RunLog, NoMemory>
    requires book { BookRises book }
    requires shards { All ShardRises shards.items }
    ensures events { IfOk result (λ log. AreMerged book shards.items log.events) }
    ensures columns { IfOk result (λ log. log.columns ≡ made_columns log.events) }
{
    let events = merged_events(alloc, book.as_slice(), shards.as_slice())?;
    let columns = columns_in(alloc, book.as_slice())?;
    Ok(RunLog { columns, events })
}
