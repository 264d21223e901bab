//! What is left of a hall: its logs, and the races that its shards have found.

ghost use Rattle.std.specs.Prelude.{◌≡◌, All, IfOk};
ghost use Rattle.hall_table.specs.WorkerSeats.{IsSameHall};
ghost use Rattle.run_record.specs.MergedLogs.{BookRises, ShardRises};

use access_history::history::Found;
use hall_shards::found::found_by;
use hall_shards::shard::Shard;
use pipe_hall::close::{HallEnd, close};
use pipe_hall::hall::{HallKey, HallOf};
use pipe_model::access::CellId;
use pipe_model::event::Event;
use pipe_model::memory::NoMemory;
use pipe_model::ticket::{BookLog, ShardEntry, ShardLog};
use program_hall::carried::{Carried, RunCode};
use std::alloc::Global;
use std::sync::Wait;

/// The logs of a closed hall, and the races that were found with their cells, shard by shard.
#[derive(Drop)]
pub struct Logs {
    pub book: BookLog,
    pub shards: Vec<ShardLog>,
    pub found: Vec<(CellId, Found)>,
}

// The logs of the shards.
fn logs_of(alloc: Global, shards: Vec<Shard>) -> Result<Vec<ShardLog>, NoMemory>
    requires { All (λ shard. ShardRises shard.log) shards.items }
    ensures { IfOk result (λ logs. All ShardRises logs.items) }
{
    let mut logs = Vec::new(alloc);
    for shard in shards {
        logs.push(shard.into_log())?;
    }
    Ok(logs)
}

// The logs of a book and of its shards.
fn logs_with(alloc: Global, book: BookLog, shards: Vec<Shard>) -> Result<Logs, NoMemory>
    requires book { BookRises book }
    requires shards { All (λ shard. ShardRises shard.log) shards.items }
    ensures book { IfOk result (λ logs. BookRises logs.book) }
    ensures shards { IfOk result (λ logs. All ShardRises logs.shards.items) }
{
    let found = found_by(alloc, shards.as_slice())?;
    let shards = logs_of(alloc, shards)?;
    Ok(Logs {
        book,
        shards,
        found,
    })
}

/// Closes the hall that the key belongs to. Returns an error only if memory runs out.
pub fn close_logs<R: Wait, B: RunCode>(
    rt: &R,
    alloc: Global,
    hall: HallOf<Carried<B>>,
    key: HallKey<Carried<B>>,
) -> Result<Logs, NoMemory>
    requires same_hall { IsSameHall key.hall hall.hall }
    ensures book { IfOk result (λ logs. BookRises logs.book) }
    ensures shards { IfOk result (λ logs. All ShardRises logs.shards.items) }
{
    let HallEnd { book, shards } = close(rt, alloc, hall, key)?;
    logs_with(alloc, book.into_log(), shards)
}

/// Closes the hall that the key belongs to. Returns whether for each row, of a shard and tickets, the
/// accesses to the cells of the shard have these tickets; false also if memory runs out.
pub fn close_with_tickets<R: Wait, B: RunCode>(
    rt: &R,
    alloc: Global,
    hall: HallOf<Carried<B>>,
    key: HallKey<Carried<B>>,
    rows: &[(usize, &[u64])],
) -> bool
    requires same_hall { IsSameHall key.hall hall.hall }
{
    let Ok(logs) = close_logs(rt, alloc, hall, key) else {
        return false;
    };
    logs.have_tickets(rows)
}

// Whether the entries have these tickets.
fn are_tickets(entries: &[ShardEntry], tickets: &[u64]) -> bool {
    for (index, entry) in entries.iter().enumerate() {
        if tickets.get(index) != Some(&entry.ticket) {
            return false;
        }
    }
    entries.len() == tickets.len()
}

impl Logs {
    // Whether the accesses to the cells of a shard have these tickets.
    fn has_tickets(&self, number: usize, tickets: &[u64]) -> bool {
        match self.shards.get(number) {
            Some(log) => are_tickets(log.as_slice(), tickets),
            None => false,
        }
    }

    // Whether this is so for each row, of a shard and tickets.
    fn have_tickets(&self, rows: &[(usize, &[u64])]) -> bool {
        for (number, tickets) in rows {
            if !self.has_tickets(*number, *tickets) {
                return false;
            }
        }
        true
    }

    /// Returns the cell of the race, if just one race was found.
    pub fn racing_cell(&self) -> Option<CellId> {
        if self.found.len() == 1 {
            Some(self.found[0].0)
        } else {
            None
        }
    }

    /// Returns whether the last event of the book is a stop.
    pub fn end_with_stop(&self) -> bool {
        match self.book.as_slice().last() {
            Some(entry) => entry.event == Event::Stop,
            None => false,
        }
    }
}
