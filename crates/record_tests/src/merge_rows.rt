//! The merge of a book and two shards, with the same tickets in several logs.

ghost use Rattle.std.specs.Prelude.{◌≡◌, All, IfOk};
ghost use Rattle.run_record.specs.MergedLogs.{BookRises, ShardRises};

use pipe_model::access::{Access, AccessKind, CellId};
use pipe_model::column::{Column, ColumnEnd};
use pipe_model::event::Event::{Advance, Begin, Enter, Finish};
use pipe_model::event::{Event, RunLog};
use pipe_model::list::ListOf;
use pipe_model::memory::NoMemory;
use pipe_model::node::{Kind, Node, NodeId};
use pipe_model::ticket::{BookEntry, BookLog, ShardEntry, ShardLog};
use run_record::merge::merge;
use std::alloc::{AllocError, Global};

fn write(cell: u32, value: i64) -> Access {
    Access {
        cell: CellId(cell),
        kind: AccessKind::Write,
        value,
    }
}

fn in_book(ticket: u64, event: Event) -> BookEntry
    ensures { result.ticket ≡ ticket }
{
    BookEntry { ticket, event }
}

// A write by an instance of an iteration.
fn in_shard(ticket: u64, iteration: u32, index: u32, access: Access) -> ShardEntry
    ensures { result.ticket ≡ ticket }
{
    let node = NodeId { iteration, index };
    ShardEntry {
        ticket,
        node,
        access,
    }
}

// Iteration 0 goes on in stage 4 while iteration 1 begins, which closes the loop.
fn book(alloc: Global) -> Result<BookLog, AllocError>
    ensures { IfOk result BookRises }
{
    let entries = [
        in_book(1, Begin(0)),
        in_book(3, Advance(0, Kind::Continue, 4)),
        in_book(4, Begin(1)),
        in_book(5, Enter(0)),
        in_book(7, Finish(0, ColumnEnd::End)),
        in_book(8, Finish(1, ColumnEnd::Closed)),
    ];
    Ok(ListOf::from_vec(Vec::from_array(alloc, entries)?))
}

fn first_shard(alloc: Global) -> Result<ShardLog, AllocError>
    ensures { IfOk result ShardRises }
{
    let entries = [
        in_shard(2, 0, 0, write(2, 20)),
        in_shard(5, 1, 0, write(4, 21)),
        in_shard(6, 0, 1, write(2, 22)),
    ];
    Ok(ListOf::from_vec(Vec::from_array(alloc, entries)?))
}

fn second_shard(alloc: Global) -> Result<ShardLog, AllocError>
    ensures { IfOk result ShardRises }
{
    let entries = [
        in_shard(5, 1, 0, write(3, 31)),
        in_shard(6, 1, 0, write(5, 32)),
    ];
    Ok(ListOf::from_vec(Vec::from_array(alloc, entries)?))
}

fn shards(alloc: Global) -> Result<Vec<ShardLog>, AllocError>
    ensures { IfOk result (λ logs. All ShardRises logs.items) }
{
    let mut logs = Vec::new(alloc);
    logs.push(first_shard(alloc)?)?;
    logs.push(second_shard(alloc)?)?;
    Ok(logs)
}

fn wanted() -> [Event; 11] {
    [
        Begin(0),
        Event::Access(0, write(2, 20)),
        Advance(0, Kind::Continue, 4),
        Begin(1),
        Enter(0),
        Event::Access(1, write(4, 21)),
        Event::Access(1, write(3, 31)),
        Event::Access(0, write(2, 22)),
        Event::Access(1, write(5, 32)),
        Finish(0, ColumnEnd::End),
        Finish(1, ColumnEnd::Closed),
    ]
}

const HEAD: Node = Node {
    number: 0,
    kind: Kind::Zero,
};

const SECOND: Node = Node {
    number: 4,
    kind: Kind::Continue,
};

// Whether a column has these nodes and this end.
fn is_column(column: &Column, nodes: &[Node], end: ColumnEnd) -> bool {
    column.nodes.as_slice() == nodes && column.end == Some(end)
}

// Whether the log has the events in the order of their tickets, and the columns of these.
fn is_merged(log: &RunLog) -> bool {
    let columns = log.columns.as_slice();
    columns.len() == 2
        && log.events.as_slice() == wanted().as_slice()
        && is_column(&columns[0], &[HEAD, SECOND], ColumnEnd::End)
        && is_column(&columns[1], &[HEAD], ColumnEnd::Closed)
}

fn merged(alloc: Global) -> Result<RunLog, NoMemory> {
    let book = book(alloc)?;
    let shards = shards(alloc)?;
    Ok(merge(alloc, book, shards)?)
}

fn logs_are_merged(alloc: Global) -> bool {
    match merged(alloc) {
        Ok(log) => {
            let found = is_merged(&log);
            drop(log);
            found
        }
        Err(NoMemory) => false,
    }
}

#[test]
fn equal_tickets_keep_the_order_of_logs(rt: HostRuntime) {
    assert!(rt; logs_are_merged(rt.alloc()));
}
