//! How far the logs of a run are merged, and the next event of the merge.

ghost use Rattle.std.specs.Prelude.{◌≡◌, ◌+◌, ◌<◌, [], All, IfOk, IfSome, MatchOption, Some, None, length};
ghost use Rattle.std.specs.Prelude.{slice_get, slice_index, slice_set, vec_len};
ghost use Rattle.run_record.specs.LogCursors.{AreCursors, AreStarts, IsFirst, IsNext, MergesRest, book_ticket};
ghost use Rattle.run_record.specs.LogCursors.{entries_left, is_before, shard_ticket};
ghost use Rattle.run_record.specs.MergedLogs.{BookRises, ShardRises};

use pipe_model::event::Event;
use pipe_model::memory::NoMemory;
use pipe_model::ticket::{BookEntry, ShardEntry, ShardLog};
use std::alloc::Global;

// The log that has the next entry of the merge: the book, or the shard with this number.
#[derive(Clone, Copy)]
enum NextLog {
    Book,
    Shard(usize),
}

// How many entries of each log are merged.
#[derive(Drop)]
pub(crate) struct Cursors {
    book: usize,
    shards: Vec<usize>,
    // The ticket of the next entry of each shard, if one is left. They are next to one another, since
    // all of them are read for each access.
    tickets: Vec<Option<u64>>,
    // The shard with the least of these tickets, or the book if there is none. So an event of the book
    // needs one comparison.
    first: NextLog,
}

fn ticket_in_book(book: &[BookEntry], index: usize) -> Option<u64>
    ensures { result ≡ book_ticket book.now index }
{
    if index < book.len() {
        Some(book[index].ticket)
    } else {
        None
    }
}

fn ticket_in_shard(shard: &[ShardEntry], index: usize) -> Option<u64>
    ensures { result ≡ shard_ticket shard.now index }
{
    if index < shard.len() {
        Some(shard[index].ticket)
    } else {
        None
    }
}

// Whether an entry with the first ticket comes before one with the second. Without a ticket no entry
// is left, and that comes before none.
fn is_before(ticket: Option<u64>, other: Option<u64>) -> bool
    ensures { result ≡ is_before ticket other }
{
    match (ticket, other) {
        (Some(first), Some(second)) => first < second,
        (Some(_), None) => true,
        (None, _) => false,
    }
}

// Finds the log with the least next ticket: at equal tickets the book, and then the shard with the
// least number. If no entry is left, that is the book.
fn next_log(book: Option<u64>, tickets: &[Option<u64>]) -> NextLog
    ensures { IsFirst book tickets.now (length tickets.now) result }
{
    let mut least = book;
    let mut log = NextLog::Book;
    for (number, ticket) in tickets.iter().enumerate() {
        if is_before(*ticket, least) {
            least = *ticket;
            log = NextLog::Shard(number);
        }
    }
    log
}

// Finds the log with the least next ticket, given that of the shards.
fn next_of_all(book: Option<u64>, tickets: &[Option<u64>], first: NextLog) -> NextLog
    requires { IsFirst None tickets.now (length tickets.now) first }
    ensures { IsFirst book tickets.now (length tickets.now) result }
{
    match first {
        NextLog::Book => NextLog::Book,
        NextLog::Shard(number) => {
            if is_before(tickets[number], book) {
                NextLog::Shard(number)
            } else {
                NextLog::Book
            }
        }
    }
}

impl Cursors {
    // The beginnings of all logs.
    pub(crate) fn new(alloc: Global, shards: &[ShardLog]) -> Result<Self, NoMemory>
        ensures cursors { IfOk result (AreCursors shards.now) }
        ensures starts { IfOk result AreStarts }
    {
        let starts = vec![in alloc; 0; shards.len()]?;
        let mut tickets = Vec::with_capacity(alloc, shards.len())?;
        for shard in shards {
            tickets.push(ticket_in_shard(shard.as_slice(), 0))?;
        }
        let first = next_log(None, tickets.as_slice());
        Ok(Cursors {
            book: 0,
            shards: starts,
            tickets,
            first,
        })
    }

    // Takes the next entry of the shard with this number.
    fn take(&mut self, number: usize, shard: &[ShardEntry]) -> ShardEntry
        requires cursor { number < vec_len self.old.shards }
        requires ticket { number < vec_len self.old.tickets }
        requires entry { slice_index self.old.shards.items number < length shard.now }
        ensures entry { slice_get shard.now (slice_index self.old.shards.items number) ≡ Some result }
        ensures book { self.new.book ≡ self.old.book }
        ensures shards { self.new.shards.items ≡ slice_set self.old.shards.items number (slice_index self.old.shards.items number + 1) }
        ensures tickets { self.new.tickets.items
            ≡ slice_set self.old.tickets.items number (shard_ticket shard.now (slice_index self.old.shards.items number + 1)) }
        ensures first { IsFirst None self.new.tickets.items (length self.new.tickets.items) self.new.first }
    {
        let index = self.shards[number];
        self.shards[number] = index + 1;
        self.tickets[number] = ticket_in_shard(shard, index + 1);
        self.first = next_log(None, self.tickets.as_slice());
        shard[index]
    }

    // Takes the next entry of the merge and returns its event, if a log has an entry left.
    pub(crate) fn next(&mut self, book: &[BookEntry], shards: &[ShardLog]) -> Option<Event>
        requires book { BookRises book.now }
        requires shards { All ShardRises shards.now }
        requires cursors { AreCursors shards.now self.old }
        ensures cursors { AreCursors shards.now self.new }
        ensures event { MatchOption result (MergesRest book.now shards.now self.old [])
            (IsNext book.now shards.now self.old self.new) }
        ensures fewer { IfSome result (λ event. entries_left book.now shards.now self.new < entries_left book.now shards.now self.old) }
    {
        let index = self.book;
        let ticket = ticket_in_book(book, index);
        match next_of_all(ticket, self.tickets.as_slice(), self.first) {
            NextLog::Book => {
                if index < book.len() {
                    self.book = index + 1;
                    Some(book[index].event)
                } else {
                    None
                }
            }
            NextLog::Shard(number) => {
                let entry = self.take(number, shards[number].as_slice());
                Some(Event::Access(entry.node.iteration, entry.access))
            }
        }
    }
}
