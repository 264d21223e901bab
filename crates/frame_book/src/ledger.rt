//! The log of a book, and its tickets.

ghost use Rattle.std.specs.Prelude.{◌≡◌, ◌+◌, ◌<◌, ◌≤◌, ◌^◌, [], ◌∷◌, length, IfOk, max};
ghost use Rattle.frame_book.specs.BookStates.{last_ticket, with_events, with_last_raised};

use pipe_model::event::Event;
use pipe_model::list::ListOf;
use pipe_model::ticket::{BookEntry, BookLog};
use std::alloc::{AllocError, Global};
use std::marker::Model;

/// A log with room for a number of entries, and its last ticket.
#[derive(Drop)]
pub struct Tickets {
    entries: Vec<BookEntry>,
    last: u64,
    room: usize,
}

impl Model for Tickets {
    ghost use Rattle.std.specs.Prelude.{◌≡◌, ◌≤◌, vec_capacity};
    ghost use Rattle.frame_book.specs.TicketLog.{Ledger};

    ghost Value = { Ledger };

    ghost use Rattle.frame_book.specs.BookStates.{last_ticket};

    ghost view = { λ t. record { log = t.entries.items; room = t.room } };

    ghost invariant = { λ t. (t.last ≡ last_ticket t.entries.items) × (t.room ≤ vec_capacity t.entries) };
}

impl Tickets {
    /// Returns an empty log with room for `room` entries. Returns an error only if memory runs out.
    pub fn new(alloc: Global, room: usize) -> Result<Tickets, AllocError>
        ensures { IfOk result (λ t. t ≡ record { log = []; room = room }) }
    {
        Ok(Tickets {
            entries: Vec::with_capacity(alloc, room)?,
            last: 0,
            room,
        })
    }

    /// Appends an event, with the first ticket after the last one and after `now`, and returns it.
    pub fn stamp(&mut self, now: u64, event: Event) -> u64
        requires room { length self.old.log < self.old.room }
        requires last { last_ticket self.old.log < 2 ^ 63 }
        requires now { now < 2 ^ 63 }
        ensures log { self.new ≡ record { log = with_events self.old.log now (event ∷ []); room = self.old.room } }
        ensures ticket { result ≡ 1 + max (last_ticket self.old.log) now }
    {
        let ticket = self.last.max(now) + 1;
        self.entries.push_reserved(BookEntry { ticket, event });
        self.last = ticket;
        ticket
    }

    /// Raises the ticket of the last entry to at least `least`.
    pub fn raise_last(&mut self, least: u64)
        requires { 0 < length self.old.log }
        ensures { self.new ≡ record { log = with_last_raised self.old.log least; room = self.old.room } }
    {
        let index = self.entries.len() - 1;
        let ticket = self.last.max(least);
        self.entries[index].ticket = ticket;
        self.last = ticket;
    }

    /// Returns the entries so far.
    pub fn entries(&self) -> &[BookEntry]
        ensures { result.now ≡ self.now.log }
    {
        self.entries.as_slice()
    }

    /// Returns the entries.
    pub fn into_log(self) -> BookLog
        ensures { result ≡ self.log }
    {
        ListOf::from_vec(self.entries)
    }
}
