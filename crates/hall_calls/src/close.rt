//! The end of a run: the book and the shards are taken out of their locks.

ghost use Rattle.std.specs.Prelude.{◌≡◌, ◌<◌, ◌≤◌, ◌+◌, ◌^◌, [], ℕ, List, Some, length, set, true, false, IfOk, vec_capacity};
ghost use Rattle.pipe_model.specs.Runs.RunLogs.{state_after};
ghost use Rattle.frame_book.specs.BookStates.{BookState, state_of};
ghost use Rattle.hall_calls.specs.Closing.{EndedHall, StopIsLast, raised, shard_in};
ghost use Rattle.hall_shards.specs.Learning.{HasLearned};
ghost use Rattle.hall_table.specs.HallRule.{view_of};
ghost use Rattle.hall_table.specs.Openings.{start_in};
ghost use Rattle.hall_shards.specs.ShardValues.{ShardValue};
ghost use Rattle.hall_table.specs.SeatViews.{constants_of, start_of};
ghost use Rattle.hall_table.specs.Steps.{ClosedHall, HoldsAll};
ghost use Rattle.hall_table.specs.WorkerSeats.{IsSameHall};

use crate::hall::{HallKey, HallOf};
use atomic_table::Seat;
use frame_book::book::Book;
use hall_shards::shard::{SHARDS, Shard};
use hall_table::carrier::Carrier;
use hall_table::locks::Locks;
use hall_table::rule::HallTable;
use hall_table::slot::Slot;
use hall_table::view::View;
use om_shared::writer::OmWriter;
use pipe_model::memory::NoMemory;
use std::alloc::Global;
use std::sync::Wait;

/// What is left of a hall.
#[derive(Drop)]
pub struct HallEnd<M: Carrier> {
    /// The book.
    pub book: Book<M, OmWriter>,
    /// The shards, by their numbers.
    pub shards: Vec<Shard>,
}

// Takes the book and all shards.
fn take_all<R: Wait, M: Carrier>(
    rt: &R,
    hall: &Locks<M>,
    seat: &mut Seat<Slot<M>, View>,
    shards: &mut Vec<Shard>,
) -> Book<M, OmWriter>
    requires own { seat.old.table_id ≡ hall.now.table.shared.table_id }
    requires empty { shards.old.items ≡ [] }
    requires room { 16 ≤ vec_capacity shards.old }
    ensures own { seat.new.table_id ≡ hall.now.table.shared.table_id }
    ensures len { length shards.new.items ≡ 16 }
    ensures holds { HoldsAll seat.new.me.0.it.held result (shard_in shards.new.items) }
    ensures seen { seat.new.me.0.it.seen ≡ seat.old.me.0.it.seen }
{
    hall.take_book(rt, seat);
    let book = hall.book_out(seat);
    for k in 0..SHARDS {
        hall.take_shard(rt, seat, k);
        shards.push_reserved(hall.shard_out(seat, k));
    }
    book
}

// Frees the table. Who has taken everything has the book and the shards of the rule.
fn free_table<M: Carrier>(table: HallTable<M>, seat: Seat<Slot<M>, View>)
    requires own { seat.table_id ≡ table.shared.table_id }
    ensures closed { (b : BookState) (shard : ℕ → ShardValue) → HoldsAll seat.me.0.it.held b shard
        → ClosedHall (start_in table.shared.key) seat.me.0.it.seen b shard }
{
    let mut closed = table.close_with(seat);
    let mut i = 0;
    while i < closed.slot_count() {
        drop(closed.take(i));
        i += 1;
    }
    closed.free();
}

// The passes of one of the shards see the book's lists to their ends.
fn learn_at<M: Carrier>(shards: &mut Vec<Shard>, k: usize, book: &mut Book<M, OmWriter>)
    requires there { k < length shards.old.items }
    requires lists { ((shard_in shards.old.items k).lists.down ≡ book.old.lists.down)
        × ((shard_in shards.old.items k).lists.right ≡ book.old.lists.right) }
    ensures learned { (y : ShardValue) × (shards.new.items ≡ set shards.old.items k y) × HasLearned book.old
        (shard_in shards.old.items k) y }
    ensures book { book.new ≡ book.old }
{
    shards[k].learn(book);
}

// The passes of all shards see the book's lists to their ends.
fn learn_all<M: Carrier>(shards: &mut Vec<Shard>, book: &mut Book<M, OmWriter>)
    requires len { length shards.old.items ≡ 16 }
    requires lists { (k : ℕ) → k < 16 → ((shard_in shards.old.items k).lists.down ≡ book.old.lists.down)
        × ((shard_in shards.old.items k).lists.right ≡ book.old.lists.right) }
    ensures len { length shards.new.items ≡ 16 }
    ensures learned { (k : ℕ) → k < 16 → HasLearned book.old (shard_in shards.old.items k) (shard_in shards.new.items k) }
    ensures book { book.new ≡ book.old }
{
    for k in 0..SHARDS {
        learn_at(shards, k as usize, book);
    }
}

// A ticket above the tickets of all shards.
fn ticket_above(shards: &[Shard]) -> u64
    requires bound { (k : ℕ) → k < length shards.now → (shard_in shards.now k).last ≤ 2 ^ 62 }
    ensures above { (k : ℕ) → k < length shards.now → (shard_in shards.now k).last < result }
    ensures bound { result ≤ 2 ^ 62 + 1 }
{
    let mut least = 0;
    for shard in shards {
        least = shard.last().max(least);
    }
    least + 1
}

// Raises the ticket of `Stop` in a stopped run.
fn raise_stop<M: Carrier>(book: &mut Book<M, OmWriter>, shards: &[Shard])
    requires bound { (k : ℕ) → k < length shards.now → (shard_in shards.now k).last ≤ 2 ^ 62 }
    ensures going { (state_of book.old).stopped ≡ false → book.new ≡ book.old }
    ensures stopped { (state_of book.old).stopped ≡ true → (least : ℕ) × (book.new ≡ raised book.old least)
        × ((k : ℕ) → k < length shards.now → (shard_in shards.now k).last < least) }
{
    if book.is_stopped() {
        book.raise_stop(ticket_above(shards));
    }
}

/// Takes the book and the shards out of a hall of which the key is. The passes of each shard have
/// then seen the order lists to their ends, and the ticket of `Stop`, if the run was stopped, is above
/// those of all accesses. The book's events begin with those that the key had seen. In the log of a
/// shard tickets rise, each instance has started and has the entries of its trace that are to the shard's
/// cells, in order, and each read has the value before it. The cells are those after this log, and each
/// history is that of the accesses to its cell, by the book's two orders. It waits until nobody holds one
/// of them. Returns an error only if memory runs out; then the hall is gone.
pub fn close<R: Wait, M: Carrier>(
    rt: &R,
    alloc: Global,
    hall: HallOf<M>,
    key: HallKey<M>,
) -> Result<HallEnd<M>, NoMemory>
    requires same_hall { IsSameHall key.hall hall.hall }
    ensures len { IfOk result (λ end. length end.shards.items ≡ 16) }
    ensures constants { IfOk result (λ end. hall.hall.constants ≡ Some (constants_of end.book)) }
    ensures ended { IfOk result (λ end. EndedHall (start_of end.book hall.before) key.seen end.book (shard_in end.shards.items)) }
    ensures stop { IfOk result (λ end. StopIsLast end.book (shard_in end.shards.items)) }
    ensures stopped { IfOk result (λ end. (state_after key.seen).stopped ≡ true → (state_of end.book).stopped ≡ true) }
{
    let mut shards = Vec::with_capacity(alloc, SHARDS as usize)?;
    let HallOf { locks } = hall;
    let HallKey { mut seat } = key;
    let mut book = take_all(rt, &locks, &mut seat, &mut shards);
    let Locks { table } = locks;
    free_table(table, seat);
    learn_all(&mut shards, &mut book);
    raise_stop(&mut book, shards.as_slice());
    Ok(HallEnd { book, shards })
}
