//! The hall, and the bare seats of its workers.

ghost use Rattle.std.specs.Prelude.{◌≡◌, ◌<◌, ◌≤◌, ◌+◌, ◌++◌, ◌∷◌, [], ℕ, List, Some, IfOk, length, replicate, vec_capacity};
ghost use Rattle.frame_book.specs.NewBooks.{new_book};
ghost use Rattle.pipe_model.specs.Language.SyntaxTree.{tree_of};
ghost use Rattle.pipe_frame.specs.TokenCounts.{no_tokens};
ghost use Rattle.hall_calls.specs.Closing.{shard_in};
ghost use Rattle.atomic_table.specs.Table.{opening};
ghost use Rattle.hall_table.specs.HallRule.{IsHall, first_view, lock_count, width};
ghost use Rattle.hall_table.specs.Openings.{start_in};
ghost use Rattle.hall_calls.specs.NewShards.{IsNewShard, shard_slots};
ghost use Rattle.hall_shards.specs.ShardValues.{ShardValue};
ghost use Rattle.hall_table.specs.SeatViews.{constants_of};
ghost use Rattle.hall_table.specs.ShardParts.{HaveIdentities};

use atomic_table::{Seat, Table};
use frame_book::book::Book;
use hall_shards::shard::{SHARDS, Shard};
use hall_table::carrier::Carrier;
use hall_table::locks::{Locks, STRIDE};
use hall_table::opening::Opening;
use hall_table::slot::Slot;
use hall_table::view::View;
use om_shared::writer::OmWriter;
use order_2d::two_passes::TwoPasses;
use pipe_check::checked::Checked;
use pipe_model::access::Accesses;
use pipe_model::memory::NoMemory;
use std::alloc::Global;
use std::marker::Model;
use std::snapshot::Snapshot;

/// The book and the cells of a run, which workers share. Contracts see which hall it is, with its
/// program, input and throttling limit, and the accesses before the run.
#[derive(Drop)]
pub struct HallOf<M: Carrier> {
    /// The locks, with the book and the shards.
    pub locks: Locks<M>,
}

impl<M: Carrier> Model for HallOf<M> {
    ghost use Rattle.pipe_model.specs.contracts.tree.Expr as expr;
    ghost use Rattle.pipe_model.specs.contracts.tree.Stmt as stmt;
    ghost use Rattle.std.specs.Coded.{codes};
    ghost use Rattle.hall_calls.specs.HallNames.{hall_state};
    ghost use Rattle.hall_table.specs.WorkerSeats.{HallState};

    ghost Value = { HallState };

    ghost coded = { Prim.hlevel (codes, expr.the_row.coded, stmt.the_row.coded) };

    ghost view = { λ h. hall_state h.locks.table.shared.table_id h.locks.table.shared.key };
}

/// A worker's seat without its hall. Contracts see which hall it is of, the events of the book that it
/// has seen, and how many tokens its calls have given and taken back.
#[derive(Drop)]
pub struct HallKey<M: Carrier> {
    /// The seat on the table of the locks.
    pub seat: Seat<Slot<M>, View>,
}

impl<M: Carrier> Model for HallKey<M> {
    ghost use Rattle.pipe_model.specs.contracts.tree.Expr as expr;
    ghost use Rattle.pipe_model.specs.contracts.tree.Stmt as stmt;
    ghost use Rattle.std.specs.Coded.{codes};
    ghost use Rattle.hall_table.specs.WorkerSeats.{IsIdle, WorkerSeat};

    ghost Value = { WorkerSeat };

    ghost coded = { Prim.hlevel (codes, expr.the_row.coded, stmt.the_row.coded) };

    ghost view = { λ k. record {
      hall = record { table = k.seat.table_id; constants = k.seat.me.0.it.constants };
      seen =
          k.seat.me.0.it.seen;
      tokens = k.seat.me.0.it.tokens;
    } };

    ghost invariant = { λ k. IsIdle k.seat.me };
}

// How many locks there are: one for the book, and one for each shard.
const LOCKS: usize = 17;

// The words: the locks, which are free, and the words between them.
const FREE: [u64; STRIDE * LOCKS] = [0; STRIDE * LOCKS];

// Appends the shards of the program's cells, in the order of their numbers.
fn add_shards<M: Carrier>(
    alloc: Global,
    checked: &Checked,
    before: &Accesses,
    passes: &mut TwoPasses,
    slots: &mut Vec<Slot<M>>,
) -> Result<(), NoMemory>
    requires room { length slots.old.items + 16 ≤ vec_capacity slots.old }
    ensures shards { IfOk result (λ _. (xs : List ShardValue) × (slots.new.items ≡ slots.old.items ++ shard_slots xs) × (length xs ≡ 16)
        × ((k : ℕ) → k < 16 → IsNewShard before.now (tree_of checked.now) passes.old k (shard_in xs k))) }
{
    for number in 0..SHARDS {
        let shard = Shard::new(alloc, checked, number, before, passes.split()?)?;
        slots.push_reserved(Slot::Shard(shard));
    }
    Ok(())
}

// Returns the slot of the book, in a vector with room for the slots of all locks.
fn book_slots<M: Carrier>(alloc: Global, book: Book<M, OmWriter>) -> Result<Vec<Slot<M>>, NoMemory>
    ensures items { IfOk result (λ slots. slots.items ≡ Slot.Book book ∷ []) }
    ensures room { IfOk result (λ slots. vec_capacity slots ≡ lock_count) }
{
    match Vec::with_capacity(alloc, LOCKS) {
        Ok(mut slots) => {
            slots.push_reserved(Slot::Book(book));
            Ok(slots)
        }
        Err(_) => {
            drop(book);
            Err(NoMemory)
        }
    }
}

// Returns the slots of a new hall.
fn first_slots<M: Carrier>(
    alloc: Global,
    book: Book<M, OmWriter>,
    checked: &Checked,
    before: &Accesses,
    passes: &mut TwoPasses,
) -> Result<Vec<Slot<M>>, NoMemory>
    ensures { IfOk result (λ slots. (xs : List ShardValue) × (slots.items ≡ Slot.Book book ∷ shard_slots xs)
        × (length xs ≡ 16) × ((k : ℕ) → k < 16 → IsNewShard before.now (tree_of checked.now) passes.old k (shard_in xs k))) }
{
    let mut slots = book_slots(alloc, book)?;
    match add_shards(alloc, checked, before, passes, &mut slots) {
        Ok(()) => Ok(slots),
        Err(refused) => {
            drop(slots);
            Err(refused)
        }
    }
}

// Opens the table of a hall with these slots.
fn open_table<M: Carrier>(
    alloc: Global,
    slots: Vec<Slot<M>>,
    about: &Opening<M>,
) -> Result<(HallOf<M>, HallKey<M>), NoMemory>
    requires width { length slots.items ≡ lock_count }
    requires rule { IsHall (start_in about.now) (opening (replicate width 0) slots.items (first_view (start_in about.now))) }
    ensures constants { IfOk result (λ opened. opened.0.hall.constants ≡ Some (constants_of about.now.book.value)) }
    ensures before { IfOk result (λ opened. opened.0.before ≡ about.now.before.value) }
    ensures key { IfOk result (λ opened. opened.1.hall ≡ opened.0.hall) }
    ensures seen { IfOk result (λ opened. opened.1.seen ≡ []) }
    ensures tokens { IfOk result (λ opened. opened.1.tokens ≡ no_tokens) }
{
    match Table::new(alloc, &FREE, slots, about) {
        Ok((table, seat)) => Ok((
            HallOf {
                locks: Locks { table },
            },
            HallKey { seat },
        )),
        Err(refused) => {
            drop(refused);
            Err(NoMemory)
        }
    }
}

/// Opens a hall of a book without events, and returns it with the seat of its first worker. The cells
/// are those after the accesses `before`. The passes must be of the book's order lists, which must
/// have identities. Returns an error only if memory runs out.
pub fn hall_after<M: Carrier>(
    alloc: Global,
    book: Book<M, OmWriter>,
    checked: &Checked,
    before: &Accesses,
    mut passes: TwoPasses,
) -> Result<(HallOf<M>, HallKey<M>), NoMemory>
    requires new { book ≡ new_book book.program book.input book.limit book.lists }
    requires program { tree_of book.program ≡ tree_of checked.now }
    requires lists { (passes.down ≡ book.lists.down) × (passes.right ≡ book.lists.right) }
    requires identities { HaveIdentities passes }
    ensures constants { IfOk result (λ opened. opened.0.hall.constants ≡ Some (constants_of book)) }
    ensures before { IfOk result (λ opened. opened.0.before ≡ before.now) }
    ensures key { IfOk result (λ opened. opened.1.hall ≡ opened.0.hall) }
    ensures seen { IfOk result (λ opened. opened.1.seen ≡ []) }
    ensures tokens { IfOk result (λ opened. opened.1.tokens ≡ no_tokens) }
{
    let opening = Opening {
        book: Snapshot::of(&book),
        before: Snapshot::of(before),
    };
    let slots = first_slots(alloc, book, checked, before, &mut passes);
    drop(passes);
    match slots {
        Ok(slots) => open_table(alloc, slots, &opening),
        Err(refused) => Err(refused),
    }
}

/// Opens a hall whose cells have their declared values, as `hall_after` with no accesses.
pub fn hall<M: Carrier>(
    alloc: Global,
    book: Book<M, OmWriter>,
    checked: &Checked,
    passes: TwoPasses,
) -> Result<(HallOf<M>, HallKey<M>), NoMemory>
    requires new { book ≡ new_book book.program book.input book.limit book.lists }
    requires program { tree_of book.program ≡ tree_of checked.now }
    requires lists { (passes.down ≡ book.lists.down) × (passes.right ≡ book.lists.right) }
    requires identities { HaveIdentities passes }
    ensures constants { IfOk result (λ opened. opened.0.hall.constants ≡ Some (constants_of book)) }
    ensures before { IfOk result (λ opened. opened.0.before ≡ []) }
    ensures key { IfOk result (λ opened. opened.1.hall ≡ opened.0.hall) }
    ensures seen { IfOk result (λ opened. opened.1.seen ≡ []) }
    ensures tokens { IfOk result (λ opened. opened.1.tokens ≡ no_tokens) }
{
    hall_after(alloc, book, checked, &Accesses::new(alloc), passes)
}
