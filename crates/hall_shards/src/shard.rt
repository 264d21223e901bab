//! Shards of the cells.

ghost use Rattle.std.specs.Prelude.{◌≡◌, ◌++◌, ◌∷◌, [], ◌+◌, ◌≤◌, ◌<◌, ◌^◌, ◌/◌, List, length, max, IfSome, IfNone, Some, false};
ghost use Rattle.std.specs.Prelude.{IsTrue, vec_capacity};
ghost use Rattle.hall_shards.specs.Accesses.{CanBegin, IsAsked, IsMadeNow, IsNoted, IsNotedStep};
ghost use Rattle.hall_shards.specs.Learning.{HasLearned};
ghost use Rattle.cell_store.specs.ShardState.{IsOfShard, IsStateAfter};
ghost use Rattle.pipe_model.specs.Pipelines.Store.{HasReply, InitialStore};
ghost use Rattle.pipe_model.specs.declared.access.Access.{Access as PlainAccess};
ghost use Rattle.pipe_frame.specs.Ties.{AreElementsOf};
ghost use Rattle.hall_shards.specs.ShardValues.{down_list, right_list, history_at};
ghost use Rattle.access_history.specs.KeptInstances.{KeepsAmong, KeptAreIn};
ghost use Rattle.access_history.specs.KnownOrder.{may_ask};
ghost use Rattle.pipe_model.specs.Orders.GrowingLists.{AreIn, KeepsOrder};

use access_history::history::{History, MarkedNode};
use cell_store::cells::Cells;
use cell_store::law::other_accesses_change_nothing;
use cell_store::shard::HALL_SHARDS;
use frame_book::book::Book;
use frame_book::payload::Payload;
use om_shared::writer::OmWriter;
use order_2d::two_passes::{Asking, TwoPasses};
use pipe_frame::trace::Trace;
use pipe_model::access::{Access, AccessKind, CellId};
use pipe_model::list::ListOf;
use pipe_model::node::NodeId;
use pipe_model::ticket::{Entry, ShardEntry, ShardLog};
use std::marker::Model;
use std::sync::Wait;

/// How many shards a hall has. Cell `c` is in shard `c % 16`.
pub const SHARDS: u32 = HALL_SHARDS;

// A log with room for this number of entries, 64 KB, grows by at least `LONG_LOG` entries, 8 MB. When a
// larger block of memory grows, the system moves its pages, and for that all threads have to wait. What
// is not written to takes no memory.
const SHORT_LOG: usize = 2048;

const LONG_LOG: usize = 262144;

// The greatest ticket of an access.
const LAST_TICKET: u64 = 4611686018427387904;

/// A part of the cells, with the log of the accesses to them and the history of each. Contracts see
/// its parts, and the order lists as far as its passes have seen them.
#[derive(Drop)]
pub struct Shard {
    // What each access changes comes first, close together.
    pub(crate) last: u64,
    pub(crate) log: Vec<ShardEntry>,
    pub(crate) histories: Vec<History>,
    pub(crate) passes: TwoPasses,
    pub(crate) cells: Cells,
    pub(crate) number: u32,
}

impl Model for Shard {
    ghost use Rattle.std.specs.Prelude.{◌≤◌, ◌+◌, ◌*◌, ◌^◌, length};
    ghost use Rattle.hall_shards.specs.ShardValues.{ShardValue};

    ghost Value = { ShardValue };

    ghost view = { λ s. record {
      number = s.number;
      cells = s.cells;
      histories = s.histories.items;
      log = s.log.items;
      last =
          s.last;
      lists = s.passes;
    } };

    // The number of the cell of each history is a `u32`.
    ghost invariant = { λ s. s.number + 16 * length s.histories.items ≤ 2 ^ 32 };
}

// Makes room in a log for one more entry. Returns `false` only if memory runs out.
fn make_room(log: &mut Vec<ShardEntry>) -> bool
    ensures items { log.new.items ≡ log.old.items }
    ensures room { IsTrue result → length log.new.items < vec_capacity log.new }
{
    if log.len() < log.capacity() {
        return true;
    }
    if log.len() >= SHORT_LOG && log.reserve(LONG_LOG).is_ok() {
        return true;
    }
    log.reserve(1).is_ok()
}

// The access that is asked for.
fn asked(cells: &Cells, cell: CellId, write: Option<i64>) -> Access
    requires there { cell.0 < cells.now.shard.cells }
    requires own { IsOfShard cells.now.shard cell.0 }
    ensures asked { IsAsked cell.0 write result }
    ensures cell { result.cell.0 ≡ cell.0 }
    ensures reply { (store : InitialStore) (before : List PlainAccess) → IsStateAfter store before cells.now
        → HasReply store before result }
{
    match write {
        Some(value) => Access {
            cell,
            kind: AccessKind::Write,
            value,
        },
        None => Access {
            cell,
            kind: AccessKind::Read,
            value: cells.read(cell),
        },
    }
}

// Makes the access in the cells.
fn apply(cells: &mut Cells, access: Access)
    requires there { access.cell.0 < cells.old.shard.cells }
    requires own { IsOfShard cells.old.shard access.cell.0 }
    requires reply { (store : InitialStore) (before : List PlainAccess) → IsStateAfter store before cells.old
        → HasReply store before access }
    ensures state { (store : InitialStore) (before : List PlainAccess) → IsStateAfter store before cells.old
        → IsStateAfter store (before ++ access ∷ []) cells.new }
    ensures shard { cells.new.shard ≡ cells.old.shard }
{
    match access.kind {
        AccessKind::Write => cells.write(access.cell, access.value),
        AccessKind::Read => other_accesses_change_nothing(),
    }
}

// Notes an access in a history. The lists are not asked about kept instances above `who`, nor about those
// of the left column at an index of at most `joined`; without `asks`, they are asked nothing.
fn note_at<R: Wait>(
    rt: &R,
    history: &mut History,
    passes: &mut TwoPasses,
    who: MarkedNode,
    joined: u32,
    kind: AccessKind,
    asks: bool,
)
    requires kept { KeptAreIn (down_list passes.old) (right_list passes.old) history.old }
    requires new { AreIn (down_list passes.old) (right_list passes.old) who.marks }
    requires asks { asks ≡ false → may_ask (Some joined) who.node history.old ≡ false }
    ensures down { KeepsOrder (down_list passes.old) (down_list passes.new) }
    ensures right { KeepsOrder (right_list passes.old) (right_list passes.new) }
    ensures each { KeepsAmong history.old who history.new }
    ensures step { IsNotedStep who joined kind passes.old history.old history.new }
    ensures identities { (passes.new.down ≡ passes.old.down) × (passes.new.right ≡ passes.old.right) }
{
    if asks {
        history.note_joined(who, Some(joined), kind, &mut Asking { rt, passes });
    } else {
        history.note_known(who, Some(joined), kind);
    }
}

// Notes an access in the history of its cell.
fn note_in<R: Wait>(
    rt: &R,
    histories: &mut Vec<History>,
    passes: &mut TwoPasses,
    slot: usize,
    who: MarkedNode,
    joined: u32,
    kind: AccessKind,
    asks: bool,
)
    requires there { slot < length histories.old.items }
    requires kept { KeptAreIn (down_list passes.old) (right_list passes.old) (history_at histories.old.items slot) }
    requires new { AreIn (down_list passes.old) (right_list passes.old) who.marks }
    requires asks { asks ≡ false → may_ask (Some joined) who.node (history_at histories.old.items slot) ≡ false }
    ensures noted { IsNoted who joined kind slot passes.old passes.new histories.old.items histories.new.items }
{
    note_at(rt, &mut histories[slot], passes, who, joined, kind, asks);
}

impl Shard {
    /// Returns whether an access to a cell may have to ask the order lists.
    pub fn may_ask(&self, who: NodeId, joined: u32, cell: CellId) -> bool
        requires ready { CanBegin self.now cell.0 }
        ensures { result ≡ may_ask (Some joined) who (history_at self.now.histories (cell.0 / 16)) }
    {
        let slot = (cell.0 / SHARDS) as usize;
        self.histories[slot].may_ask(who, Some(joined))
    }

    /// Returns whether the order lists had labels a moment ago. Questions wait until they have.
    pub fn has_labels(&self) -> bool {
        self.passes.are_settled()
    }

    /// Makes an access, unless memory runs out or the ticket would be above 2^62; then nothing is done.
    /// `asks` may be false only if `may_ask` is.
    pub fn access<R: Wait>(
        &mut self,
        rt: &R,
        who: MarkedNode,
        joined: u32,
        now: u64,
        cell: CellId,
        write: Option<i64>,
        asks: bool,
        passes: &mut TwoPasses,
        trace: &mut Trace,
    ) -> Option<Entry>
        requires ready { CanBegin self.old cell.0 }
        requires lists { (self.old.lists.down ≡ passes.old.down) × (self.old.lists.right ≡ passes.old.right) }
        requires known { AreElementsOf passes.old.down_log passes.old.right_log who.marks }
        requires asks { asks ≡ false → may_ask (Some joined) who.node (history_at self.old.histories (cell.0 / 16)) ≡ false }
        ensures none { IfNone result ((self.new ≡ self.old) × (trace.new ≡ trace.old)) }
        ensures made { IfSome result (IsMadeNow who joined now cell.0 write self.old self.new trace.old trace.new) }
        ensures passes { passes.new ≡ passes.old }
    {
        let most = self.last.max(now);
        if most >= LAST_TICKET {
            return None;
        }
        if !make_room(&mut self.log) {
            return None;
        }
        let access = asked(&self.cells, cell, write);
        let ticket = most + 1;
        let entry = Entry { ticket, access };
        self.passes.meet(passes);
        apply(&mut self.cells, access);
        note_in(
            rt,
            &mut self.histories,
            &mut self.passes,
            (cell.0 / SHARDS) as usize,
            who,
            joined,
            access.kind,
            asks,
        );
        self.log.push_reserved(ShardEntry {
            ticket,
            node: who.node,
            access,
        });
        self.last = ticket;
        trace.note(&entry);
        Some(entry)
    }

    /// Has then seen the lists of a book to their ends.
    pub fn learn<M: Payload<OmWriter>>(&mut self, book: &mut Book<M, OmWriter>)
        requires lists { (self.old.lists.down ≡ book.old.lists.down) × (self.old.lists.right ≡ book.old.lists.right) }
        ensures learned { HasLearned book.old self.old self.new }
        ensures book { book.new ≡ book.old }
    {
        book.confirm(&mut self.passes);
    }

    /// Returns the ticket of its last access, or 0.
    pub fn last(&self) -> u64
        ensures { result ≡ self.now.last }
    {
        self.last
    }

    /// Returns the values of the cells.
    pub fn cells(&self) -> &Cells
        ensures { result.now ≡ self.now.cells }
    {
        &self.cells
    }

    /// Returns the log.
    pub fn into_log(self) -> ShardLog
        ensures { result ≡ self.log }
    {
        ListOf::from_vec(self.log)
    }
}
