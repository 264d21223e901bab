//! Accesses of running instances, by their seats.

ghost use Rattle.std.specs.Prelude.{◌≡◌, ◌<◌, ◌+◌, ◌%◌, ◌/◌, ◌∷◌, [], length, Option, Some, None, true, false, IfSome};
ghost use Rattle.access_history.specs.KnownOrder.{may_ask};
ghost use Rattle.pipe_model.specs.Language.Programs.{store_of};
ghost use Rattle.pipe_frame.specs.Ties.{AreElementsOf, AreSeenLists};
ghost use Rattle.pipe_frame.specs.TokenCounts.{Exchanges};
ghost use Rattle.pipe_frame.specs.TokenFields.{TokenFields, fields_of};
ghost use Rattle.pipe_model.specs.Races.Columns.{at};
ghost use Rattle.std.specs.Prelude.{List, ℕ, ℤ};
ghost use Rattle.pipe_model.specs.Language.SyntaxTree.{SyntaxTree};
ghost use Rattle.pipe_model.specs.declared.ticket.Entry.{Entry};
ghost use Rattle.hall_table.specs.HallRule.{view_of};
ghost use Rattle.pipe_frame.specs.SeatedTokens.{IsSeated, seated_entries, seated_replies};
ghost use Rattle.hall_table.specs.WorkerSeats.{IsIdle, StaysIdle, hall_of, name_of};
ghost use Rattle.hall_shards.specs.Accesses.{IsAsked};
ghost use Rattle.hall_shards.specs.ShardValues.{history_at};
ghost use Rattle.hall_table.specs.SeatAccesses.{RunsAs, TraceAfter, now_after, ran, tie_after};
ghost use Rattle.hall_table.specs.SeatViews.{HallConstants, TheShard};
ghost use Rattle.hall_shards.specs.ShardValues.{ShardValue};
ghost use Rattle.hall_table.specs.Steps.{ShardSnapshot, having};
ghost use Rattle.pipe_frame.specs.HallViews.{AccessReturns, BeginsWith, IsSameInstance, OneMoreEntry};
ghost use Rattle.pipe_model.specs.Runs.RunLogs.{state_after};

use crate::worker::{settle_beside, stop_at, take_seat_of};
use access_history::history::MarkedNode;
use atomic_table::Seat;
use hall_shards::shard::SHARDS;
use hall_table::carrier::Carrier;
use hall_table::locks::Locks;
use hall_table::run_seat::RunSeat;
use hall_table::slot::Slot;
use hall_table::view::View;
use order_2d::two_passes::TwoPasses;
use pipe_frame::results::Reply;
use pipe_frame::token::FrameToken;
use pipe_frame::trace::Trace;
use pipe_model::access::{Access, AccessKind, CellId};
use pipe_model::node::NodeId;
use pipe_model::ticket::Entry;
use std::sync::Wait;

// Takes the shard of a cell, for an access of the instance of a seat. Returns whether that access may
// have to ask the order lists. If it may, and they have no labels yet, the shard is given back, they get
// their labels, and it is taken again.
fn take_shard_of<R: Wait, M: Carrier>(
    rt: &R,
    hall: &Locks<M>,
    run: &mut Seat<Slot<M>, View>,
    who: NodeId,
    joined: u32,
    cell: CellId,
) -> bool
    requires own { run.old.table_id ≡ hall.now.table.shared.table_id }
    requires runs { (f : TokenFields) × RunsAs run.old.me f }
    requires cell { cell.0 < length (store_of (hall_of run.old.table_id run.old.me).tree).values }
    ensures own { (run.new.table_id ≡ run.old.table_id) × (run.new.id ≡ run.old.id) }
    ensures taken { (x : ShardValue) × (run.new.me ≡ having run.old.me (1 + cell.0 % 16) (TheShard x))
        × ShardSnapshot run.old.me.0.it (1 + cell.0 % 16) x
        × (result ≡ false → may_ask (Some joined) who (history_at x.histories (cell.0 / 16)) ≡ false) }
{
    let number = cell.0 % SHARDS;
    hall.take_shard(rt, run, number);
    let slot = run.slot_mut(&hall.table.shared, 1 + number as usize);
    let lent = slot.shard_mut();
    let asks = lent.may_ask(who, joined, cell);
    if !asks {
        return false;
    }
    if lent.has_labels() {
        return true;
    }
    hall.return_shard(run, number);
    settle_beside(rt, hall, run);
    hall.take_shard(rt, run, number);
    true
}

// Makes an access in the shard of its cell, for the instance of a seat, unless memory runs out.
fn access_by<R: Wait, M: Carrier>(
    rt: &R,
    hall: &Locks<M>,
    run: &mut Seat<Slot<M>, View>,
    who: MarkedNode,
    joined: u32,
    now: u64,
    passes: &mut TwoPasses,
    trace: &mut Trace,
    cell: CellId,
    write: Option<i64>,
) -> Option<Entry>
    requires own { run.old.table_id ≡ hall.now.table.shared.table_id }
    requires runs { (f : TokenFields) × RunsAs run.old.me f × (who ≡ record { node = at f.iteration f.index; marks = f.marks })
        × (now ≡ f.now) × (joined ≡ f.joined) }
    requires cell { cell.0 < length (store_of (hall_of run.old.table_id run.old.me).tree).values }
    requires lists { AreSeenLists (Some passes.old) (hall_of run.old.table_id run.old.me).lists.down
        (hall_of run.old.table_id run.old.me).lists.right }
    requires known { AreElementsOf passes.old.down_log passes.old.right_log who.marks }
    ensures own { (run.new.table_id ≡ run.old.table_id) × (run.new.id ≡ run.old.id) }
    ensures ran { run.new.me ≡ (view_of (ran run.old.me.0.it result), []) }
    ensures trace { TraceAfter cell.0 write trace.old trace.new result }
    ensures passes { passes.new ≡ passes.old }
{
    let number = cell.0 % SHARDS;
    let asks = take_shard_of(rt, hall, run, who.node, joined, cell);
    let slot = run.slot_mut(&hall.table.shared, 1 + number as usize);
    let lent = slot.shard_mut();
    let done = lent.access(rt, who, joined, now, cell, write, asks, passes, trace);
    hall.return_shard(run, number);
    done
}

// Makes an access for the instance of a token, whose seat is out of its payload.
fn access_for<R: Wait, M: Carrier>(
    rt: &R,
    hall: &Locks<M>,
    run: &mut Seat<Slot<M>, View>,
    token: &mut FrameToken<M>,
    trace: &mut Trace,
    cell: CellId,
    write: Option<i64>,
) -> Option<Entry>
    requires own { run.old.table_id ≡ hall.now.table.shared.table_id }
    requires runs { RunsAs run.old.me (fields_of token.old) }
    requires cell { cell.0 < length (store_of (hall_of run.old.table_id run.old.me).tree).values }
    requires lists { AreSeenLists (Some (M.lists token.old.payload)) (hall_of run.old.table_id run.old.me).lists.down
        (hall_of run.old.table_id run.old.me).lists.right }
    requires known { AreElementsOf (M.lists token.old.payload).down_log (M.lists token.old.payload).right_log token.old.marks }
    ensures own { (run.new.table_id ≡ run.old.table_id) × (run.new.id ≡ run.old.id) }
    ensures ran { run.new.me ≡ (view_of (ran run.old.me.0.it result), []) }
    ensures trace { TraceAfter cell.0 write trace.old trace.new result }
    ensures token { token.new ≡ record token.old { now = now_after token.old.now result } }
{
    let who = MarkedNode {
        node: NodeId {
            iteration: token.iteration,
            index: token.index,
        },
        marks: token.marks,
    };
    let joined = token.joined;
    let now = token.now;
    let done = access_by(
        rt,
        hall,
        run,
        who,
        joined,
        now,
        token.payload.passes(),
        trace,
        cell,
        write,
    );
    if let Some(entry) = done {
        token.now = entry.ticket;
    }
    done
}

// Makes an access for the instance of a token.
fn access_of<R: Wait, M: Carrier>(
    rt: &R,
    hall: &Locks<M>,
    token: &mut FrameToken<M>,
    trace: &mut Trace,
    cell: CellId,
    write: Option<i64>,
) -> Option<Entry>
    requires out { (a : HallConstants) × IsSeated (name_of hall.now.table.shared.table_id (Some a)) (fields_of token.old)
        (M.tie token.old.payload) × (cell.0 < length (store_of (name_of hall.now.table.shared.table_id (Some a)).tree).values) }
    ensures trace { TraceAfter cell.0 write trace.old trace.new result }
    ensures fields { fields_of token.new ≡ record (fields_of token.old) { now = now_after token.old.now result } }
    ensures whole { (tree : SyntaxTree) → M.whole tree token.old.payload → M.whole tree token.new.payload }
    ensures ready { (tree : SyntaxTree) (input : List ℤ) (i : ℕ) (before : List (List ℤ)) → M.ready_at tree input token.old.payload i
        before → M.ready_at tree input token.new.payload i before }
    ensures tie { M.tie token.new.payload ≡ tie_after (M.tie token.old.payload) result }
{
    let RunSeat { badge } = take_seat_of(&mut token.payload);
    let mut run = badge.into_seat::<Slot<M>>();
    let done = access_for(rt, hall, &mut run, token, trace, cell, write);
    token.payload.put_seat(RunSeat {
        badge: run.into_badge(),
    });
    done
}

// What an access returns.
fn reply_of(access: Access, write: Option<i64>, cell: CellId) -> Reply
    requires asked { IsAsked cell.0 write access }
    ensures returns { (old new : List Entry) → OneMoreEntry old new access → AccessReturns cell.0 write old new result }
    ensures goes_on { result ≡ Reply.Stopped → ⊥ }
{
    match write {
        Some(_) => Reply::Done,
        None => Reply::Value(access.value),
    }
}

/// Reads a cell, or writes a value to it, for the instance of a token.
pub fn access_at<R: Wait, M: Carrier>(
    rt: &R,
    hall: &Locks<M>,
    seat: &mut Seat<Slot<M>, View>,
    token: &mut FrameToken<M>,
    trace: &mut Trace,
    cell: CellId,
    write: Option<i64>,
) -> Reply
    requires own { seat.old.table_id ≡ hall.now.table.shared.table_id }
    requires idle { IsIdle seat.old.me }
    requires out { IsSeated (hall_of seat.old.table_id seat.old.me) (fields_of token.old) (M.tie token.old.payload) }
    requires trace { trace.old ≡ seated_entries (M.tie token.old.payload) }
    requires cell { cell.0 < length (store_of (hall_of seat.old.table_id seat.old.me).tree).values }
    ensures own { seat.new.table_id ≡ seat.old.table_id }
    ensures idle { StaysIdle seat.old.me seat.new.me }
    ensures out { IsSeated (hall_of seat.old.table_id seat.old.me) (fields_of token.new) (M.tie token.new.payload) }
    ensures instance { IsSameInstance (fields_of token.old) (fields_of token.new) (M.tie token.old.payload) (M.tie token.new.payload) }
    ensures whole { (tree : SyntaxTree) → M.whole tree token.old.payload → M.whole tree token.new.payload }
    ensures ready { (tree : SyntaxTree) (input : List ℤ) (i : ℕ) (before : List (List ℤ)) → M.ready_at tree input token.old.payload i
        before → M.ready_at tree input token.new.payload i before }
    ensures replies { seated_replies (M.tie token.new.payload) ≡ seated_replies (M.tie token.old.payload) }
    ensures access { AccessReturns cell.0 write trace.old trace.new result }
    ensures trace { trace.new ≡ seated_entries (M.tie token.new.payload) }
    ensures stopped { result ≡ Reply.Stopped → (state_after seat.new.me.0.it.seen).stopped ≡ true }
    ensures seen { BeginsWith seat.new.me.0.it.seen seat.old.me.0.it.seen }
    ensures tokens { Exchanges 0 0 seat.old.me.0.it.tokens seat.new.me.0.it.tokens }
    ensures unseen { (result ≡ Reply.Stopped → ⊥) → seat.new.me.0.it.seen ≡ seat.old.me.0.it.seen }
{
    match access_of(rt, hall, token, trace, cell, write) {
        Some(entry) => reply_of(entry.access, write, cell),
        None => {
            stop_at(rt, hall, seat);
            Reply::Stopped
        }
    }
}
