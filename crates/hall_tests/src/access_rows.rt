//! Accesses of the first instance of a program.

ghost use Rattle.std.specs.Prelude.{◌≡◌};
ghost use Rattle.hall_tests.specs.GivenTokens.{IsGivenIn, IsOutWith, token_tie};
ghost use Rattle.hall_tests.specs.PreparedPrograms.{IsPrepared};
ghost use Rattle.pipe_frame.specs.TokenFields.{fields_of};
ghost use Rattle.hall_table.specs.WorkerSeats.{hall_name};
ghost use Rattle.pipe_model.specs.Language.SyntaxTree.{tree_of};
ghost use Rattle.pipe_worker.specs.Machines.{cells_of};

use crate::closing::close_with_tickets;
use crate::opening::open;
use crate::sources::{PREFIX_SUMS, Prepared, prepare};
use pipe_frame::hall::Hall;
use pipe_frame::results::{Begun, Reply};
use pipe_frame::token::FrameToken;
use pipe_frame::trace::Trace;
use pipe_hall::seat::HallSeat;
use pipe_model::access::{Access, AccessKind, Accesses, CellId};
use program_hall::carried::{Carried, RunCode};
use std::alloc::Global;
use std::marker::Brand;
use std::sync::Wait;

// A cell, the value to be written to it, and the reply; without a value the cell is read.
type Asked = (u32, Option<i64>, Reply);

// A shard, and the tickets of the accesses to its cells.
type Tickets = (usize, &'static [u64]);

// A source, whether 5 was written to cell 2 before, the accesses, and tickets.
type Row = (&'static str, bool, &'static [Asked], &'static [Tickets]);

const ONE_CELL: &str =
    "limits iterations 1, stages 1, steps 10, emits 0; cell a = 7; pipe_while (0) { }";

const THIRTY_CELLS: &str =
    "limits iterations 1, stages 1, steps 10, emits 0; cell a[30] = 0; pipe_while (0) { }";

// The last cell is 4097.
const MANY_CELLS: &str =
    "limits iterations 1, stages 1, steps 10, emits 0; cell a[4096] = 3; pipe_while (0) { }";

const READ_AND_WRITTEN: [Asked; 2] = [(2, None, Reply::Value(0)), (2, Some(1), Reply::Done)];

const AFTER_A_WRITE: [Asked; 2] = [(2, None, Reply::Value(5)), (3, None, Reply::Value(0))];

// Cells 15 and 31 are in shard 15, 16 is in shard 0, and 17 in shard 1.
const OF_SEVERAL_SHARDS: [Asked; 8] = [
    (15, Some(115), Reply::Done),
    (16, Some(116), Reply::Done),
    (17, Some(117), Reply::Done),
    (31, Some(131), Reply::Done),
    (15, None, Reply::Value(115)),
    (16, None, Reply::Value(116)),
    (17, None, Reply::Value(117)),
    (31, None, Reply::Value(131)),
];

const TICKETS_OF_SEVERAL: [Tickets; 3] = [(15, &[2, 5, 6, 9]), (0, &[3, 7]), (1, &[4, 8])];

const OF_ONE_CELL: [Asked; 3] = [
    (2, None, Reply::Value(7)),
    (2, Some(9), Reply::Done),
    (2, None, Reply::Value(9)),
];

const OF_THE_LAST_CELL: [Asked; 3] = [
    (4097, None, Reply::Value(3)),
    (4097, Some(9), Reply::Done),
    (4097, None, Reply::Value(9)),
];

// A cell that is read and written: the accesses have the two tickets after the ticket of the beginning. A
// hall that begins after an earlier access. Cells of several shards, which are read back. Programs of one
// cell, and of 4,096.
static ROWS: [Row; 5] = [
    (PREFIX_SUMS, false, &READ_AND_WRITTEN, &[(2, &[2, 3])]),
    (PREFIX_SUMS, true, &AFTER_A_WRITE, &[]),
    (THIRTY_CELLS, false, &OF_SEVERAL_SHARDS, &TICKETS_OF_SEVERAL),
    (ONE_CELL, false, &OF_ONE_CELL, &[]),
    (MANY_CELLS, false, &OF_THE_LAST_CELL, &[]),
];

// Makes an access. Returns whether there is the cell, and this is the reply.
fn has_reply<'a, R: Wait, B: RunCode>(
    rt: &R,
    cells: u32,
    seat: &mut HallSeat<'a, Carried<B>>,
    token: &mut FrameToken<Carried<B>>,
    trace: &mut Trace,
    asked: Asked,
) -> bool
    requires cells { cells ≡ cells_of (hall_name seat.old.hall).tree }
    requires out { IsOutWith (hall_name seat.old.hall) (fields_of token.old) (token_tie token.old) trace.old }
    ensures hall { hall_name seat.new.hall ≡ hall_name seat.old.hall }
    ensures out { IsOutWith (hall_name seat.new.hall) (fields_of token.new) (token_tie token.new) trace.new }
{
    let (cell, write, reply) = asked;
    if cells <= cell {
        return false;
    }
    seat.access(rt, token, trace, CellId(cell), write) == reply
}

// Makes the accesses, one after the other, up to the first with another reply. Returns whether there
// is none.
fn have_replies<'a, R: Wait, B: RunCode>(
    rt: &R,
    cells: u32,
    seat: &mut HallSeat<'a, Carried<B>>,
    token: &mut FrameToken<Carried<B>>,
    asked: &[Asked],
) -> bool
    requires cells { cells ≡ cells_of (hall_name seat.old.hall).tree }
    requires given { IsGivenIn B.code (hall_name seat.old.hall) token.old }
    ensures hall { hall_name seat.new.hall ≡ hall_name seat.old.hall }
{
    let mut trace = Trace::new();
    for one in asked {
        if !has_reply(rt, cells, seat, token, &mut trace, *one) {
            return false;
        }
    }
    true
}

// Begins iteration 0, and makes the accesses for it.
fn begins_with<'a, R: Wait, B: RunCode>(
    rt: &R,
    cells: u32,
    seat: &mut HallSeat<'a, Carried<B>>,
    asked: &[Asked],
) -> bool
    requires cells { cells ≡ cells_of (hall_name seat.old.hall).tree }
    ensures hall { hall_name seat.new.hall ≡ hall_name seat.old.hall }
{
    let Begun::Started(token) = seat.begin(rt) else {
        return false;
    };
    let mut token = token;
    let have_replies = have_replies(rt, cells, seat, &mut token, asked);
    drop(token);
    have_replies
}

// Opens a hall whose cells are those after some accesses, begins iteration 0 and makes accesses for it.
// Returns whether they have these replies and tickets; false also if memory runs out.
fn first_accesses<R: Wait, B: RunCode>(
    rt: &R,
    alloc: Global,
    prepared: &Prepared,
    before: &Accesses,
    asked: &[Asked],
    tickets: &[Tickets],
) -> bool
    requires prepared { IsPrepared (tree_of prepared.now.checked) prepared.now.code }
    requires code { prepared.now.code ≡ B.code }
{
    let cells = prepared.cells();
    let Ok((hall, key)) = open::<B>(alloc, prepared, 1, before) else {
        return false;
    };
    let mut seat = HallSeat::new(&hall, key);
    let have_replies = begins_with(rt, cells, &mut seat, asked);
    let key = seat.into_key();
    let have_tickets = close_with_tickets(rt, alloc, hall, key, tickets);
    have_replies && have_tickets
}

// The same for a source; false also if the source is refused.
fn are_made_after<R: Wait>(
    rt: &R,
    alloc: Global,
    source: &str,
    before: &Accesses,
    asked: &[Asked],
    tickets: &[Tickets],
) -> bool {
    let Some(prepared) = prepare(alloc, source) else {
        return false;
    };
    let are_made = first_accesses::<R, Brand>(rt, alloc, &prepared, before, asked, tickets);
    drop(prepared);
    are_made
}

// Notes that 5 was written to cell 2. Returns whether there is memory for that.
fn write_before(before: &mut Accesses) -> bool {
    let written = before.push(Access {
        cell: CellId(2),
        kind: AccessKind::Write,
        value: 5,
    });
    written.is_ok()
}

// Whether the accesses of a row have its replies and tickets.
fn is_made<R: Wait>(rt: &R, alloc: Global, row: &Row) -> bool {
    let (source, has_write, asked, tickets) = *row;
    let mut before = Accesses::new(alloc);
    let is_ready = !has_write || write_before(&mut before);
    is_ready && are_made_after(rt, alloc, source, &before, asked, tickets)
}

// The first row for which it is otherwise.
fn first_other<R: Wait>(rt: &R, alloc: Global) -> Option<usize> {
    for (index, row) in ROWS.iter().enumerate() {
        if !is_made(rt, alloc, row) {
            return Some(index);
        }
    }
    None
}

#[test]
fn accesses_have_their_replies_and_tickets(rt: HostRuntime) {
    let other = first_other(&rt, rt.alloc());
    assert!(rt; other.is_none(), "{other:?}");
}
