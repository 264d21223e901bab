//! Logs that the checker is to accept or to reject. Each row changes one event of the same run, under the
//! throttling limit 1.

ghost use Rattle.std.specs.Prelude.{◌≡◌};
ghost use Rattle.hall_tests.specs.PreparedPrograms.{IsPrepared};
ghost use Rattle.pipe_model.specs.Language.SyntaxTree.{tree_of};

use crate::checker::{Verdict, check};
use crate::sources::{Prepared, prepare};
use pipe_model::access::{Access, AccessKind, CellId};
use pipe_model::column::ColumnEnd::{Closed, End};
use pipe_model::event::Event;
use pipe_model::node::Kind;
use std::alloc::Global;

// Counts to 1.
const COUNTING: &str = "limits iterations 1, stages 2, steps 50, emits 0; \
    cell n = 0; pipe_while (n < 1) { n = 1; }";

// The cell `n`.
const N: CellId = CellId(2);

const READ_0: Access = Access {
    cell: N,
    kind: AccessKind::Read,
    value: 0,
};

const READ_1: Access = Access {
    cell: N,
    kind: AccessKind::Read,
    value: 1,
};

const READ_5: Access = Access {
    cell: N,
    kind: AccessKind::Read,
    value: 5,
};

const WRITE_0: Access = Access {
    cell: N,
    kind: AccessKind::Write,
    value: 0,
};

const WRITE_1: Access = Access {
    cell: N,
    kind: AccessKind::Write,
    value: 1,
};

const WRITE_3: Access = Access {
    cell: N,
    kind: AccessKind::Write,
    value: 3,
};

const EVENTS: [Event; 7] = [
    Event::Begin(0),
    Event::Access(0, READ_0),
    Event::Access(0, WRITE_1),
    Event::Finish(0, End),
    Event::Begin(1),
    Event::Access(1, READ_1),
    Event::Finish(1, Closed),
];

// An index, the event that is put there, and the verdict.
static ROWS: [(usize, Event, Verdict); 9] = [
    (0, Event::Begin(0), Verdict::Finished),
    (0, Event::Begin(1), Verdict::Control(0)),
    (1, Event::Access(0, READ_5), Verdict::Value(1)),
    (1, Event::Access(0, WRITE_0), Verdict::Program(0)),
    (2, Event::Access(0, WRITE_3), Verdict::Value(5)),
    (2, Event::Access(1, WRITE_1), Verdict::Control(2)),
    (3, Event::Advance(0, Kind::Wait, 1), Verdict::Control(4)),
    (3, Event::Stop, Verdict::Control(4)),
    (6, Event::Finish(1, End), Verdict::Control(7)),
];

// The events with another one at this index.
fn changed(index: usize, event: Event) -> [Event; 7] {
    let mut events = EVENTS;
    if index < events.len() {
        events[index] = event;
    }
    events
}

// The verdict on them.
fn verdict_of(alloc: Global, prepared: &Prepared, index: usize, event: Event) -> Verdict
    requires { IsPrepared (tree_of prepared.now.checked) prepared.now.code }
{
    check(alloc, prepared, 1, changed(index, event).as_slice())
}

// The first row for which the verdict is another one.
fn first_other(alloc: Global, prepared: &Prepared) -> Option<usize>
    requires { IsPrepared (tree_of prepared.now.checked) prepared.now.code }
{
    for (row, (index, event, verdict)) in ROWS.iter().enumerate() {
        if verdict_of(alloc, prepared, *index, *event) != *verdict {
            return Some(row);
        }
    }
    None
}

// The same for the program of `COUNTING`; the number of rows if it is refused or memory runs out.
fn first_other_of_all(alloc: Global) -> Option<usize> {
    let Some(prepared) = prepare(alloc, COUNTING) else {
        return Some(ROWS.len());
    };
    let other = first_other(alloc, &prepared);
    drop(prepared);
    other
}

#[test]
fn wrong_logs_are_rejected(rt: HostRuntime) {
    let other = first_other_of_all(rt.alloc());
    assert!(rt; other.is_none(), "{other:?}");
}
