//! The text of a run log, with the names of a program's cells.

use crate::sources::accepted;
use pipe_check::checked::Checked;
use pipe_model::access::AccessKind::{Read, Write};
use pipe_model::access::{Access, CellId};
use pipe_model::column::{ColumnEnd, Columns};
use pipe_model::event::Event::{Advance, Begin, Enter, Finish, Stop};
use pipe_model::event::{Event, Events, RunLog};
use pipe_model::memory::NoMemory;
use pipe_model::node::Kind;
use pipe_model::trap::Trap;
use run_record::log_text::text;
use std::alloc::Global;

const SOURCE: &str = "limits iterations 1, stages 2, steps 50, emits 1; \
    cell n = 0; cell a[3] = 0; cell last = 0; pipe_while (n < 1) { n = 1; pipe_wait(1); emit n; }";

// Events, each with its line.
const CASES: [(Event, &str); 17] = [
    (Begin(0), "begin 0\n"),
    (
        Event::Access(
            0,
            Access {
                cell: CellId(2),
                kind: Read,
                value: 0,
            },
        ),
        "read 0 n 0\n",
    ),
    (
        Event::Access(
            0,
            Access {
                cell: CellId(2),
                kind: Write,
                value: 1,
            },
        ),
        "write 0 n 1\n",
    ),
    (Advance(0, Kind::Wait, 1), "wait 0 1\n"),
    (Enter(0), "enter 0\n"),
    (
        Event::Access(
            0,
            Access {
                cell: CellId(2),
                kind: Read,
                value: 1,
            },
        ),
        "read 0 n 1\n",
    ),
    (
        Event::Access(
            0,
            Access {
                cell: CellId(1),
                kind: Read,
                value: 0,
            },
        ),
        "read 0 output 0\n",
    ),
    (
        Event::Access(
            0,
            Access {
                cell: CellId(1),
                kind: Write,
                value: 1,
            },
        ),
        "write 0 output 1\n",
    ),
    (Finish(0, ColumnEnd::End), "end 0\n"),
    (Begin(1), "begin 1\n"),
    (
        Event::Access(
            1,
            Access {
                cell: CellId(2),
                kind: Read,
                value: 1,
            },
        ),
        "read 1 n 1\n",
    ),
    (Finish(1, ColumnEnd::Closed), "closed 1\n"),
    (
        Event::Access(
            12,
            Access {
                cell: CellId(0),
                kind: Read,
                value: 7,
            },
        ),
        "read 12 input 7\n",
    ),
    (
        Event::Access(
            12,
            Access {
                cell: CellId(5),
                kind: Write,
                value: -34,
            },
        ),
        "write 12 a[2] -34\n",
    ),
    (Advance(12, Kind::Continue, 900), "continue 12 900\n"),
    (
        Finish(12, ColumnEnd::Trapped(Trap::StageLimit)),
        "trap 12 StageLimit\n",
    ),
    (Stop, "stop\n"),
];

// The log of the events.
fn run_log(alloc: Global) -> Result<RunLog, NoMemory> {
    let mut events = Events::new(alloc);
    for (event, _) in &CASES {
        events.push(*event)?;
    }
    Ok(RunLog {
        columns: Columns::new(alloc),
        events,
    })
}

// Whether a text is the lines of the events.
fn are_lines(text: &[u8]) -> bool {
    let mut left = text;
    for (_, line) in &CASES {
        match left.strip_prefix(line.as_bytes()) {
            Some(rest) => left = rest,
            None => return false,
        }
    }
    left.is_empty()
}

// Whether the text of a log is the lines, with the names of a program's cells.
fn has_lines(alloc: Global, log: &RunLog, checked: &Checked) -> bool {
    match text(alloc, log, checked) {
        Ok(text) => are_lines(text.as_slice()),
        Err(NoMemory) => false,
    }
}

// The same for the program of the source.
fn source_has_lines(alloc: Global, log: &RunLog) -> bool {
    match accepted(alloc, SOURCE.as_bytes()) {
        Some(checked) => {
            let found = has_lines(alloc, log, &checked);
            drop(checked);
            found
        }
        None => false,
    }
}

fn log_has_lines(alloc: Global) -> bool {
    match run_log(alloc) {
        Ok(log) => {
            let found = source_has_lines(alloc, &log);
            drop(log);
            found
        }
        Err(NoMemory) => false,
    }
}

#[test]
fn each_event_has_its_line(rt: HostRuntime) {
    assert!(rt; log_has_lines(rt.alloc()));
}
