//! Texts of records, for a program with a plain cell and an array of three.

use crate::sources::accepted;
use pipe_check::checked::Checked;
use pipe_model::access::AccessKind::{Read, Write};
use pipe_model::access::{Access, CellId};
use pipe_model::column::ColumnEnd;
use pipe_model::event::Event;
use pipe_model::event::Event::{Advance, Begin, Enter, Finish, Stop};
use pipe_model::node::Kind;
use pipe_model::trap::Trap;
use record_parser::bounds::LONGEST_RECORD;
use record_parser::fault::RecordFault;
use record_parser::parse::parse_record;
use std::alloc::Global;

const SOURCE: &str = "limits iterations 1, stages 2, steps 50, emits 1; \
    cell n = 0; cell a[3] = 0; pipe_while (n < 1) { n = 1; pipe_wait(1); emit n; }";

const RECORD: &str =
    "begin 0\nread 0 n -9223372036854775808\nwrite 7 a[2] 9223372036854775807\nread 1 input 3\n\
    write 1 output 0\nwait 2 1\ncontinue 3 -2\nenter 4\nend 5\nclosed 65536\ntrap 6 DivZero\nstop";

// The events of its lines.
const EVENTS: [Event; 12] = [
    Begin(0),
    Event::Access(
        0,
        Access {
            cell: CellId(2),
            kind: Read,
            value: i64::MIN,
        },
    ),
    Event::Access(
        7,
        Access {
            cell: CellId(5),
            kind: Write,
            value: i64::MAX,
        },
    ),
    Event::Access(
        1,
        Access {
            cell: CellId(0),
            kind: Read,
            value: 3,
        },
    ),
    Event::Access(
        1,
        Access {
            cell: CellId(1),
            kind: Write,
            value: 0,
        },
    ),
    Advance(2, Kind::Wait, 1),
    Advance(3, Kind::Continue, -2),
    Enter(4),
    Finish(5, ColumnEnd::End),
    Finish(65_536, ColumnEnd::Closed),
    Finish(6, ColumnEnd::Trapped(Trap::DivZero)),
    Stop,
];

// Whether a text is a record of these events.
fn has_events(alloc: Global, checked: &Checked, text: &[u8], events: &[Event]) -> bool {
    match parse_record(alloc, text, checked) {
        Ok(found) => found.as_slice() == events,
        Err(_) => false,
    }
}

const TEXTS: [(&str, Result<usize, u32>); 21] = [
    ("", Ok(0)),
    ("begin 0", Ok(1)),
    (
        "12\n-7\nrace n write 0/1 read 1/-1\ntrap Index at 0/1\nbegin 0\n",
        Ok(1),
    ),
    ("trap Budget in init\n", Ok(0)),
    ("begin 0\n12\n", Err(1)),
    ("begin 0\ntrap Index at 0/1\n", Err(1)),
    ("race m write 0/1 read 1/1\n", Err(0)),
    ("race n write 0/1 read 65537/1\n", Err(0)),
    ("trap Index at 0\n", Err(0)),
    ("\n", Err(0)),
    ("begin 0\n\n", Err(1)),
    ("begin 0\r\n", Err(0)),
    ("begin 0\0\n", Err(0)),
    ("begin 00\n", Err(0)),
    ("begin 65537\n", Err(0)),
    ("begin 0 \n", Err(0)),
    ("read 0 n 01\n", Err(0)),
    ("read 0 n -0\n", Err(0)),
    ("read 0 n 12345678901234567890\n", Err(0)),
    ("read 0 a[3] 0\n", Err(0)),
    ("write 0 a 0\n", Err(0)),
];

// Whether a text has this number of events, or this first bad line.
fn is_read(alloc: Global, checked: &Checked, text: &[u8], wanted: Result<usize, u32>) -> bool {
    match parse_record(alloc, text, checked) {
        Ok(events) => wanted == Ok(events.len()),
        Err(RecordFault::BadLine(line)) => wanted == Err(line),
        Err(_) => false,
    }
}

// The first text with another number of events, or another first bad line.
fn first_other(alloc: Global, checked: &Checked) -> Option<usize> {
    for (k, (text, wanted)) in TEXTS.iter().enumerate() {
        if !is_read(alloc, checked, text.as_bytes(), *wanted) {
            return Some(k);
        }
    }
    None
}

// Whether the record has its events, and the first other text; nothing if the source is refused.
fn texts_read(alloc: Global) -> Option<(bool, Option<usize>)> {
    let checked = accepted(alloc, SOURCE.as_bytes())?;
    let right = has_events(alloc, &checked, RECORD.as_bytes(), &EVENTS);
    let other = first_other(alloc, &checked);
    drop(checked);
    Some((right, other))
}

#[test]
fn records_have_their_events(rt: HostRuntime) {
    let found = texts_read(rt.alloc());
    assert!(rt; found == Some((true, None)), "{found:?}");
}

// Whether a record of this many line feeds has this fault.
fn feeds_have_fault(alloc: Global, checked: &Checked, count: usize, fault: RecordFault) -> bool {
    match Vec::from_elem(alloc, b'\n', count) {
        Ok(text) => parse_record(alloc, text.as_slice(), checked).err() == Some(fault),
        Err(_) => false,
    }
}

// Whether the longest record has a bad line, and a longer one is too long.
fn lengths_are_bounded(alloc: Global, checked: &Checked) -> bool {
    feeds_have_fault(alloc, checked, LONGEST_RECORD, RecordFault::BadLine(0))
        && feeds_have_fault(alloc, checked, LONGEST_RECORD + 1, RecordFault::TooLong)
}

fn long_texts(alloc: Global) -> bool {
    match accepted(alloc, SOURCE.as_bytes()) {
        Some(checked) => {
            let found = lengths_are_bounded(alloc, &checked);
            drop(checked);
            found
        }
        None => false,
    }
}

#[test]
fn long_texts_are_refused(rt: HostRuntime) {
    assert!(rt; long_texts(rt.alloc()));
}
