//! Records of a loop that counts to 1, waits, and emits the count.

ghost use Rattle.std.specs.Prelude.{◌<◌, ◌≤◌, ◌^◌, length};
ghost use Rattle.pipe_model.specs.Language.CheckingRules.{BreaksNoRule};
ghost use Rattle.pipe_model.specs.Language.SyntaxTree.{tree_of};

use self::Outcome::{BadLine, NotAllowed, Run};
use crate::sources::accepted;
use pipe_check::checked::Checked;
use pipe_model::event::Events;
use pipe_model::list::Numbers;
use pipe_model::memory::NoMemory;
use record_check::answer::RunKind::{Finished, Stopped, Unfinished};
use record_check::answer::{RecordAnswer, RunKind};
use record_check::check_record::check_record;
use record_parser::fault::RecordFault;
use record_parser::parse::parse_record;
use stage_code::lower::lower;
use std::alloc::Global;

const COUNTING: &str = "limits iterations 1, stages 2, steps 50, emits 1; \
    cell n = 0; pipe_while (n < 1) { n = 1; pipe_wait(1); emit n; }";

const LINES: [&str; 12] = [
    "begin 0\n",
    "read 0 n 0\n",
    "write 0 n 1\n",
    "wait 0 1\n",
    "enter 0\n",
    "read 0 n 1\n",
    "read 0 output 0\n",
    "write 0 output 1\n",
    "end 0\n",
    "begin 1\n",
    "read 1 n 1\n",
    "closed 1\n",
];

// What a record is.
#[derive(Clone, Copy, PartialEq, Eq)]
enum Outcome {
    // A run with a log of the same events, and no race.
    Run(RunKind),
    NotAllowed(u32),
    BadLine(u32),
    // Something else: the record is not read, the log or the races are wrong, or memory runs out.
    Other,
}

// A change of the record: the first line that is replaced, the line after the last one, and the new lines.
// Then the throttling limit, and what the changed record is.
type Row = (usize, usize, &'static [&'static str], u32, Outcome);

const ROWS: [Row; 33] = [
    // All lines, all but the last, and none.
    (12, 12, &[], 1024, Run(Finished)),
    (11, 12, &[], 1024, Run(Unfinished)),
    (0, 12, &[], 1, Run(Unfinished)),
    // Another first line, with two before it.
    (
        0,
        1,
        &["1\n", "begin 0\n", "read 0 m 0\n"],
        1024,
        BadLine(2),
    ),
    // A stop ends a run.
    (11, 12, &["stop\n"], 2, Run(Stopped)),
    (3, 4, &["stop\n"], 2, NotAllowed(4)),
    // A line is dropped. Without the end of iteration 0 the other events are still a run, in which it is alive.
    (0, 1, &[], 1024, NotAllowed(0)),
    (1, 2, &[], 1024, NotAllowed(1)),
    (2, 3, &[], 1024, NotAllowed(2)),
    (3, 4, &[], 1024, NotAllowed(3)),
    (4, 5, &[], 1024, NotAllowed(4)),
    (5, 6, &[], 1024, NotAllowed(5)),
    (6, 7, &[], 1024, NotAllowed(6)),
    (7, 8, &[], 1024, NotAllowed(7)),
    (8, 9, &[], 1024, Run(Unfinished)),
    (9, 10, &[], 1024, NotAllowed(9)),
    (10, 11, &[], 1024, NotAllowed(10)),
    (11, 12, &[], 1024, Run(Unfinished)),
    (8, 9, &[], 1, NotAllowed(8)),
    // A line is doubled.
    (0, 0, &["begin 0\n"], 1024, NotAllowed(1)),
    (1, 1, &["read 0 n 0\n"], 1024, NotAllowed(2)),
    (2, 2, &["write 0 n 1\n"], 1024, NotAllowed(3)),
    (3, 3, &["wait 0 1\n"], 1024, NotAllowed(4)),
    (4, 4, &["enter 0\n"], 1024, NotAllowed(5)),
    (5, 5, &["read 0 n 1\n"], 1024, NotAllowed(6)),
    (6, 6, &["read 0 output 0\n"], 1024, NotAllowed(7)),
    (7, 7, &["write 0 output 1\n"], 1024, NotAllowed(8)),
    (8, 8, &["end 0\n"], 1024, NotAllowed(9)),
    (9, 9, &["begin 1\n"], 1024, NotAllowed(10)),
    (10, 10, &["read 1 n 1\n"], 1024, NotAllowed(11)),
    (11, 11, &["closed 1\n"], 1024, NotAllowed(12)),
    // A value that was not read.
    (5, 6, &["read 0 n 2\n"], 1024, NotAllowed(5)),
    // Another iteration.
    (10, 11, &["read 0 n 1\n"], 1024, NotAllowed(10)),
];

// What the check of a record says, for a record with this many events.
fn outcome_of(answer: &RecordAnswer, count: usize) -> Outcome {
    match answer {
        RecordAnswer::Run(kind, log, reports) => {
            if log.events.len() != count || !reports.is_empty() {
                return Outcome::Other;
            }
            Run(*kind)
        }
        RecordAnswer::NotAllowed(event) => NotAllowed(*event),
    }
}

// Checks the events of a record of an accepted program, which has no race.
fn checked_events(alloc: Global, checked: &Checked, throttle: u32, events: &Events) -> Outcome
    requires accepted { BreaksNoRule (tree_of checked.now) }
    requires throttle { 0 < throttle }
    requires short { length events.now < 2 ^ 32 }
{
    let Ok(code) = lower(alloc, checked) else {
        return Outcome::Other;
    };
    let input = Numbers::new(alloc);
    let answer = check_record(alloc, checked, &code, &input, throttle, events);
    drop(code);
    drop(input);
    match answer {
        Ok(answer) => {
            let found = outcome_of(&answer, events.len());
            drop(answer);
            found
        }
        Err(NoMemory) => Outcome::Other,
    }
}

// Reads and checks a record of an accepted program.
fn judged(alloc: Global, checked: &Checked, record: &[u8], throttle: u32) -> Outcome
    requires accepted { BreaksNoRule (tree_of checked.now) }
    requires throttle { 0 < throttle }
{
    match parse_record(alloc, record, checked) {
        Ok(events) => checked_events(alloc, checked, throttle, &events),
        Err(RecordFault::BadLine(line)) => BadLine(line),
        Err(_) => Outcome::Other,
    }
}

fn push_lines(text: &mut Vec<u8>, lines: &[&str]) -> Result<(), NoMemory> {
    for line in lines {
        text.extend_from_slice(line.as_bytes())?;
    }
    Ok(())
}

// The twelve lines, with others in place of those from `first` up to `end`.
fn changed(alloc: Global, first: usize, end: usize, lines: &[&str]) -> Result<Vec<u8>, NoMemory>
    requires first { first ≤ 12 }
    requires end { end ≤ 12 }
{
    let mut text = Vec::new(alloc);
    push_lines(&mut text, &LINES[..first])?;
    push_lines(&mut text, lines)?;
    push_lines(&mut text, &LINES[end..])?;
    Ok(text)
}

// Whether the record of a row is what the row says.
fn is_judged(alloc: Global, checked: &Checked, row: &Row) -> bool
    requires { BreaksNoRule (tree_of checked.now) }
{
    let (first, end, lines, throttle, wanted) = *row;
    if first > 12 || end > 12 || throttle == 0 {
        return false;
    }
    match changed(alloc, first, end, lines) {
        Ok(record) => judged(alloc, checked, record.as_slice(), throttle) == wanted,
        Err(NoMemory) => false,
    }
}

// The first row that is judged otherwise.
fn first_other(alloc: Global, checked: &Checked) -> Option<usize>
    requires { BreaksNoRule (tree_of checked.now) }
{
    for (index, row) in ROWS.iter().enumerate() {
        if !is_judged(alloc, checked, row) {
            return Some(index);
        }
    }
    None
}

// The same for the program of `COUNTING`; the number of rows if it is refused.
fn first_other_of_counting(alloc: Global) -> Option<usize> {
    match accepted(alloc, COUNTING.as_bytes()) {
        Some(checked) => {
            let found = first_other(alloc, &checked);
            drop(checked);
            found
        }
        None => Some(ROWS.len()),
    }
}

#[test]
fn records_are_judged(rt: HostRuntime) {
    let other = first_other_of_counting(rt.alloc());
    assert!(rt; other.is_none(), "{other:?}");
}
