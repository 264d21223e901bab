//! The lines of races on each kind of cell, and the lines of a run with a trap.

use crate::sources::accepted;
use pipe_check::checked::Checked;
use pipe_model::access::AccessKind::{Read, Write};
use pipe_model::access::{AccessKind, CellId};
use pipe_model::list::Numbers;
use pipe_model::memory::NoMemory;
use pipe_model::node::NodeId;
use pipe_model::report::{Report, Reports};
use pipe_model::trap::{Trap, TrapAt, TrapPlace};
use race_report::outcome::outcome_text;
use race_report::race_text::text;
use std::alloc::Global;

const SOURCE: &str = "limits iterations 8, stages 4, steps 100, emits 8; \
    cell s = 0; cell a[3] = 0; cell last = 0; pipe_while (s < 1) { s = 1; }";

fn second_of(iteration: u32) -> NodeId {
    NodeId {
        iteration,
        index: 1,
    }
}

// A race of the first two iterations on a cell, in their second instances, of stages 3 and 4.
fn report(cell: u32, earlier_kind: AccessKind, later_kind: AccessKind) -> Report {
    Report {
        cell: CellId(cell),
        earlier: second_of(0),
        earlier_number: 3,
        earlier_kind,
        later: second_of(1),
        later_number: 4,
        later_kind,
    }
}

// Races of cells of each kind.
const RACES: [(u32, AccessKind, AccessKind); 5] = [
    (0, Write, Write),
    (1, Write, Read),
    (2, Write, Read),
    (5, Read, Write),
    (6, Read, Write),
];

const LINES: &str = "race input write 0/3 write 1/4\nrace output write 0/3 read 1/4\n\
    race s write 0/3 read 1/4\nrace a[2] read 0/3 write 1/4\nrace last read 0/3 write 1/4\n";

fn reports(alloc: Global) -> Result<Reports, NoMemory> {
    let mut reports = Reports::new(alloc);
    for (cell, earlier_kind, later_kind) in &RACES {
        reports.push(report(*cell, *earlier_kind, *later_kind))?;
    }
    Ok(reports)
}

// Whether these are the lines of the reports, in a program with these cells.
fn have_lines(alloc: Global, reports: &Reports, checked: &Checked) -> bool {
    match text(alloc, reports, checked) {
        Ok(lines) => lines.as_slice() == LINES.as_bytes(),
        Err(NoMemory) => false,
    }
}

// The same for the program of the source.
fn source_has_lines(alloc: Global, reports: &Reports) -> bool {
    match accepted(alloc, SOURCE.as_bytes()) {
        Some(checked) => {
            let found = have_lines(alloc, reports, &checked);
            drop(checked);
            found
        }
        None => false,
    }
}

fn races_have_lines(alloc: Global) -> bool {
    match reports(alloc) {
        Ok(reports) => {
            let found = source_has_lines(alloc, &reports);
            drop(reports);
            found
        }
        Err(NoMemory) => false,
    }
}

#[test]
fn races_name_their_cells(rt: HostRuntime) {
    assert!(rt; races_have_lines(rt.alloc()));
}

// The numbers 7 and -12.
fn output(alloc: Global) -> Result<Numbers, NoMemory> {
    let mut output = Numbers::new(alloc);
    output.push(7)?;
    output.push(-12)?;
    Ok(output)
}

const OUTCOME: &[u8] = b"7\n-12\ntrap DivZero at 1/4\n";

// Whether the lines of the numbers and of a trap are those of `OUTCOME`.
fn trap_comes_last(alloc: Global, output: &Numbers) -> bool {
    let trap = TrapAt {
        place: TrapPlace::At(second_of(1), 4),
        trap: Trap::DivZero,
    };
    match outcome_text(alloc, output, Some(trap)) {
        Ok(lines) => lines.as_slice() == OUTCOME,
        Err(NoMemory) => false,
    }
}

fn trap_comes_after_output(alloc: Global) -> bool {
    match output(alloc) {
        Ok(output) => trap_comes_last(alloc, &output),
        Err(NoMemory) => false,
    }
}

#[test]
fn output_comes_before_the_trap(rt: HostRuntime) {
    assert!(rt; trap_comes_after_output(rt.alloc()));
}
