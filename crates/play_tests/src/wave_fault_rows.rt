//! Programs that are no wave loops, each with its first fault.

use crate::wave_sources::wave_fault;
use pipe_model::memory::NoMemory;
use std::alloc::Global;
use wave_lower::fault::WaveFault;

// The declarations and `init` of the rows, with marks 0 and 1.
const HEAD: &str = "limits iterations 1, stages 1, steps 9, emits 1; cell n = 0; init { n = 1; } ";

// Loops, each with its first fault. Where two faults are possible, the comment has the other.
const ROWS: [(&str, WaveFault); 11] = [
    ("pipe_while (0) { let row = 0; }", WaveFault::BadTest),
    ("pipe_while (1 + 0) { let row = 0; }", WaveFault::BadTest),
    // NoRow, HasStage.
    ("pipe_while (n) { pipe_wait(); }", WaveFault::BadTest),
    ("pipe_while (1) { }", WaveFault::NoRow),
    ("pipe_while (1) { let row = 1; }", WaveFault::NoRow),
    ("pipe_while (1) { let rows = 0; }", WaveFault::NoRow),
    // HasStage.
    (
        "pipe_while (1) { pipe_wait(1); let row = 0; }",
        WaveFault::NoRow,
    ),
    // RowSet, at an earlier mark.
    (
        "pipe_while (1) { let row = 0; row = n; if (n) { pipe_continue(); } }",
        WaveFault::HasStage(6),
    ),
    (
        "pipe_while (1) { let row = 0; pipe_wait(row); pipe_wait(); }",
        WaveFault::HasStage(3),
    ),
    (
        "pipe_while (1) { let row = 0; while (n) { n = row; row = n; } row = 2; }",
        WaveFault::RowSet(6),
    ),
    (
        "pipe_while (1) { let row = 0; if (n) { n = 1; } else { row = row + 1; } }",
        WaveFault::RowSet(5),
    ),
];

// Whether a loop after the declarations has this first fault.
fn has_fault(alloc: Global, body: &str, fault: WaveFault) -> Result<bool, NoMemory> {
    let source = format!(in alloc; "{HEAD}{body}")?;
    Ok(wave_fault(alloc, source.as_bytes()) == Some(fault))
}

// The first loop with another fault, or for which memory runs out.
fn first_other(alloc: Global) -> Option<usize> {
    for (index, (body, fault)) in ROWS.iter().enumerate() {
        if has_fault(alloc, body, *fault) != Ok(true) {
            return Some(index);
        }
    }
    None
}

#[test]
fn first_faults_are_found(rt: HostRuntime) {
    let other = first_other(rt.alloc());
    assert!(rt; other.is_none(), "{other:?}");
}
