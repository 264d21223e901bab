//! Sources with the first rule that they break, and what is known of a program that breaks none.

use crate::faults_found::{Faulty, LIMITS, first_other};
use crate::first_rows::expect_no_pair;
use crate::sources::accepted;
use std::alloc::Global;

const UNKNOWN: [&str; 13] = [
    "pipe_while (@x < 3) { }",
    "pipe_while (0) { @x = 1; }",
    "pipe_while (0) { emit @x[0]; }",
    "pipe_while (0) { let x = @x; }",
    "pipe_while (@x) { let x = 1; }",
    "init { let x = 1; } pipe_while (@x) { }",
    "init { let x = 1; } pipe_while (0) { emit @x; }",
    "pipe_while (0) { let x = 1; } final { emit @x; }",
    "pipe_while (0) { if (1) { let x = 1; } emit @x; }",
    "pipe_while (0) { if (1) { let x = 1; } else { emit @x; } }",
    "pipe_while (0) { while (0) { let x = 1; } emit @x; }",
    "pipe_while (0) { if (1) { } else { let x = 1; } emit @x; }",
    "pipe_while (@x) { emit y; pipe_wait(z); }",
];

const TWICE: [&str; 7] = [
    "cell n = 0; cell @n = 1; pipe_while (0) { }",
    "cell n = 0; pipe_while (0) { let @n = 1; }",
    "pipe_while (0) { let x = 1; let @x = 2; }",
    "pipe_while (0) { if (1) { let x = 1; } let @x = 2; }",
    "init { let x = 1; let @x = 2; } pipe_while (0) { }",
    "cell a = 0; cell @a[0] = 0; pipe_while (0) { }",
    "cell a[65536] = 0; cell @a = 0; pipe_while (0) { }",
];

const PIPE_OUTSIDE: [&str; 4] = [
    "init { @pipe_wait(1); } pipe_while (0) { }",
    "pipe_while (0) { } final { @pipe_continue(); }",
    "init { emit @iter(); } pipe_while (0) { }",
    "pipe_while (0) { } final { emit @iter(); }",
];

const TOO_MANY_CELLS: [&str; 3] = [
    "cell a[65536] = 0; cell @b = 0; pipe_while (0) { }",
    "cell b = 0; cell @a[65536] = 0; pipe_while (0) { }",
    "cell @a[9223372036854775807] = 0; pipe_while (0) { }",
];

const NOT_AN_ARRAY: [&str; 4] = [
    "cell n = 0; pipe_while (0) { emit @n[0]; }",
    "cell n = 0; pipe_while (0) { @n[0] = 1; }",
    "pipe_while (0) { let x = 1; emit @x[0]; }",
    "cell n = 0; pipe_while (@n[x]) { }",
];

const NEEDS_INDEX: [&str; 2] = [
    "cell a[2] = 0; pipe_while (@a) { }",
    "cell a[2] = 0; pipe_while (0) { @a = 1; }",
];

static BROKEN: [Faulty; 7] = [
    Faulty {
        kind: "Unknown",
        before: LIMITS,
        rows: &UNKNOWN,
        after: "",
    },
    Faulty {
        kind: "Twice",
        before: LIMITS,
        rows: &TWICE,
        after: "",
    },
    Faulty {
        kind: "PipeOutside",
        before: LIMITS,
        rows: &PIPE_OUTSIDE,
        after: "",
    },
    Faulty {
        kind: "TooManyCells",
        before: LIMITS,
        rows: &TOO_MANY_CELLS,
        after: "",
    },
    Faulty {
        kind: "NotAnArray",
        before: LIMITS,
        rows: &NOT_AN_ARRAY,
        after: "",
    },
    Faulty {
        kind: "NeedsIndex",
        before: LIMITS,
        rows: &NEEDS_INDEX,
        after: "",
    },
    Faulty {
        kind: "ZeroSize",
        before: LIMITS,
        rows: &["cell @a[0] = 0; pipe_while (0) { }"],
        after: "",
    },
];

fn first_other_of_broken(alloc: Global) -> Option<(usize, usize)> {
    first_other(alloc, &BROKEN)
}

#[test]
fn broken_rules_have_their_marks(rt: HostRuntime) {
    expect_no_pair(&rt, "BROKEN", first_other_of_broken(rt.alloc()));
}

const CELLS: &[u8] =
    b"limits iterations 1, stages 1, steps 1, emits 1; cell n = 0; cell a[3] = 0; pipe_while (n) { a[n] = 1; }";

// The number of cells of the program, and that of its declarations.
fn counted(alloc: Global) -> Option<(u32, usize)> {
    let checked = accepted(alloc, CELLS)?;
    let counts = (checked.cell_count(), checked.program().cells.len());
    drop(checked);
    Some(counts)
}

// `input`, `output`, n and the three elements of a.
#[test]
fn cells_are_counted(rt: HostRuntime) {
    assert!(rt; counted(rt.alloc()) == Some((6, 2)));
}
