// Work, span and the heaviest paths of programs. The steps of each stage instance were counted by hand.

use crate::cases::{Row, call_ends, expect_none, first_other_row};
use std::alloc::{AllocError, Global};
use std::sync::Wait;
use std::thread::Threads;

const SPAN: &[&str] = &["span", "a.pipe", "a.in"];

static ROWS: [Row<'static>; 10] = [
    // One column.
    (
        [1, 1, 2, 0],
        "pipe_while (0) { }",
        0,
        "work 2\nspan 2\n0/0\n",
    ),
    // No column.
    (
        [1, 1, 9, 1],
        "init { emit 1 / 0; } pipe_while (0) { }",
        0,
        "work 0\nspan 0\n",
    ),
    // Twelve steps in stage 0, six in stage 1, and four in the instance that closes the loop.
    (
        [8, 4, 100, 8],
        "cell n = 0; cell s = 0; pipe_while (n < 3) { n = n + 1; let t = n; pipe_wait(1); s = s + t; emit s; }",
        0,
        "work 58\nspan 42\n0/0\n1/0\n2/0\n2/1\n",
    ),
    // Skipped stages: 1/3 waits for 0/1, since iteration 0 goes on in stage 4. The races do not matter.
    (
        [2, 3, 99, 0],
        "pipe_while (iter() < 2) { if (iter() == 0) { pipe_wait(1); let a = 0; while (a < 5) { a = a + 1; } pipe_continue(4); } else { pipe_wait(3); let b = 1; } }",
        0,
        "work 74\nspan 60\n0/0\n0/1\n1/3\n",
    ),
    // A column that traps: seven steps in 1/1.
    (
        [3, 2, 99, 9],
        "pipe_while (iter() < 3) { pipe_wait(1); if (iter() == 1) { emit 1 / 0; } }",
        0,
        "work 37\nspan 23\n0/0\n1/0\n1/1\n2/1\n",
    ),
    // An instance that ends with the trap `Budget` has the whole budget.
    (
        [1, 1, 1, 0],
        "pipe_while (0) { }",
        0,
        "work 1\nspan 1\n0/0\n",
    ),
    // A stage statement that traps has its steps, and there is no further instance; `final` does not count.
    (
        [1, 2, 99, 9],
        "pipe_while (iter() < 1) { pipe_wait(1); pipe_wait(1); } final { emit 1 / 0; }",
        0,
        "work 12\nspan 10\n0/0\n1/0\n",
    ),
    // The trap `IterLimit` comes after the steps of the loop's test.
    (
        [1, 2, 99, 9],
        "pipe_while (1) { pipe_wait(1); }",
        0,
        "work 6\nspan 6\n0/0\n1/0\n",
    ),
    // Paths of twelve steps lead to 1/1 from 1/0 and from 0/1: the first is taken.
    (
        [2, 2, 99, 9],
        "pipe_while (iter() < 2) { pipe_wait(1); emit 1; emit 1; emit 1; }",
        0,
        "work 28\nspan 18\n0/0\n1/0\n1/1\n",
    ),
    // Paths of sixteen steps lead to 1/1 and 2/0: the first is taken.
    (
        [2, 2, 99, 9],
        "pipe_while (iter() < 2) { pipe_continue(1); emit 1; emit 1; }",
        0,
        "work 24\nspan 16\n0/0\n1/0\n1/1\n",
    ),
];

#[test]
fn heaviest_paths_are_printed(rt: HostRuntime) {
    let other = first_other_row(&rt, rt.alloc(), SPAN, &ROWS);
    expect_none(&rt, "ROWS", other);
}

// A source, the first lines of its text, and the path after them: how many iterations it goes through, in each
// of which it has the stages from the first number up to the second.
type PathRow<'a> = (&'a str, &'a str, u32, u32, u32);

const CHAIN: &str =
    "limits iterations 50, stages 2, steps 20, emits 200; pipe_while (iter() < 50) { pipe_wait(1); emit 1; emit 1; emit 1; emit 1; }";

const ONE_ITERATION: &str =
    "limits iterations 1, stages 4096, steps 20, emits 0; pipe_while (iter() < 1) { let k = 1; while (k < 4096) { pipe_continue(); k = k + 1; } }";

const ONE_STAGE: &str =
    "limits iterations 65536, stages 1, steps 20, emits 0; pipe_while (iter() < 65536) { }";

// A long chain, the most stages and the most iterations.
static PATHS: [PathRow<'static>; 3] = [
    (CHAIN, "work 704\nspan 406\n0/0\n", 50, 1, 2),
    (ONE_ITERATION, "work 36869\nspan 36865\n", 1, 0, 4096),
    (ONE_STAGE, "work 262148\nspan 262148\n", 65_537, 0, 1),
];

fn push_stages(text: &mut String, iteration: u32, from: u32, to: u32) -> Result<(), AllocError> {
    for stage in from..to {
        writeln!(text, "{iteration}/{stage}")?;
    }
    Ok(())
}

fn push_path(text: &mut String, row: &PathRow<'_>) -> Result<(), AllocError> {
    text.push_str(row.1)?;
    for iteration in 0..row.2 {
        push_stages(text, iteration, row.3, row.4)?;
    }
    Ok(())
}

// Whether the path of a row is printed.
fn path_is_printed(rt: &(impl Threads + Wait + Sync), alloc: Global, row: &PathRow<'_>) -> bool {
    let mut text = String::new(alloc);
    match push_path(&mut text, row) {
        Ok(()) => call_ends(rt, alloc, &(SPAN, row.0, 0, text.as_str())),
        Err(_) => false,
    }
}

// The first row of which another path is printed.
fn first_other_path(rt: &(impl Threads + Wait + Sync), alloc: Global) -> Option<usize> {
    for (index, row) in PATHS.iter().enumerate() {
        if !path_is_printed(rt, alloc, row) {
            return Some(index);
        }
    }
    None
}

#[test]
fn long_paths_are_printed(rt: HostRuntime) {
    let other = first_other_path(&rt, rt.alloc());
    expect_none(&rt, "PATHS", other);
}
