// Rows for each form of the language, with the text and the status that its definition gives,
// computed by hand.

use crate::cases::{RUN, Row, SERIAL, expect_none, first_other_row, made_source_ends};
use std::alloc::Global;
use std::sync::Wait;
use std::thread::Threads;

// The limit on emits, what is inserted into `init`, the loop and `final` of the program of `trap_ends`,
// and its text. Each part emits its number before that.
type TrapRow<'a> = (u32, &'a str, &'a str, &'a str, &'a str);

static TRAPS: [TrapRow<'static>; 18] = [
    (
        9,
        "let x = 9223372036854775807 + 1;",
        "",
        "",
        "1\ntrap Overflow in init\n",
    ),
    (
        9,
        "",
        "n = n * 9223372036854775807 * 2;",
        "",
        "1\n2\ntrap Overflow at 0/0\n",
    ),
    (
        9,
        "",
        "",
        "emit -(-9223372036854775807 - 1);",
        "1\n2\n3\ntrap Overflow in final\n",
    ),
    (9, "emit 1 / 0;", "", "", "1\ntrap DivZero in init\n"),
    (
        9,
        "",
        "emit 1 % (n - 1);",
        "",
        "1\n2\ntrap DivZero at 0/0\n",
    ),
    (9, "", "", "emit 0 / 0;", "1\n2\n3\ntrap DivZero in final\n"),
    (9, "a[2] = 1;", "", "", "1\ntrap Index in init\n"),
    (9, "", "emit a[-1];", "", "1\n2\ntrap Index at 0/0\n"),
    (
        9,
        "",
        "",
        "emit a[n + 1];",
        "1\n2\n3\ntrap Index in final\n",
    ),
    (9, "while (1) { }", "", "", "1\ntrap Budget in init\n"),
    (
        9,
        "",
        "while (n) { n = -n; }",
        "",
        "1\n2\ntrap Budget at 0/0\n",
    ),
    (
        9,
        "",
        "",
        "while (!0) { }",
        "1\n2\n3\ntrap Budget in final\n",
    ),
    (9, "emit take();", "", "", "1\ntrap InputEnd in init\n"),
    (9, "", "emit take();", "", "1\n2\ntrap InputEnd at 0/0\n"),
    (
        9,
        "",
        "",
        "emit take();",
        "1\n2\n3\ntrap InputEnd in final\n",
    ),
    (1, "emit 7;", "", "", "1\ntrap OutputLimit in init\n"),
    (2, "", "emit 7;", "", "1\n2\ntrap OutputLimit at 0/0\n"),
    (3, "", "", "emit 7;", "1\n2\n3\ntrap OutputLimit in final\n"),
];

// Whether the program of a row ends as the row says. A trap in `init` leaves out the loop and `final`, and a
// trap in the loop leaves out `final`.
fn trap_ends(rt: &(impl Threads + Wait + Sync), alloc: Global, row: &TrapRow<'_>) -> bool {
    let (emits, init, body, last, text) = *row;
    let source = format!(in alloc;
        "limits iterations 1, stages 1, steps 50, emits {emits}; cell a[2] = 0; cell n = 0; init {{ emit 1; {init} }} pipe_while (n < 1) {{ n = 1; emit 2; {body} }} final {{ emit 3; {last} }}"
    );
    made_source_ends(rt, alloc, RUN, source, 3, text)
}

// The first row whose program ends otherwise.
fn first_other_trap(rt: &(impl Threads + Wait + Sync), alloc: Global) -> Option<usize> {
    for (index, row) in TRAPS.iter().enumerate() {
        if !trap_ends(rt, alloc, row) {
            return Some(index);
        }
    }
    None
}

#[test]
fn traps_leave_out_later_parts(rt: HostRuntime) {
    let other = first_other_trap(&rt, rt.alloc());
    expect_none(&rt, "TRAPS", other);
}

// A statement, its steps, and what it emits.
type CostRow<'a> = (&'a str, u32, &'a str);

static COSTS: [CostRow<'static>; 20] = [
    ("let x = 1;", 2, ""),
    ("n = n;", 2, ""),
    ("a[1] = 2;", 3, ""),
    ("a[n + 1] = a[0];", 6, ""),
    ("emit a[1];", 3, "7\n"),
    ("emit -(1);", 3, "-1\n"),
    ("emit !0;", 3, "1\n"),
    ("emit 2 * 3;", 4, "6\n"),
    ("emit 2 + 3 * 4;", 6, "14\n"),
    // The right side is left out, and then evaluated.
    ("emit 0 && n;", 3, "0\n"),
    ("emit 2 && 3;", 4, "1\n"),
    ("emit 2 || n;", 3, "1\n"),
    ("emit 0 || n;", 4, "0\n"),
    ("emit more();", 2, "0\n"),
    ("if (1) { emit 5; } else { emit 6; }", 4, "5\n"),
    ("if (n) { emit 5; } else { emit 6; }", 4, "6\n"),
    ("if (n) { emit 5; }", 2, ""),
    ("while (n) { emit 5; }", 2, ""),
    // Three tests of four steps, and two turns of four steps.
    ("while (n < 2) { n = n + 1; }", 20, ""),
    // Two tests of three steps, and a turn of four.
    ("while (!n) { if (1) { n = 1; } }", 10, ""),
];

// Whether a program with the statement in its `init` ends like this under this limit on steps.
fn steps_end(
    rt: &(impl Threads + Wait + Sync),
    alloc: Global,
    statement: &str,
    steps: u32,
    status: u8,
    text: &str,
) -> bool {
    let source = format!(in alloc;
        "limits iterations 1, stages 1, steps {steps}, emits 1; cell a[2] = 7; cell n = 0; init {{ {statement} }} pipe_while (0) {{ }}"
    );
    made_source_ends(rt, alloc, RUN, source, status, text)
}

// Whether the statement of a row can be executed with its steps, and not with one fewer.
fn has_cost(rt: &(impl Threads + Wait + Sync), alloc: Global, row: &CostRow<'_>) -> bool {
    let (statement, cost, text) = *row;
    let less = cost.saturating_sub(1);
    steps_end(rt, alloc, statement, cost, 0, text)
        && steps_end(rt, alloc, statement, less, 3, "trap Budget in init\n")
}

// The first statement with another cost.
fn first_other_cost(rt: &(impl Threads + Wait + Sync), alloc: Global) -> Option<usize> {
    for (index, row) in COSTS.iter().enumerate() {
        if !has_cost(rt, alloc, row) {
            return Some(index);
        }
    }
    None
}

#[test]
fn statements_have_their_costs(rt: HostRuntime) {
    let other = first_other_cost(&rt, rt.alloc());
    expect_none(&rt, "COSTS", other);
}

// An expression over the greatest number `h`, the least number `l` and an array, and the status and text of a
// program that emits it.
type ValueRow<'a> = (&'a str, u8, &'a str);

static VALUES: [ValueRow<'static>; 80] = [
    ("l", 0, "-9223372036854775808\n"),
    ("h + l", 0, "-1\n"),
    ("l + h", 0, "-1\n"),
    ("h + 0", 0, "9223372036854775807\n"),
    ("h - h", 0, "0\n"),
    ("l - l", 0, "0\n"),
    ("-1 - h", 0, "-9223372036854775808\n"),
    ("-1 - l", 0, "9223372036854775807\n"),
    ("h * -1", 0, "-9223372036854775807\n"),
    ("l * 1", 0, "-9223372036854775808\n"),
    ("0 * l", 0, "0\n"),
    ("h / 1", 0, "9223372036854775807\n"),
    ("h / -1", 0, "-9223372036854775807\n"),
    ("l / 1", 0, "-9223372036854775808\n"),
    ("l / h", 0, "-1\n"),
    ("h / l", 0, "0\n"),
    ("7 / 2", 0, "3\n"),
    ("-7 / 2", 0, "-3\n"),
    ("7 / -2", 0, "-3\n"),
    ("-7 / -2", 0, "3\n"),
    ("h % -1", 0, "0\n"),
    ("l % 1", 0, "0\n"),
    ("l % h", 0, "-1\n"),
    ("h % l", 0, "9223372036854775807\n"),
    ("7 % 2", 0, "1\n"),
    ("-7 % 2", 0, "-1\n"),
    ("7 % -2", 0, "1\n"),
    ("-7 % -2", 0, "-1\n"),
    ("-h", 0, "-9223372036854775807\n"),
    ("!l", 0, "0\n"),
    ("!h", 0, "0\n"),
    ("!(h - h)", 0, "1\n"),
    ("l == l", 0, "1\n"),
    ("l == h", 0, "0\n"),
    ("l != l", 0, "0\n"),
    ("l != h", 0, "1\n"),
    ("l < h", 0, "1\n"),
    ("h < l", 0, "0\n"),
    ("h < h", 0, "0\n"),
    ("l <= h", 0, "1\n"),
    ("h <= l", 0, "0\n"),
    ("h <= h", 0, "1\n"),
    ("l > h", 0, "0\n"),
    ("h > l", 0, "1\n"),
    ("l > l", 0, "0\n"),
    ("l >= h", 0, "0\n"),
    ("h >= l", 0, "1\n"),
    ("l >= l", 0, "1\n"),
    ("l && h", 0, "1\n"),
    ("l && 0", 0, "0\n"),
    ("0 && 1 / 0", 0, "0\n"),
    ("0 || l", 0, "1\n"),
    ("0 || 0", 0, "0\n"),
    ("l || 1 / 0", 0, "1\n"),
    // Grouping.
    ("10 - 3 - 2", 0, "5\n"),
    ("10 - (3 - 2)", 0, "9\n"),
    ("100 / 10 * 5", 0, "50\n"),
    ("100 / (10 * 5)", 0, "2\n"),
    ("(2 + 3) * 4", 0, "20\n"),
    ("-2 * -3 + 1", 0, "7\n"),
    ("3 > 2 > 1", 0, "0\n"),
    ("1 + 1 < 3 == 1", 0, "1\n"),
    ("2 == 2 && 0 || 5", 0, "1\n"),
    ("1 || 0 && 0", 0, "1\n"),
    ("!0 + 1", 0, "2\n"),
    // Elements of an array.
    ("a[0]", 0, "4\n"),
    ("a[1 + 1]", 0, "6\n"),
    ("a[a[0] - a[1]]", 0, "6\n"),
    // Traps.
    ("h + 1", 3, "trap Overflow in init\n"),
    ("l + -1", 3, "trap Overflow in init\n"),
    ("l - 1", 3, "trap Overflow in init\n"),
    ("0 - l", 3, "trap Overflow in init\n"),
    ("h * 2", 3, "trap Overflow in init\n"),
    ("l * -1", 3, "trap Overflow in init\n"),
    ("l / -1", 3, "trap Overflow in init\n"),
    ("l % -1", 3, "trap Overflow in init\n"),
    ("-l", 3, "trap Overflow in init\n"),
    ("h / 0", 3, "trap DivZero in init\n"),
    ("l % 0", 3, "trap DivZero in init\n"),
    ("1 && 0 / 0", 3, "trap DivZero in init\n"),
];

// Whether a program that emits the expression of a row in its `init` ends as the row says.
fn value_ends(rt: &(impl Threads + Wait + Sync), alloc: Global, row: &ValueRow<'_>) -> bool {
    let (expression, status, text) = *row;
    let source = format!(in alloc;
        "limits iterations 1, stages 1, steps 50, emits 1; cell h = 9223372036854775807; cell l = 0; cell a[3] = 0; init {{ l = -h - 1; a[0] = 4; a[1] = 2; a[2] = 6; emit {expression}; }} pipe_while (0) {{ }}"
    );
    made_source_ends(rt, alloc, RUN, source, status, text)
}

// The first expression with another value, or another trap.
fn first_other_value(rt: &(impl Threads + Wait + Sync), alloc: Global) -> Option<usize> {
    for (index, row) in VALUES.iter().enumerate() {
        if !value_ends(rt, alloc, row) {
            return Some(index);
        }
    }
    None
}

#[test]
fn expressions_have_their_values(rt: HostRuntime) {
    let other = first_other_value(&rt, rt.alloc());
    expect_none(&rt, "VALUES", other);
}

// An expression of 251 symbols that keeps 100 operands while the last one is evaluated.
const DEEPEST: &str = "init { emit \
    0 == 3 < 2 + 1 * (0 == 3 < 2 + 1 * (0 == 3 < 2 + 1 * (0 == 3 < 2 + 1 * (0 == 3 < 2 + 1 * (\
    0 == 3 < 2 + 1 * (0 == 3 < 2 + 1 * (0 == 3 < 2 + 1 * (0 == 3 < 2 + 1 * (0 == 3 < 2 + 1 * (\
    0 == 3 < 2 + 1 * (0 == 3 < 2 + 1 * (0 == 3 < 2 + 1 * (0 == 3 < 2 + 1 * (0 == 3 < 2 + 1 * (\
    0 == 3 < 2 + 1 * (0 == 3 < 2 + 1 * (0 == 3 < 2 + 1 * (0 == 3 < 2 + 1 * (0 == 3 < 2 + 1 * (\
    0 == 3 < 2 + 1 * (0 == 3 < 2 + 1 * (0 == 3 < 2 + 1 * (0 == 3 < 2 + 1 * (0 == 3 < 2 + 1 * (\
    1))))))))))))))))))))))))); } pipe_while (0) { }";

static ROWS: [Row<'static>; 46] = [
    ([1, 1, 202, 1], DEEPEST, 0, "1\n"),
    // `init`, the loop and `final` have a budget each, and share the cells and the output.
    (
        [1, 1, 4, 9],
        "cell n = 0; init { n = 1; emit n; } pipe_while (0) { } final { emit n; emit 2; }",
        0,
        "1\n1\n2\n",
    ),
    (
        [1, 1, 3, 9],
        "cell n = 0; init { n = 1; emit n; } pipe_while (0) { } final { emit n; emit 2; }",
        3,
        "trap Budget in init\n",
    ),
    (
        [1, 1, 4, 9],
        "cell n = 0; pipe_while (n) { } final { emit 1; emit 2; emit 3; }",
        3,
        "1\n2\ntrap Budget in final\n",
    ),
    (
        [2, 1, 10, 9],
        "cell n = 5; init { n = 7; emit n; } pipe_while (n < 9) { n = n + 1; emit n; } final { emit -n; }",
        0,
        "7\n8\n9\n-9\n",
    ),
    // Each part may have a local of the same name.
    (
        [1, 1, 20, 9],
        "cell n = 0; init { let x = 1; emit x; } pipe_while (n < 1) { let x = 2; emit x; n = 1; } final { let x = 3; emit x; }",
        0,
        "1\n2\n3\n",
    ),
    // The step of `take()` is within the budget, so the trap is its own.
    (
        [1, 1, 1, 0],
        "init { emit take(); } pipe_while (0) { }",
        3,
        "trap InputEnd in init\n",
    ),
    // A trap in any stage of the loop leaves out `final`; after one in a later stage the loop goes on.
    (
        [1, 1, 20, 9],
        "pipe_while (1) { emit 1; } final { emit 2; }",
        3,
        "1\ntrap IterLimit at 1/0\n",
    ),
    (
        [1, 3, 20, 9],
        "cell n = 0; pipe_while (n < 1) { n = 1; pipe_wait(1); emit n; pipe_continue(1); } final { emit 2; }",
        3,
        "1\ntrap StageOrder at 0/1\n",
    ),
    (
        [1, 2, 20, 9],
        "cell n = 0; pipe_while (n < 1) { n = 1; pipe_wait(); emit n; pipe_wait(); } final { emit 2; }",
        3,
        "1\ntrap StageLimit at 0/1\n",
    ),
    (
        [2, 2, 50, 9],
        "cell n = 0; pipe_while (n < 2) { n = n + 1; let t = n; pipe_wait(1); emit 6 / (t - 1); } final { emit 9; }",
        3,
        "6\ntrap DivZero at 0/1\n",
    ),
    // A race leaves out all output. Elements of an array are cells of their own.
    (
        [2, 2, 50, 9],
        "cell n = 0; cell s = 0; init { emit 1; } pipe_while (n < 2) { n = n + 1; pipe_continue(1); s = s + 1; } final { emit s; }",
        2,
        "race s write 0/1 read 1/1\n",
    ),
    (
        [2, 2, 50, 9],
        "cell n = 0; cell a[3] = 0; pipe_while (n < 2) { n = n + 1; pipe_continue(1); a[1] = a[1] + 1; }",
        2,
        "race a[1] write 0/1 read 1/1\n",
    ),
    (
        [2, 2, 50, 9],
        "cell n = 0; cell a[3] = 0; pipe_while (n < 2) { n = n + 1; let t = n; pipe_continue(1); a[t] = t * 5; } final { emit a[0]; emit a[1]; emit a[2]; }",
        0,
        "0\n5\n10\n",
    ),
    // At the end of the input the cursor is only read.
    (
        [2, 2, 50, 9],
        "cell n = 0; pipe_while (n < 2) { n = n + 1; pipe_continue(1); if (more()) { } let x = take(); } final { emit 1; }",
        3,
        "trap InputEnd at 0/1\n",
    ),
    // A `while` that holds `pipe_wait`.
    (
        [1, 4, 50, 9],
        "cell n = 0; pipe_while (n < 1) { n = 1; let k = 1; while (k < 4) { pipe_wait(k); emit k; k = k + 1; } }",
        0,
        "1\n2\n3\n",
    ),
    (
        [1, 3, 50, 9],
        "cell n = 0; pipe_while (n < 1) { n = 1; let k = 1; while (k < 4) { pipe_wait(k); emit k; k = k + 1; } }",
        3,
        "1\n2\ntrap StageLimit at 0/2\n",
    ),
    (
        [2, 3, 50, 9],
        "cell n = 0; cell s = 0; pipe_while (n < 2) { n = n + 1; let k = 1; while (k < 3) { pipe_wait(k); s = s + k; k = k + 1; } } final { emit s; }",
        2,
        "race s write 0/2 read 1/1\n",
    ),
    // The index is evaluated first, then the value, then the step is taken, then the index is tested.
    (
        [1, 1, 20, 9],
        "cell a[2] = 0; init { a[take()] = 1 / 0; } pipe_while (0) { }",
        3,
        "trap InputEnd in init\n",
    ),
    (
        [1, 1, 20, 9],
        "cell a[2] = 0; init { a[9] = 1 / 0; } pipe_while (0) { }",
        3,
        "trap DivZero in init\n",
    ),
    (
        [1, 1, 2, 0],
        "cell a[2] = 0; init { a[9] = 1; } pipe_while (0) { }",
        3,
        "trap Budget in init\n",
    ),
    (
        [1, 1, 3, 0],
        "cell a[2] = 0; init { a[9] = 1; } pipe_while (0) { }",
        3,
        "trap Index in init\n",
    ),
    // The bounds of an array.
    (
        [1, 1, 20, 9],
        "cell b = 8; cell a[3] = 7; cell c = 9; init { a[0] = 1; a[2] = 3; emit a[0]; emit a[1]; emit a[2]; } pipe_while (0) { } final { emit b; emit c; }",
        0,
        "1\n7\n3\n8\n9\n",
    ),
    (
        [1, 1, 20, 9],
        "cell b = 8; cell a[3] = 7; init { emit a[-1]; } pipe_while (0) { }",
        3,
        "trap Index in init\n",
    ),
    (
        [1, 1, 20, 9],
        "cell a[3] = 7; cell c = 9; init { emit a[3]; } pipe_while (0) { }",
        3,
        "trap Index in init\n",
    ),
    (
        [1, 1, 20, 9],
        "cell b = 8; cell a[3] = 7; init { a[-1] = 1; } pipe_while (0) { }",
        3,
        "trap Index in init\n",
    ),
    (
        [1, 1, 20, 9],
        "cell a[3] = 7; cell c = 9; init { a[3] = 1; } pipe_while (0) { }",
        3,
        "trap Index in init\n",
    ),
    (
        [1, 1, 20, 9],
        "cell a[1] = 5; init { emit a[0]; emit a[1]; } pipe_while (0) { }",
        3,
        "5\ntrap Index in init\n",
    ),
    // A local of a loop's body is made anew in each turn, and ends with its block.
    (
        [1, 1, 54, 9],
        "init { let k = 0; while (k < 3) { let x = 5; x = x + k; emit x; k = k + 1; } } pipe_while (0) { }",
        0,
        "5\n6\n7\n",
    ),
    (
        [1, 1, 99, 9],
        "init { let k = 0; while (k < 4) { if (k % 2 == 0) { emit k; } else { if (k == 3) { emit -k; } } k = k + 1; } } pipe_while (0) { }",
        0,
        "0\n2\n-3\n",
    ),
    // `iter()`, and `more()` and `take()` without input.
    (
        [1, 1, 6, 1],
        "pipe_while (iter() < 1) { emit iter(); }",
        0,
        "0\n",
    ),
    (
        [1, 1, 5, 1],
        "pipe_while (iter() < 1) { emit iter(); }",
        3,
        "trap Budget at 0/0\n",
    ),
    (
        [3, 2, 20, 9],
        "pipe_while (iter() < 3) { let t = iter(); pipe_wait(); emit t * iter(); }",
        0,
        "0\n1\n4\n",
    ),
    ([1, 1, 2, 0], "pipe_while (more()) { }", 0, ""),
    (
        [1, 1, 1, 0],
        "pipe_while (more()) { }",
        3,
        "trap Budget at 0/0\n",
    ),
    (
        [1, 1, 1, 0],
        "pipe_while (take()) { }",
        3,
        "trap InputEnd at 0/0\n",
    ),
    // The steps of stage statements.
    (
        [1, 2, 8, 9],
        "cell n = 0; pipe_while (n < 1) { n = 1; pipe_continue(1); }",
        0,
        "",
    ),
    (
        [1, 2, 7, 9],
        "cell n = 0; pipe_while (n < 1) { n = 1; pipe_continue(1); }",
        3,
        "trap Budget at 0/0\n",
    ),
    (
        [1, 2, 7, 9],
        "cell n = 0; pipe_while (n < 1) { n = 1; pipe_continue(); }",
        0,
        "",
    ),
    (
        [1, 2, 6, 9],
        "cell n = 0; pipe_while (n < 1) { n = 1; pipe_continue(); }",
        3,
        "trap Budget at 0/0\n",
    ),
    // The greatest limits, used up and by one too much.
    (
        [64, 4_096, 1_000_000, 1_048_576],
        "pipe_while (0) { } final { emit 1; }",
        0,
        "1\n",
    ),
    (
        [1, 4_096, 40, 1],
        "cell n = 0; pipe_while (n < 1) { n = 1; let k = 1; while (k < 4096) { pipe_wait(k); k = k + 1; } emit k; }",
        0,
        "4096\n",
    ),
    (
        [1, 4_096, 40, 1],
        "cell n = 0; pipe_while (n < 1) { n = 1; let k = 1; while (k < 4097) { pipe_wait(k); k = k + 1; } emit k; }",
        3,
        "trap StageLimit at 0/4095\n",
    ),
    (
        [65_536, 4, 4, 1],
        "pipe_while (iter() < 65537) { } final { emit 1; }",
        3,
        "trap IterLimit at 65536/0\n",
    ),
    (
        [1, 1, 1_000_000, 1],
        "init { let k = 0; while (k < 124999) { k = k + 1; } emit k; } pipe_while (0) { }",
        0,
        "124999\n",
    ),
    (
        [1, 1, 1_000_000, 1],
        "init { let k = 0; while (k < 124999) { k = k + 1; } emit -k; } pipe_while (0) { }",
        3,
        "trap Budget in init\n",
    ),
];

#[test]
fn each_form_has_its_result(rt: HostRuntime) {
    let other = first_other_row(&rt, rt.alloc(), RUN, &ROWS);
    expect_none(&rt, "ROWS", other);
}

// Pipelines whose stages depend on the iteration, `init`, `final` and traps, by `run` and by `serial`.
static PIPELINES: [Row<'static>; 17] = [
    // Stage 1 reads the counter, which stage 0 of the next iteration writes.
    (
        [8, 4, 100, 8],
        "cell n = 0; cell s = 0; pipe_while (n < 3) { n = n + 1; let t = n; pipe_wait(1); s = s + n; emit s; }",
        2,
        "race n read 0/1 write 1/0\n",
    ),
    // Stage numbers that depend on the iteration.
    (
        [4, 3, 50, 4],
        "cell n = 0; cell s = 0; pipe_while (n < 4) { n = n + 1; let t = n; if (iter() % 2 == 0) { pipe_wait(1); } pipe_wait(2); s = s + t; emit s; }",
        0,
        "1\n3\n6\n10\n",
    ),
    // The edges into stages 6 and 7 are redundant.
    (
        [2, 4, 50, 4],
        "cell n = 0; cell c = 0; pipe_while (n < 2) { n = n + 1; if (iter() == 0) { pipe_wait(5); c = 7; } else { pipe_wait(5); pipe_wait(6); pipe_wait(7); emit c; } }",
        0,
        "7\n",
    ),
    // A wait for a skipped stage follows the last stage before it: stage 5, and then stage 0.
    (
        [2, 4, 50, 4],
        "cell n = 0; cell c = 0; pipe_while (n < 2) { n = n + 1; if (iter() == 0) { pipe_wait(5); c = 7; } else { pipe_wait(6); emit c; } }",
        0,
        "7\n",
    ),
    (
        [2, 4, 50, 4],
        "cell n = 0; cell c = 0; pipe_while (n < 2) { n = n + 1; if (iter() == 0) { pipe_wait(5); c = 7; } else { pipe_wait(4); emit c; } }",
        2,
        "race c write 0/5 read 1/4\n",
    ),
    // Two readers in parallel before a write.
    (
        [2, 3, 50, 2],
        "cell n = 0; cell c = 0; pipe_while (n < 2) { n = n + 1; let x = 0; if (iter() == 0) { pipe_continue(1); x = c; } else { x = c; pipe_continue(1); c = 5; } }",
        2,
        "race c read 0/1 write 1/1\n",
    ),
    (
        [2, 3, 50, 2],
        "cell n = 0; cell c = 0; pipe_while (n < 2) { n = n + 1; let x = 0; if (iter() == 0) { pipe_continue(1); x = c; pipe_continue(2); c = 5; } else { x = c; } }",
        2,
        "race c write 0/2 read 1/0\n",
    ),
    (
        [1, 1, 100, 1],
        "cell n = 0; pipe_while (n < 1) { n = 1; let k = 0; while (k < 3) { n = n + 1; k = k + 1; } emit n; }",
        0,
        "4\n",
    ),
    // Both instances of iteration 0 take 12 steps, and then the second needs 13.
    (
        [3, 2, 12, 3],
        "cell n = 0; pipe_while (n < 2) { n = n + 1; let t = n; pipe_wait(1); emit t; if (t == 1) { let k = t + t + t; } }",
        0,
        "1\n2\n",
    ),
    (
        [3, 2, 12, 3],
        "cell n = 0; pipe_while (n < 2) { n = n + 1; let t = n; pipe_wait(1); emit t; if (t == 1) { let k = -(t + t + t); } }",
        3,
        "1\n2\ntrap Budget at 0/1\n",
    ),
    // A racy read decides which stages follow.
    (
        [2, 3, 50, 2],
        "cell n = 0; cell f = 0; cell c = 0; pipe_while (n < 2) { n = n + 1; if (iter() == 0) { pipe_continue(1); f = 1; } else { if (f == 0) { pipe_continue(1); } pipe_continue(2); c = 1; } }",
        2,
        "race f write 0/1 read 1/0\n",
    ),
    // `init` and `final` around an empty loop, and traps of `init`.
    (
        [1, 1, 20, 2],
        "cell s = 0; init { s = 4; emit s; } pipe_while (0) { } final { s = s * 10 + 2; emit s; }",
        0,
        "4\n42\n",
    ),
    (
        [1, 1, 20, 2],
        "cell s = 0; init { emit 1 / 0; } pipe_while (0) { } final { s = s * 10 + 2; emit s; }",
        3,
        "trap DivZero in init\n",
    ),
    (
        [1, 1, 20, 1],
        "cell s = 0; init { emit 1; emit 2; } pipe_while (0) { } final { s = s * 10 + 2; emit s; }",
        3,
        "1\ntrap OutputLimit in init\n",
    ),
    // A trap in instance 0 closes the loop.
    (
        [1, 1, 20, 1],
        "cell a[2] = 0; pipe_while (1) { emit a[2]; }",
        3,
        "trap Index at 0/0\n",
    ),
    (
        [1, 1, 20, 1],
        "cell a[2] = 0; pipe_while (1) { emit 9223372036854775807 + 1; }",
        3,
        "trap Overflow at 0/0\n",
    ),
    // The steps of operands come before the step of their operator.
    (
        [1, 1, 3, 1],
        "init { emit 1 / 0; } pipe_while (0) { }",
        3,
        "trap DivZero in init\n",
    ),
];

#[test]
fn pipelines_have_their_results(rt: HostRuntime) {
    let rows: &[Row<'_>] = &PIPELINES;
    let by_run = first_other_row(&rt, rt.alloc(), RUN, rows);
    expect_none(&rt, "PIPELINES by run", by_run);
    let by_serial = first_other_row(&rt, rt.alloc(), SERIAL, rows);
    expect_none(&rt, "PIPELINES by serial", by_serial);
}
