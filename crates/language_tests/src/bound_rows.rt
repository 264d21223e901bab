//! The greatest bracket depth, the longest expression and the most locals, and one more of each.

use crate::faults_found::{LIMITS, has_fault, is_accepted, texts_are_accepted, texts_have_fault};
use crate::first_rows::{expect_no_pair, expect_none};
use pipe_model::memory::NoMemory;
use std::alloc::Global;

const BODY: &str = "cell n = 0; cell a[2] = 0; pipe_while (0) { ";

const FINAL: &str = "pipe_while (0) { } final { ";

// Texts, each repeated.
type Parts = &'static [(&'static str, usize)];

fn joined(alloc: Global, parts: Parts) -> Result<String, NoMemory> {
    let mut source = String::from_str(alloc, LIMITS)?;
    for (text, times) in parts {
        for _ in 0..*times {
            source.push_str(text)?;
        }
    }
    Ok(source)
}

// At most 64 brackets are open at once, of all kinds together.
const TOO_DEEP: [Parts; 6] = [
    &[("pipe_while ", 1), ("(", 64), ("@(", 1)],
    &[("pipe_while ", 1), ("(", 64), ("@", 1), ("(", 99_936)],
    &[(BODY, 1), ("emit ", 1), ("(a[", 31), ("(@(", 1)],
    &[(BODY, 1), ("while (0) {", 63), ("while @(0) {", 1)],
    &[("pipe_while (", 1), ("-", 193), ("(", 63), ("@(", 1)],
    &[(BODY, 1), ("if (1) {", 63), ("emit @(1);", 1)],
];

const UNFINISHED: [Parts; 3] = [
    &[("pipe_while ", 1), ("(", 64), ("@", 1)],
    &[(BODY, 1), ("emit ", 1), ("(a[", 31), ("(@", 1)],
    &[(BODY, 1), ("emit -1", 1), (" + 1", 127), (" @1; }", 1)],
];

// An expression that is no part of another has at most 256 symbols: `--1` and 127 times ` + 1` has
// 257.
const TOO_LONG: [Parts; 8] = [
    &[
        (FINAL, 1),
        ("emit --1", 1),
        (" + 1", 126),
        (" + @1", 1),
        ("; }", 1),
    ],
    &[
        ("pipe_while (--1", 1),
        (" + 1", 126),
        (" + @1", 1),
        (") { }", 1),
    ],
    &[
        (BODY, 1),
        ("a[--1", 1),
        (" + 1", 126),
        (" + @1", 1),
        ("] = 0; }", 1),
    ],
    &[
        (BODY, 1),
        ("pipe_wait(--1", 1),
        (" + 1", 126),
        (" + @1", 1),
        ("); }", 1),
    ],
    &[
        (BODY, 1),
        ("emit (-1", 1),
        (" + 1", 126),
        (" + @1", 1),
        ("); }", 1),
    ],
    &[
        (BODY, 1),
        ("emit n", 1),
        ("+1", 127),
        ("+@1", 1),
        ("+1", 99_872),
        ("; }", 1),
    ],
    &[
        (BODY, 1),
        ("emit ", 1),
        ("-", 256),
        ("@", 1),
        ("-", 99_744),
        ("1; }", 1),
    ],
    &[
        ("pipe_while (", 1),
        ("-", 194),
        ("(", 62),
        ("@(", 1),
        ("(", 1),
    ],
];

static LONGEST: [Parts; 12] = [
    &[
        ("pipe_while ", 1),
        ("(", 64),
        ("0", 1),
        (")", 64),
        (" { }", 1),
    ],
    &[
        (BODY, 1),
        ("emit ", 1),
        ("(a[", 31),
        ("(0)", 1),
        ("])", 31),
        ("; }", 1),
    ],
    &[(BODY, 1), ("while (0) {", 63), ("}", 64)],
    &[(FINAL, 1), ("emit -1", 1), (" + 1", 127), ("; }", 1)],
    &[("pipe_while (-1", 1), (" + 1", 127), (") { }", 1)],
    &[(BODY, 1), ("a[-1", 1), (" + 1", 127), ("] = 0; }", 1)],
    &[(BODY, 1), ("pipe_wait(-1", 1), (" + 1", 127), ("); }", 1)],
    &[
        (BODY, 1),
        ("emit -1", 1),
        (" + 1", 127),
        ("; emit -1", 1),
        (" + 1", 127),
        ("; }", 1),
    ],
    &[(BODY, 1), ("emit n;", 20_000), ("}", 1)],
    &[(BODY, 1), ("let ", 1), ("a", 64), (" = 1; }", 1)],
    &[("cell a", 1), ("a", 63), (" = 1; pipe_while (1) { }", 1)],
    &[("pipe_while (0) { } // ", 1), ("{([", 1_000)],
];

const NAMES_TOO_LONG: [Parts; 1] = [&[(BODY, 1), ("let @", 1), ("a", 65)]];

// Whether the source of the parts has the fault.
fn parts_have_fault(alloc: Global, kind: &str, parts: Parts) -> bool {
    match joined(alloc, parts) {
        Ok(source) => has_fault(alloc, kind, source.as_str()),
        Err(NoMemory) => false,
    }
}

// The first source that does not have the fault.
fn first_other_row(alloc: Global, kind: &str, rows: &[Parts]) -> Option<usize> {
    for (index, parts) in rows.iter().enumerate() {
        if !parts_have_fault(alloc, kind, *parts) {
            return Some(index);
        }
    }
    None
}

// Sources, by the kind of their fault.
static FAULTY: [(&str, &[Parts]); 4] = [
    ("TooDeep", &TOO_DEEP),
    ("TooLong", &TOO_LONG),
    ("Unexpected", &UNFINISHED),
    ("NameTooLong", &NAMES_TOO_LONG),
];

// Where the first source is that does not have its fault: the number of its kind, and of its row.
fn first_other(alloc: Global, kinds: &[(&str, &[Parts])]) -> Option<(usize, usize)> {
    for (number, (kind, rows)) in kinds.iter().enumerate() {
        if let Some(row) = first_other_row(alloc, kind, rows) {
            return Some((number, row));
        }
    }
    None
}

// Whether the parts are a program that breaks no rule.
fn parts_are_accepted(alloc: Global, parts: Parts) -> bool {
    match joined(alloc, parts) {
        Ok(source) => is_accepted(alloc, source.as_str()),
        Err(NoMemory) => false,
    }
}

fn first_refused(alloc: Global, rows: &[Parts]) -> Option<usize> {
    for (index, parts) in rows.iter().enumerate() {
        if !parts_are_accepted(alloc, *parts) {
            return Some(index);
        }
    }
    None
}

fn first_other_of_faulty(alloc: Global) -> Option<(usize, usize)> {
    first_other(alloc, &FAULTY)
}

fn first_refused_of_longest(alloc: Global) -> Option<usize> {
    first_refused(alloc, &LONGEST)
}

#[test]
fn brackets_and_expressions_are_bounded(rt: HostRuntime) {
    expect_no_pair(&rt, "FAULTY", first_other_of_faulty(rt.alloc()));
    expect_none(&rt, "LONGEST", first_refused_of_longest(rt.alloc()));
}

// n definitions of different names, each after this word.
fn definitions(alloc: Global, word: &str, n: u32) -> Result<String, NoMemory> {
    let mut text = String::new(alloc);
    for k in 0..n {
        write!(text, "{word} a{k} = 1; ")?;
    }
    Ok(text)
}

// Whether each part of a program may have these `let` statements.
fn are_in_each_part(alloc: Global, locals: &str) -> bool {
    texts_are_accepted(
        alloc,
        &[
            LIMITS,
            "init { ",
            locals,
            "} pipe_while (0) { ",
            locals,
            "} final { ",
            locals,
            "}",
        ],
    )
}

// Whether a program with these `let` statements and a further one has this fault there.
fn one_more_has_fault(alloc: Global, locals: &str, kind: &str, name: &str) -> bool {
    texts_have_fault(
        alloc,
        kind,
        &[
            LIMITS,
            "pipe_while (0) { ",
            locals,
            "let @",
            name,
            " = 1; }",
        ],
    )
}

// Whether each part may have these `let` statements, and a further one is one too many, or has a name
// that is taken.
fn are_most(alloc: Global, locals: &str) -> bool {
    are_in_each_part(alloc, locals)
        && one_more_has_fault(alloc, locals, "TooManyLocals", "b")
        && one_more_has_fault(alloc, locals, "Twice", "a0")
}

// The same for 64 of them.
fn are_64_most(alloc: Global) -> bool {
    match definitions(alloc, "let", 64) {
        Ok(locals) => are_most(alloc, locals.as_str()),
        Err(NoMemory) => false,
    }
}

// Each part has at most 64 locals; a name that is taken counts before one local too many.
#[test]
fn locals_are_bounded(rt: HostRuntime) {
    assert!(rt; are_64_most(rt.alloc()));
}

// 20,000 cells, one declaration each.
fn many_cells(alloc: Global) -> Result<String, NoMemory> {
    definitions(alloc, "cell", 20_000)
}

// Whether a program may have these cells and a further declaration.
fn many_are_accepted(alloc: Global, last: &str) -> bool {
    match many_cells(alloc) {
        Ok(cells) => texts_are_accepted(
            alloc,
            &[LIMITS, cells.as_str(), last, " pipe_while (1) { }"],
        ),
        Err(NoMemory) => false,
    }
}

// Whether the further declaration is one too many.
fn are_too_many(alloc: Global, last: &str) -> bool {
    match many_cells(alloc) {
        Ok(cells) => texts_have_fault(
            alloc,
            "TooManyCells",
            &[LIMITS, cells.as_str(), last, " pipe_while (1) { }"],
        ),
        Err(NoMemory) => false,
    }
}

// The most cells.
#[test]
fn cells_are_bounded(rt: HostRuntime) {
    assert!(rt; many_are_accepted(rt.alloc(), "cell b[45536] = 0;"));
    assert!(rt; are_too_many(rt.alloc(), "cell @b[45537] = 0;"));
}
