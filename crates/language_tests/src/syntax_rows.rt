//! Sources with their first fault of the syntax, and sources that are programs.

use crate::faults_found::SourceFault::Syntactic;
use crate::faults_found::{
    Faulty, LIMITS, first_fault, first_other, has_fault, is_accepted, texts_are_accepted,
};
use crate::first_rows::{expect_no_pair, expect_none};
use pipe_parser::parse::ParseFault;
use std::alloc::Global;

// Limits, and declarations of what the rows of statements use.
const DECLARED: &str = "limits iterations 1, stages 1, steps 1, emits 1; \
    cell n = 0; cell m = 0; cell a[2] = 0; pipe_while (0) { ";

const LIMITS_LINES: [&str; 11] = [
    "@",
    "@version",
    "@pipe_while (0) { }",
    "limits iterations 8, stages 4, steps 10@",
    "limits @stages 1,",
    "limits iterations @-1,",
    "limits iterations @a,",
    "limits iterations 1 @stages 1,",
    "limits iterations 1, @steps 1,",
    "limits iterations 1, stages 1, steps 1@;",
    "// a comment@",
];

const PARTS: [&str; 21] = [
    "@",
    "pipe_while (0) { } @1",
    "pipe_while (0) { } @}",
    "pipe_while (0) { } @;",
    "pipe_while (0) { } @init { }",
    "pipe_while (0) { } final { } @final { }",
    "init { } @init { } pipe_while (0) { }",
    "@pipe_wait(); pipe_while (0) { }",
    "pipe_while @0 { }",
    "pipe_while (@) { }",
    "pipe_while (1 + @) { }",
    "pipe_while (0)@",
    "pipe_while (0) {@",
    "cell a[@-3] = 1; pipe_while (0) { }",
    "cell a = -@-1; pipe_while (0) { }",
    "cell a@; pipe_while (0) { }",
    "cell a[@] = 1; pipe_while (0) { }",
    "cell a = @b; pipe_while (0) { }",
    "cell a = 1@, pipe_while (0) { }",
    "pipe_while (0) { if (1) { } else @if (2) { } }",
    "pipe_while (0) { @else { } }",
];

const STATEMENTS: [&str; 20] = [
    "n @== 1;",
    "n @=== 1;",
    "n @+ 1;",
    "@12ab = 1;",
    "a[@] = 1;",
    "a[0]@;",
    "if (1) @emit 1;",
    "while @1 { }",
    "pipe_wait@;",
    "pipe_continue@;",
    "pipe_continue(1 @2);",
    "let @1 = 2;",
    "let x @1;",
    "@{ }",
    "let x = 1 @",
    "n = 1 @",
    "a[0] = 1 @",
    "emit 1 @",
    "pipe_wait(1) @",
    "pipe_continue() @",
];

const EXPRESSIONS: [&str; 10] = [
    "emit 12@ab;",
    "emit 1 @! 2;",
    "emit a[n]@[m];",
    "emit@;",
    "emit (@);",
    "emit (1@;",
    "emit more@;",
    "emit more(@1);",
    "emit 1 + @;",
    "emit @+ 1;",
];

const ACCEPTED: [&str; 20] = [
    "pipe_while(1){}",
    "pipe_while (0) { } // end",
    "pipe_while (0) { // { ( [\n }",
    "cell n = 0; init { n = 1; } pipe_while (0) { } final { emit n; }",
    "cell a[3] = -1; cell b = 2; pipe_while (0) { }",
    "cell n = 0; pipe_while (0) { n = 1; }",
    "cell n = 0; cell a[2] = 0; pipe_while (0) { a[n] = a[a[0]]; }",
    "pipe_while (0) { if (1) { } else { emit 1; } }",
    "pipe_while (0) { while (1) { while (0) { } } }",
    "cell n = 0; pipe_while (0) { pipe_wait(); pipe_continue(n + 1); }",
    "cell n = 0; pipe_while (0) { let m = n; }",
    "pipe_while (0) { emit 9223372036854775807; }",
    "cell n = 0; pipe_while (0) { emit n + n + 1 < 4 < n; }",
    "pipe_while (0) { emit 1 || 2 && 3 == 4 != 5 < 6 <= 7 > 8 >= 9 + 10 - 11 * 12 / 13 % 14; }",
    "pipe_while (0) { emit !1 != 2; }",
    "cell n = 0; pipe_while (0) { emit - -n; }",
    "cell n = 0; cell a[2] = 0; pipe_while (0) { emit --n + !-n * (n - 1) || a[n + 1] && 1; }",
    "pipe_while (0) { emit more() + take() * iter(); }",
    "cell a[65535] = 0; cell b = 0; pipe_while (0) { }",
    "init { let x = 1; } pipe_while (0) { let x = 2; } final { let x = 3; }",
];

static UNEXPECTED: [Faulty; 4] = [
    Faulty {
        kind: "Unexpected",
        before: "",
        rows: &LIMITS_LINES,
        after: "",
    },
    Faulty {
        kind: "Unexpected",
        before: LIMITS,
        rows: &PARTS,
        after: "",
    },
    Faulty {
        kind: "Unexpected",
        before: DECLARED,
        rows: &STATEMENTS,
        after: "}",
    },
    Faulty {
        kind: "Unexpected",
        before: DECLARED,
        rows: &EXPRESSIONS,
        after: "}",
    },
];

fn first_other_of_unexpected(alloc: Global) -> Option<(usize, usize)> {
    first_other(alloc, &UNEXPECTED)
}

#[test]
fn syntax_faults_have_their_offsets(rt: HostRuntime) {
    expect_no_pair(&rt, "UNEXPECTED", first_other_of_unexpected(rt.alloc()));
}

// Whether the limits and the row are a program that breaks no rule.
fn row_is_accepted(alloc: Global, row: &str) -> bool {
    texts_are_accepted(alloc, &[LIMITS, row])
}

fn first_refused(alloc: Global, rows: &[&str]) -> Option<usize> {
    for (index, row) in rows.iter().enumerate() {
        if !row_is_accepted(alloc, row) {
            return Some(index);
        }
    }
    None
}

fn first_refused_of_all(alloc: Global) -> Option<usize> {
    first_refused(alloc, &ACCEPTED)
}

#[test]
fn programs_are_accepted(rt: HostRuntime) {
    expect_none(&rt, "ACCEPTED", first_refused_of_all(rt.alloc()));
}

const COUNTING: &str =
    "limits iterations 2, stages 1, steps 50, emits 2; cell n = 0; pipe_while (n < 3) { n = n + 1; emit n; }";

// A source that ends within a number.
const SHORT: &str = "limits iterations 2, stages 1, steps 5@";

// Whether the source has a token that may not come there, or ends too early.
fn is_unexpected(alloc: Global, source: &str) -> bool {
    match first_fault(alloc, source) {
        Some(Syntactic(ParseFault::Unexpected(_))) => true,
        _ => false,
    }
}

// The length of the first proper prefix that is not refused for that.
fn first_other_prefix(alloc: Global, source: &str) -> Option<usize> {
    for end in 0..source.len() {
        let Some(prefix) = source.get(..end) else {
            return Some(end);
        };
        if !is_unexpected(alloc, prefix) {
            return Some(end);
        }
    }
    None
}

// A proper prefix of a program is no program: it ends too early, at a token that the rest would
// make longer or at its end.
#[test]
fn proper_prefixes_are_refused(rt: HostRuntime) {
    expect_none(&rt, "prefixes", first_other_prefix(rt.alloc(), COUNTING));
    assert!(rt; is_accepted(rt.alloc(), COUNTING) && has_fault(rt.alloc(), "Unexpected", SHORT));
}
