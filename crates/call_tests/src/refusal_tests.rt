// Sources that are refused, one for each line of refusals and one for each bound. An `@` marks the
// offset of the refusal, and is not part of the source. The crate `language_tests` has more sources
// that are refused.

use crate::cases::{FORMAT, RUN, call_ends, expect_none};
use std::alloc::{AllocError, Global};
use std::sync::Wait;
use std::thread::Threads;

const LIMITS: &str = "limits iterations 1, stages 1, steps 1, emits 1; ";

// At most 64 brackets are open at once.
const TOO_DEEP: &str = "pipe_while \
    ((((((((((((((((((((((((((((((((((((((((((((((((((((((((((((((((@(";

// An expression has at most 256 symbols.
const TOO_LONG: &str = "pipe_while (\
    1+1+1+1+1+1+1+1+1+1+1+1+1+1+1+1+1+1+1+1+1+1+1+1+1+1+1+1+1+1+1+1+\
    1+1+1+1+1+1+1+1+1+1+1+1+1+1+1+1+1+1+1+1+1+1+1+1+1+1+1+1+1+1+1+1+\
    1+1+1+1+1+1+1+1+1+1+1+1+1+1+1+1+1+1+1+1+1+1+1+1+1+1+1+1+1+1+1+1+\
    1+1+1+1+1+1+1+1+1+1+1+1+1+1+1+1+1+1+1+1+1+1+1+1+1+1+1+1+1+1+1+1+\
    @1) { }";

// A part has at most 64 locals.
const TOO_MANY_LOCALS: &str = "pipe_while (0) { \
    let a0 = 1; let a1 = 1; let a2 = 1; let a3 = 1; let a4 = 1; let a5 = 1; let a6 = 1; \
    let a7 = 1; let a8 = 1; let a9 = 1; let a10 = 1; let a11 = 1; let a12 = 1; let a13 = 1; \
    let a14 = 1; let a15 = 1; let a16 = 1; let a17 = 1; let a18 = 1; let a19 = 1; let a20 = 1; \
    let a21 = 1; let a22 = 1; let a23 = 1; let a24 = 1; let a25 = 1; let a26 = 1; let a27 = 1; \
    let a28 = 1; let a29 = 1; let a30 = 1; let a31 = 1; let a32 = 1; let a33 = 1; let a34 = 1; \
    let a35 = 1; let a36 = 1; let a37 = 1; let a38 = 1; let a39 = 1; let a40 = 1; let a41 = 1; \
    let a42 = 1; let a43 = 1; let a44 = 1; let a45 = 1; let a46 = 1; let a47 = 1; let a48 = 1; \
    let a49 = 1; let a50 = 1; let a51 = 1; let a52 = 1; let a53 = 1; let a54 = 1; let a55 = 1; \
    let a56 = 1; let a57 = 1; let a58 = 1; let a59 = 1; let a60 = 1; let a61 = 1; let a62 = 1; \
    let a63 = 1; \
    let @b = 1; }";

// The kind of the refusal, and the source after its limits.
static REFUSED: [(&str, &str); 15] = [
    ("source BadByte", "pipe_while (0) { } @#"),
    ("source TooWide", "pipe_while (@9223372036854775808) { }"),
    (
        "source NameTooLong",
        "cell @aaaaaaaaaaaaaaaaaaaaaaaaaaaaaaaaaaaaaaaaaaaaaaaaaaaaaaaaaaaaaaaaa = 0;",
    ),
    ("source Unexpected", "@"),
    ("source Unexpected", "pipe_while (1 + @) { }"),
    ("check Unknown", "pipe_while (@x < 3) { }"),
    ("check Twice", "cell n = 0; pipe_while (0) { let @n = 1; }"),
    (
        "check PipeOutside",
        "pipe_while (0) { } final { @pipe_wait(); }",
    ),
    (
        "check TooManyCells",
        "cell a[65536] = 0; cell @b = 0; pipe_while (0) { }",
    ),
    (
        "check NotAnArray",
        "cell n = 0; pipe_while (0) { emit @n[0]; }",
    ),
    ("check NeedsIndex", "cell a[2] = 0; pipe_while (@a) { }"),
    ("check ZeroSize", "cell @a[0] = 0; pipe_while (0) { }"),
    ("source TooDeep", TOO_DEEP),
    ("source TooLong", TOO_LONG),
    ("check TooManyLocals", TOO_MANY_LOCALS),
];

// Whether `format` and `run` refuse the source with this line.
fn is_refused(rt: &(impl Threads + Wait + Sync), alloc: Global, source: &str, line: &str) -> bool {
    call_ends(rt, alloc, &(FORMAT, source, 1, line))
        && call_ends(rt, alloc, &(RUN, source, 1, line))
}

// Whether the source is refused with a line of this kind and this offset.
fn is_refused_at(
    rt: &(impl Threads + Wait + Sync),
    alloc: Global,
    source: &str,
    kind: &str,
    offset: usize,
) -> bool {
    match format!(in alloc; "refused {kind} at {offset}\n") {
        Ok(line) => is_refused(rt, alloc, source, line.as_str()),
        Err(_) => false,
    }
}

// Whether the source of two parts after its limits is refused at the offset of the second.
fn is_refused_between(
    rt: &(impl Threads + Wait + Sync),
    alloc: Global,
    kind: &str,
    before: &str,
    after: &str,
) -> bool {
    let offset = LIMITS.len() + before.len();
    match format!(in alloc; "{LIMITS}{before}{after}") {
        Ok(source) => is_refused_at(rt, alloc, source.as_str(), kind, offset),
        Err(_) => false,
    }
}

// Whether the source after its limits is refused at the offset of the `@`.
fn is_refused_at_mark(
    rt: &(impl Threads + Wait + Sync),
    alloc: Global,
    kind: &str,
    rest: &str,
) -> bool {
    match rest.split_once('@') {
        Some((before, after)) => is_refused_between(rt, alloc, kind, before, after),
        None => false,
    }
}

// The first source that is not refused so.
fn first_other_refusal(rt: &(impl Threads + Wait + Sync), alloc: Global) -> Option<usize> {
    for (index, (kind, rest)) in REFUSED.iter().enumerate() {
        if !is_refused_at_mark(rt, alloc, kind, rest) {
            return Some(index);
        }
    }
    None
}

#[test]
fn sources_are_refused(rt: HostRuntime) {
    let other = first_other_refusal(&rt, rt.alloc());
    expect_none(&rt, "REFUSED", other);
}

// Sources and their lines. A limit that is out of range precedes the unknown name.
static LINES: [(&str, &str); 7] = [
    ("", "refused source Unexpected at 0\n"),
    (
        "limits iterations 0, stages 1, steps 1, emits 0; pipe_while (x) { }",
        "refused check LimitOut 1\n",
    ),
    (
        "limits iterations 9223372036854775807, stages 4097, steps 1, emits 0; pipe_while (x) { }",
        "refused check LimitOut 1\n",
    ),
    (
        "limits iterations 1, stages 4097, steps 1, emits 0; pipe_while (x) { }",
        "refused check LimitOut 2\n",
    ),
    (
        "limits iterations 65536, stages 5, steps 1, emits 0; pipe_while (x) { }",
        "refused check LimitOut 3\n",
    ),
    (
        "limits iterations 64, stages 4096, steps 0, emits 0; pipe_while (x) { }",
        "refused check LimitOut 4\n",
    ),
    (
        "limits iterations 1, stages 1, steps 1, emits 1048577; pipe_while (x) { }",
        "refused check LimitOut 5\n",
    ),
];

// The first source that is not refused with its line.
fn first_other_line(rt: &(impl Threads + Wait + Sync), alloc: Global) -> Option<usize> {
    for (index, (source, line)) in LINES.iter().enumerate() {
        if !is_refused(rt, alloc, source, line) {
            return Some(index);
        }
    }
    None
}

#[test]
fn limits_out_of_range_are_refused(rt: HostRuntime) {
    let other = first_other_line(&rt, rt.alloc());
    expect_none(&rt, "LINES", other);
}

fn push_blanks(source: &mut String, count: usize) -> Result<(), AllocError> {
    for _ in 0..count {
        source.push_str(" ")?;
    }
    Ok(())
}

// Whether a source of `count` blanks is refused with this line.
fn blanks_are_refused(
    rt: &(impl Threads + Wait + Sync),
    alloc: Global,
    count: usize,
    line: &str,
) -> bool {
    let mut source = String::new(alloc);
    match push_blanks(&mut source, count) {
        Ok(()) => is_refused(rt, alloc, source.as_str(), line),
        Err(_) => false,
    }
}

// A source has at most 1,048,576 bytes.
#[test]
fn longest_sources_are_read(rt: HostRuntime) {
    let longest = "refused source Unexpected at 1048576\n";
    assert!(rt; blanks_are_refused(&rt, rt.alloc(), 1_048_576, longest));
    let longer = "refused source SourceTooLong\n";
    assert!(rt; blanks_are_refused(&rt, rt.alloc(), 1_048_577, longer));
}
