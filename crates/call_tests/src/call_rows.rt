// Calls with their words and files, the reads and writes of which may fail, and canonical texts.

use crate::cases::{
    BLANK, CallRow, Case, FORMAT, RUN, SERIAL, case_of, ends, expect_none, first_other,
    first_other_call,
};
use std::alloc::Global;
use std::sync::Wait;
use std::thread::Threads;

const COUNT_TO_TWO: &str =
    "limits iterations 2, stages 1, steps 50, emits 2; cell n = 0; pipe_while (n < 2) { n = n + 1; emit n; }";

// Wrong words, missing files, and inputs with a fault, in the order of the refusals; and then options of
// `run`, which do not change the result.
static CALLS: [CallRow<'static>; 26] = [
    (&[], COUNT_TO_TWO, 1, "refused usage\n"),
    (&["run"], COUNT_TO_TWO, 1, "refused usage\n"),
    (&["run", "a.pipe"], COUNT_TO_TWO, 1, "refused usage\n"),
    (
        &["run", "a.pipe", "a.in", "4"],
        COUNT_TO_TWO,
        1,
        "refused usage\n",
    ),
    (
        &["runs", "a.pipe", "a.in"],
        COUNT_TO_TWO,
        1,
        "refused usage\n",
    ),
    (
        &["run", "a.pipe", "a.in", "--workers", "65"],
        COUNT_TO_TWO,
        1,
        "refused usage\n",
    ),
    (
        &["run", "a.pipe", "a.in", "--workers=0"],
        COUNT_TO_TWO,
        1,
        "refused usage\n",
    ),
    (
        &["run", "a.pipe", "a.in", "--throttle=08"],
        COUNT_TO_TWO,
        1,
        "refused usage\n",
    ),
    (
        &["format", "a.pipe", "a.in"],
        COUNT_TO_TWO,
        1,
        "refused usage\n",
    ),
    (&["format"], COUNT_TO_TWO, 1, "refused usage\n"),
    (&["formats", "a.pipe"], COUNT_TO_TWO, 1, "refused usage\n"),
    (
        &["format", "b.pipe"],
        COUNT_TO_TWO,
        1,
        "refused missing b.pipe\n",
    ),
    (
        &["format", "a.in"],
        COUNT_TO_TWO,
        1,
        "refused source Unexpected at 0\n",
    ),
    (
        &["run", "b.pipe", "b.in"],
        COUNT_TO_TWO,
        1,
        "refused missing b.pipe\n",
    ),
    (
        &["run", "a.pipe", "b.in"],
        COUNT_TO_TWO,
        1,
        "refused missing b.in\n",
    ),
    (
        &["run", "a.in", "b.in"],
        COUNT_TO_TWO,
        1,
        "refused source Unexpected at 0\n",
    ),
    (
        &["run", "a.pipe", "a.pipe"],
        COUNT_TO_TWO,
        1,
        "refused input BadByte at 0\n",
    ),
    (&["serial", "a.pipe"], COUNT_TO_TWO, 1, "refused usage\n"),
    (
        &["serials", "a.pipe", "a.in"],
        COUNT_TO_TWO,
        1,
        "refused usage\n",
    ),
    (
        &["serial", "b.pipe", "b.in"],
        COUNT_TO_TWO,
        1,
        "refused missing b.pipe\n",
    ),
    (
        &["serial", "a.pipe", "b.in"],
        COUNT_TO_TWO,
        1,
        "refused missing b.in\n",
    ),
    (
        &["serial", "a.in", "b.in"],
        COUNT_TO_TWO,
        1,
        "refused source Unexpected at 0\n",
    ),
    (
        &["serial", "a.pipe", "a.pipe"],
        COUNT_TO_TWO,
        1,
        "refused input BadByte at 0\n",
    ),
    (
        &["run", "a.pipe", "a.in", "--workers", "64"],
        COUNT_TO_TWO,
        0,
        "1\n2\n",
    ),
    (
        &["run", "--throttle=1", "a.pipe", "a.in"],
        COUNT_TO_TWO,
        0,
        "1\n2\n",
    ),
    (
        &["run", "a.pipe", "--workers=1", "a.in", "--throttle", "1024"],
        COUNT_TO_TWO,
        0,
        "1\n2\n",
    ),
];

#[test]
fn words_have_their_calls(rt: HostRuntime) {
    let other = first_other_call(&rt, rt.alloc(), &CALLS);
    expect_none(&rt, "CALLS", other);
}

const TAKE_TWO: &str =
    "limits iterations 4, stages 1, steps 50, emits 4; cell n = 0; pipe_while (n < 2) { n = n + 1; emit take(); }";

const TAKE_ALL: &str =
    "limits iterations 9, stages 2, steps 50, emits 9; cell s = 0; pipe_while (more()) { let x = take(); pipe_wait(1); s = s + x; emit s; }";

const RACING_TAKES: &str =
    "limits iterations 9, stages 2, steps 50, emits 9; cell n = 0; pipe_while (n < 2) { n = n + 1; pipe_continue(1); let x = take(); }";

// A source, an input, and the status and text of the call: inputs with a fault, and programs that read their
// input.
type InputRow<'a> = (&'a str, &'a str, u8, &'a str);

static INPUTS: [InputRow<'static>; 9] = [
    (COUNT_TO_TWO, "1 2 x", 1, "refused input BadByte at 4\n"),
    (COUNT_TO_TWO, "-", 1, "refused input BadByte at 1\n"),
    (
        COUNT_TO_TWO,
        "5 9223372036854775808x",
        1,
        "refused input TooWide at 2\n",
    ),
    (COUNT_TO_TWO, "7-", 1, "refused input BadByte at 1\n"),
    (TAKE_TWO, "5", 3, "5\ntrap InputEnd at 1/0\n"),
    (TAKE_TWO, " \t\r\n", 3, "trap InputEnd at 0/0\n"),
    (TAKE_TWO, "007 -8\n9", 0, "7\n-8\n"),
    (TAKE_ALL, "3 4 5\n", 0, "3\n7\n12\n"),
    (RACING_TAKES, "3 4", 2, "race input write 0/1 read 1/1\n"),
];

// Whether the call with these words, over the source and the input of the row, ends as the row says.
fn input_ends<'a>(
    rt: &(impl Threads + Wait + Sync),
    alloc: Global,
    words: &'a [&'a str],
    row: &InputRow<'a>,
) -> bool {
    let (source, input, status, text) = *row;
    ends(
        rt,
        alloc,
        &Case {
            input,
            status,
            text,
            ..case_of(words, source)
        },
    )
}

// The first input with which the call ends otherwise.
fn first_other_input(
    rt: &(impl Threads + Wait + Sync),
    alloc: Global,
    words: &[&str],
) -> Option<usize> {
    for (index, row) in INPUTS.iter().enumerate() {
        if !input_ends(rt, alloc, &*words, row) {
            return Some(index);
        }
    }
    None
}

#[test]
fn inputs_are_read(rt: HostRuntime) {
    let by_run = first_other_input(&rt, rt.alloc(), RUN);
    expect_none(&rt, "INPUTS by run", by_run);
    let by_serial = first_other_input(&rt, rt.alloc(), SERIAL);
    expect_none(&rt, "INPUTS by serial", by_serial);
}

// The number of reads of the source of `COUNT_TO_TWO`; the last one finds its end.
const SOURCE_READS: u32 = (COUNT_TO_TWO.len() as u32 + 6) / 7 + 1;

// How a call ends in which this read fails.
fn end_after_read(number: u32) -> (u8, &'static str) {
    if number < SOURCE_READS {
        (4, "fault read a.pipe\n")
    } else if number == SOURCE_READS {
        (4, "fault read a.in\n")
    } else {
        (0, "1\n2\n")
    }
}

// Whether the call in which these reads fail ends like this.
fn reads_end<'a>(
    rt: &(impl Threads + Wait + Sync),
    alloc: Global,
    words: &'a [&'a str],
    read_fails: &'a [u32],
    end: (u8, &'a str),
) -> bool {
    let (status, text) = end;
    ends(
        rt,
        alloc,
        &Case {
            read_fails,
            status,
            text,
            ..case_of(words, COUNT_TO_TWO)
        },
    )
}

// The first read after which the call ends otherwise.
fn first_other_read(
    rt: &(impl Threads + Wait + Sync),
    alloc: Global,
    words: &[&str],
) -> Option<usize> {
    for number in 0..SOURCE_READS + 2 {
        if !reads_end(rt, alloc, &*words, &[number], end_after_read(number)) {
            return Some(number as usize);
        }
    }
    None
}

#[test]
fn each_read_may_fail(rt: HostRuntime) {
    let of_run = first_other_read(&rt, rt.alloc(), RUN);
    expect_none(&rt, "a read of run fails", of_run);
    let of_serial = first_other_read(&rt, rt.alloc(), SERIAL);
    expect_none(&rt, "a read of serial fails", of_serial);
}

const COUNTS: Case<'static> = Case {
    source: COUNT_TO_TWO,
    ..BLANK
};

// Reads and writes that fail, each alone, and both.
static FAULTS: [Case<'static>; 7] = [
    Case {
        write_fails: &[0],
        status: 5,
        text: "",
        ..COUNTS
    },
    Case {
        write_fails: &[1],
        status: 5,
        text: "1\n",
        ..COUNTS
    },
    // There is no such write.
    Case {
        write_fails: &[2],
        status: 0,
        text: "1\n2\n",
        ..COUNTS
    },
    Case {
        words: FORMAT,
        read_fails: &[1],
        status: 4,
        text: "fault read a.pipe\n",
        ..COUNTS
    },
    // A read of a missing file.
    Case {
        words: &["run", "b.pipe", "a.in"],
        read_fails: &[0],
        status: 4,
        text: "fault read b.pipe\n",
        ..COUNTS
    },
    Case {
        read_fails: &[0],
        write_fails: &[1],
        status: 5,
        text: "fa",
        ..COUNTS
    },
    Case {
        read_fails: &[0],
        write_fails: &[0],
        status: 5,
        text: "",
        ..COUNTS
    },
];

#[test]
fn reads_and_writes_may_fail(rt: HostRuntime) {
    let other = first_other(&rt, rt.alloc(), &FAULTS);
    expect_none(&rt, "FAULTS", other);
}

const SUMS: &str =
    "limits iterations 8, stages 4, steps 100, emits 8; cell n = 0; cell s = 0; pipe_while (n < 3) { n = n + 1; let t = n; pipe_wait(1); s = s + t; emit s; }";

const SUMS_TEXT: &str =
    "limits iterations 8, stages 4, steps 100, emits 8;\ncell n = 0;\ncell s = 0;\npipe_while (n < 3) {\n  n = n + 1;\n  let t = n;\n  pipe_wait(1);\n  s = s + t;\n  emit s;\n}\n";

const ARRAY: &str =
    "limits iterations 1, stages 1, steps 1, emits 1; cell d[2]=-7; init{d[0]=1;} pipe_while (d[1]) { if (1) { } else { emit -(2*(d[0]+1)); } } // end";

const ARRAY_TEXT: &str =
    "limits iterations 1, stages 1, steps 1, emits 1;\ncell d[2] = -7;\ninit {\n  d[0] = 1;\n}\npipe_while (d[1]) {\n  if (1) {\n  } else {\n    emit -(2 * (d[0] + 1));\n  }\n}\n";

// Sources with their canonical texts. The last is canonical itself.
static TEXTS: [CallRow<'static>; 3] = [
    (FORMAT, SUMS, 0, SUMS_TEXT),
    (FORMAT, ARRAY, 0, ARRAY_TEXT),
    (FORMAT, ARRAY_TEXT, 0, ARRAY_TEXT),
];

#[test]
fn canonical_texts_are_printed(rt: HostRuntime) {
    let other = first_other_call(&rt, rt.alloc(), &TEXTS);
    expect_none(&rt, "TEXTS", other);
}
