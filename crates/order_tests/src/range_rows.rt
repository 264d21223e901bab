//! The least sparse range of labels in a crowded list, and the labels that its elements are given.

ghost use Rattle.std.specs.Prelude.{IfOk};
ghost use Rattle.om_relabel.specs.LabelledLinks.{AreLabelled};

use om_relabel::label_range::{LabelRange, choose_range};
use om_relabel::links::{END, Links};
use om_relabel::spreading::spread;
use pipe_model::memory::NoMemory;
use std::alloc::Global;

// The list after 62 insertions after element 0: the elements 0, 62, 61, .., 1. Each new element has half
// of the label of the one before it.
const NEXT: [u32; 63] = [
    62, END, 1, 2, 3, 4, 5, 6, 7, 8, 9, 10, 11, 12, 13, 14, 15, 16, 17, 18, 19, 20, 21, 22, 23, 24,
    25, 26, 27, 28, 29, 30, 31, 32, 33, 34, 35, 36, 37, 38, 39, 40, 41, 42, 43, 44, 45, 46, 47, 48,
    49, 50, 51, 52, 53, 54, 55, 56, 57, 58, 59, 60, 61,
];

const BEFORE: [u32; 63] = [
    END, 2, 3, 4, 5, 6, 7, 8, 9, 10, 11, 12, 13, 14, 15, 16, 17, 18, 19, 20, 21, 22, 23, 24, 25,
    26, 27, 28, 29, 30, 31, 32, 33, 34, 35, 36, 37, 38, 39, 40, 41, 42, 43, 44, 45, 46, 47, 48, 49,
    50, 51, 52, 53, 54, 55, 56, 57, 58, 59, 60, 61, 62, 0,
];

const LABELS: [u64; 63] = [
    0,
    2305843009213693952,
    1152921504606846976,
    576460752303423488,
    288230376151711744,
    144115188075855872,
    72057594037927936,
    36028797018963968,
    18014398509481984,
    9007199254740992,
    4503599627370496,
    2251799813685248,
    1125899906842624,
    562949953421312,
    281474976710656,
    140737488355328,
    70368744177664,
    35184372088832,
    17592186044416,
    8796093022208,
    4398046511104,
    2199023255552,
    1099511627776,
    549755813888,
    274877906944,
    137438953472,
    68719476736,
    34359738368,
    17179869184,
    8589934592,
    4294967296,
    2147483648,
    1073741824,
    536870912,
    268435456,
    134217728,
    67108864,
    33554432,
    16777216,
    8388608,
    4194304,
    2097152,
    1048576,
    524288,
    262144,
    131072,
    65536,
    32768,
    16384,
    8192,
    4096,
    2048,
    1024,
    512,
    256,
    128,
    64,
    32,
    16,
    8,
    4,
    2,
    1,
];

fn crowded(alloc: Global) -> Result<Links, NoMemory>
    ensures { IfOk result (λ links. AreLabelled links) }
{
    Ok(Links {
        next: NEXT.to_vec(alloc)?,
        prev: BEFORE.to_vec(alloc)?,
        label: LABELS.to_vec(alloc)?,
    })
}

// The least sparse range around label 0.
const CHOSEN: LabelRange = LabelRange {
    first: 0,
    count: 4,
    low: 0,
    bits: 3,
};

fn is_chosen(alloc: Global) -> bool {
    match crowded(alloc) {
        Ok(links) => choose_range(&links, 0) == CHOSEN,
        Err(NoMemory) => false,
    }
}

// Whether the elements of `CHOSEN` are given these labels.
fn are_spread() -> bool {
    spread(&CHOSEN, 0) == 0
        && spread(&CHOSEN, 1) == 2
        && spread(&CHOSEN, 2) == 4
        && spread(&CHOSEN, 3) == 6
}

// Of the aligned ranges around label 0, those of 2 and of 4 labels have too many elements.
#[test]
fn labels_are_spread_over_the_least_sparse_range(rt: HostRuntime) {
    assert!(rt; is_chosen(rt.alloc()) && are_spread());
}
