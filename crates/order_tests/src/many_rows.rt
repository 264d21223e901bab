//! Two million insertions in four patterns: the labels rise, and stay below their bound.

ghost use Rattle.std.specs.Prelude.{◌<◌, ◌≤◌};

use om_list::om_list::OmList;
use pipe_model::memory::NoMemory;
use std::alloc::Global;

// The number of insertions; the elements are numbered from 0 to this.
const MANY: u32 = 2_000_000;

const HALF: u32 = 1_000_000;

const QUARTER: u32 = 500_000;

// Where the elements are inserted.
#[derive(Clone, Copy)]
enum Pattern {
    AtEnd,
    // After element 0.
    AtFront,
    // Half of them at the end, and then the others after one in the middle of those.
    InMiddle,
    // In turn at the end and after element 0.
    InTurn,
}

const PATTERNS: [Pattern; 4] = [
    Pattern::AtEnd,
    Pattern::AtFront,
    Pattern::InMiddle,
    Pattern::InTurn,
];

// The element after which insertion `k` is made, counted from 0.
fn place(pattern: Pattern, k: u32) -> u32 {
    match pattern {
        Pattern::AtEnd => k,
        Pattern::AtFront => 0,
        Pattern::InMiddle => { if k < HALF { k } else { QUARTER } }
        Pattern::InTurn => { if k % 2 == 0 { k.saturating_sub(1) } else { 0 } }
    }
}

// The element at index `n` of the list in the end.
fn element_at(pattern: Pattern, n: u32) -> u32
    requires { n ≤ MANY }
{
    match pattern {
        Pattern::AtEnd => n,
        Pattern::AtFront => { if n == 0 { 0 } else { MANY + 1 - n } }
        Pattern::InMiddle => {
            if n <= QUARTER {
                n
            } else if n <= QUARTER + HALF {
                MANY + QUARTER + 1 - n
            } else {
                n - HALF
            }
        }
        Pattern::InTurn => {
            if n == 0 {
                0
            } else if n <= HALF {
                MANY + 2 - 2 * n
            } else {
                2 * (n - HALF) - 1
            }
        }
    }
}

fn list_with(alloc: Global, pattern: Pattern) -> Result<OmList, NoMemory> {
    let mut list = OmList::new(alloc, MANY + 1)?;
    for k in 0..MANY {
        let x = place(pattern, k);
        if x < list.len() && list.len() <= MANY {
            list.insert_after(x);
        }
    }
    Ok(list)
}

// Whether element `n` of the list has a lesser label than the next one, which is below the bound.
fn rises_at(list: &OmList, pattern: Pattern, n: u32) -> bool
    requires { n < MANY }
{
    let (x, y) = (element_at(pattern, n), element_at(pattern, n + 1));
    if x >= list.len() || y >= list.len() {
        return false;
    }
    list.label(x) < list.label(y) && list.label(y) < 1 << 62
}

// The first of 2,000 samples at which the labels do not rise.
fn first_fall(list: &OmList, pattern: Pattern) -> Option<u32> {
    for sample in 0..2000 {
        if !rises_at(list, pattern, 1000 * sample) {
            return Some(sample);
        }
    }
    None
}

fn first_fall_of(alloc: Global, pattern: Pattern) -> Option<u32> {
    match list_with(alloc, pattern) {
        Ok(list) => {
            let fall = first_fall(&list, pattern);
            drop(list);
            fall
        }
        Err(NoMemory) => Some(MANY),
    }
}

// The first pattern and sample at which the labels do not rise; `MANY` if memory runs out.
fn first_fall_of_all(alloc: Global) -> Option<(usize, u32)> {
    for (number, pattern) in PATTERNS.iter().enumerate() {
        if let Some(sample) = first_fall_of(alloc, *pattern) {
            return Some((number, sample));
        }
    }
    None
}

#[test]
fn labels_rise(rt: HostRuntime) {
    let fall = first_fall_of_all(rt.alloc());
    assert!(rt; fall.is_none(), "{fall:?}");
}
