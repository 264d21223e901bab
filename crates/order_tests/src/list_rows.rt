//! Lists for order maintenance: small ones with their logs, and one with many elements.

ghost use Rattle.std.specs.Prelude.{◌≡◌, ◌≤◌, IfOk, length};

use om_list::om_list::OmList;
use pipe_model::memory::NoMemory;
use std::alloc::Global;

// Logs of insertions with their lists: down-first and right-first of two columns that both wait for
// stage 1, whose instances start head by head.
const LISTS: [([u32; 8], [u32; 9]); 2] = [
    ([0, 1, 2, 3, 1, 5, 3, 7], [0, 1, 5, 6, 2, 3, 7, 8, 4]),
    ([0, 1, 1, 3, 2, 5, 5, 7], [0, 1, 3, 4, 2, 5, 7, 8, 6]),
];

// The list of a log, as far as the log names elements of the list.
fn list_of(alloc: Global, log: &[u32]) -> Result<OmList, NoMemory> {
    let mut list = OmList::new(alloc, 100)?;
    for x in log {
        if *x < list.len() && list.len() < 100 {
            list.insert_after(*x);
        }
    }
    Ok(list)
}

// Whether each element is before the next one, and not after it.
fn are_in_order(list: &OmList, elements: &[u32]) -> bool {
    for k in 1..elements.len() {
        let (x, y) = (elements[k - 1], elements[k]);
        if x >= list.len() || y >= list.len() || !list.before(x, y) || list.before(y, x) {
            return false;
        }
    }
    true
}

fn is_list_of(alloc: Global, log: &[u32], elements: &[u32]) -> bool {
    match list_of(alloc, log) {
        Ok(list) => {
            let found = list.len() == 9 && are_in_order(&list, elements);
            drop(list);
            found
        }
        Err(NoMemory) => false,
    }
}

// The first log that makes another list.
fn first_other_log(alloc: Global) -> Option<usize> {
    for (index, (log, elements)) in LISTS.iter().enumerate() {
        if !is_list_of(alloc, log, elements) {
            return Some(index);
        }
    }
    None
}

#[test]
fn logs_make_their_lists(rt: HostRuntime) {
    let other = first_other_log(rt.alloc());
    assert!(rt; other.is_none(), "{other:?}");
}

const LAST: u32 = 100_000;

// A list of `count` elements after element 0, each of which was inserted right after it.
fn inserted_after_first(alloc: Global, count: u32) -> Result<OmList, NoMemory>
    requires { count ≤ LAST }
    ensures { IfOk result (λ list. length list.log ≡ count) }
{
    let mut list = OmList::new(alloc, LAST + 1)?;
    for _done in 0..count {
        list.insert_after(0);
    }
    Ok(list)
}

// Whether the elements have these labels.
fn has_labels(list: &OmList, labels: &[(u32, u64)]) -> bool {
    for (x, label) in labels {
        if *x >= list.len() || list.label(*x) != *label {
            return false;
        }
    }
    true
}

// Whether each element but 0 and 1 has a lesser label than the one before it.
fn labels_fall(list: &OmList) -> bool {
    for x in 2..list.len() {
        if list.label(x) >= list.label(x - 1) {
            return false;
        }
    }
    true
}

// The first of 62 elements that has not half of the label of the one before it.
fn first_not_halved(list: &OmList) -> Option<u32>
    requires { length list.now.log ≡ 62 }
{
    for k in 0..62 {
        if list.label(k + 1) != (1 << 61) >> k {
            return Some(k);
        }
    }
    None
}

// The same of 62 insertions; 62 if memory runs out.
fn first_other_of_62(alloc: Global) -> Option<u32> {
    match inserted_after_first(alloc, 62) {
        Ok(list) => {
            let other = first_not_halved(&list);
            drop(list);
            other
        }
        Err(NoMemory) => Some(62),
    }
}

// The first 62 elements halve the labels that are free.
#[test]
fn labels_are_halved(rt: HostRuntime) {
    let other = first_other_of_62(rt.alloc());
    assert!(rt; other.is_none(), "{other:?}");
}

// The labels of some elements after 63 insertions.
const NEW_LABELS: [(u32, u64); 6] = [(0, 0), (63, 1), (62, 2), (61, 4), (60, 6), (59, 8)];

fn new_labels_are_given(alloc: Global) -> bool {
    match inserted_after_first(alloc, 63) {
        Ok(list) => {
            let found = has_labels(&list, &NEW_LABELS);
            drop(list);
            found
        }
        Err(NoMemory) => false,
    }
}

// The next one has element 0 and the last three labelled anew, in the range of the labels 0 to 7.
#[test]
fn a_crowded_range_is_labelled_anew(rt: HostRuntime) {
    assert!(rt; new_labels_are_given(rt.alloc()));
}

// Whether the last element is before the first one that was inserted, and the labels say so.
fn is_reversed(list: &OmList) -> bool
    requires { length list.now.log ≡ LAST }
{
    list.before(0, 1)
        && list.before(LAST, 1)
        && !list.before(1, LAST)
        && list.label(0) < list.label(LAST)
        && labels_fall(list)
}

fn most_are_reversed(alloc: Global) -> bool {
    match inserted_after_first(alloc, LAST) {
        Ok(list) => {
            let found = is_reversed(&list);
            drop(list);
            found
        }
        Err(NoMemory) => false,
    }
}

#[test]
fn later_elements_are_before_earlier_ones(rt: HostRuntime) {
    assert!(rt; most_are_reversed(rt.alloc()));
}
