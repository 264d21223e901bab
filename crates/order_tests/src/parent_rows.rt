//! Columns of stage numbers with the left parents that are found in them.

ghost use Rattle.left_parent.specs.LastNumber.{AreRising};
ghost use Rattle.std.specs.Prelude.{◌<◌, ◌<ℤ◌, ℕ, length, pos, slice_index_or};
ghost use Rattle.std.specs.Bool.{OnTrue};

use left_parent::search::find;

// Whether the number at index `k` is greater than all before it.
fn is_above(numbers: &[i64], k: usize) -> bool
    requires { k < length numbers.now }
    ensures { OnTrue result ((j : ℕ) → j < k → slice_index_or numbers.now j (pos 0) <ℤ slice_index_or numbers.now k (pos 0)) }
{
    for j in 0..k {
        if numbers[k] <= numbers[j] {
            return false;
        }
    }
    true
}

fn are_rising(numbers: &[i64]) -> bool
    ensures { OnTrue result (AreRising numbers.now) }
{
    for k in 0..numbers.len() {
        if !is_above(numbers, k) {
            return false;
        }
    }
    true
}

// The numbers of the left column, the number that an instance waits for, the last index that
// precedes the instance above it, and the index of its left parent.
const ROWS: [(&[i64], i64, u32, Option<u32>); 4] = [
    (&[0, 5], 5, 0, Some(1)),
    (&[0, 5], 6, 1, None),
    (&[0, 5], 4, 0, None),
    (&[0, 1, 2], 7, 0, Some(2)),
];

// Whether this is the left parent that is found.
fn is_parent(numbers: &[i64], s: i64, joined: u32, parent: Option<u32>) -> bool {
    are_rising(numbers) && numbers.len() < 10 && find(numbers, s, joined) == parent
}

// The first row with another left parent.
fn first_other() -> Option<usize> {
    for (index, (numbers, s, joined, parent)) in ROWS.iter().enumerate() {
        if !is_parent(numbers, *s, *joined, *parent) {
            return Some(index);
        }
    }
    None
}

#[test]
fn left_parents_are_found(rt: HostRuntime) {
    let other = first_other();
    assert!(rt; other.is_none(), "{other:?}");
}
