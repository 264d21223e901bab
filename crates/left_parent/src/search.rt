//! The last number of a column that is at most another.

ghost use Rattle.std.specs.Prelude.{◌≡◌, ◌<◌, ◌≤◌, ◌^◌, ℕ, length, int_le, IfNone, IfSome};
ghost use Rattle.left_parent.specs.LastNumber.{AreRising, IsLastUpTo};

/// Returns the index of the last number that is at most `s`, or `None` if that index is at most
/// `joined` or there is none. For the stage numbers of the left column, the number that an instance
/// waits for, and the last index that precedes the instance above it, that is the index of its left
/// parent. The numbers must rise. Binary search.
pub fn find(numbers: &[i64], s: i64, joined: u32) -> Option<u32>
    requires rising { AreRising numbers.now }
    requires bounded { length numbers.now < 2 ^ 32 }
    ensures last { IfSome result (λ j. IsLastUpTo numbers.now j s) }
    ensures later { IfSome result (λ j. joined < j) }
    ensures none { IfNone result ((j : ℕ) → IsLastUpTo numbers.now j s → j ≤ joined) }
{
    let count = numbers.partition_point(
        |n: &i64| -> bool
            ensures { result ≡ int_le n.now s }
        { *n <= s },
    );
    if count == 0 {
        return None;
    }
    let last = (count - 1) as u32;
    (joined < last).then_some(last)
}
