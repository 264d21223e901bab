//! Left parents: the predecessor of an instance in the column on its left, by counting along both
//! columns.

ghost use Rattle.std.specs.Prelude.{◌≡◌, ◌<◌, ◌≤◌, ℕ, ◌≤ℤ◌, length};
ghost use Rattle.pipe_model.specs.Races.Columns.{IsRising, node_at};
ghost use Rattle.pipe_model.specs.declared.node.Kind.TheVariants.{Zero};
ghost use Rattle.pipe_span.specs.Entries.{IsCountUpTo, IsLeft};

use pipe_model::node::{Kind, Node};

// How many instances of the left column have numbers up to that of instance `k` of the right
// column, if the first `start` have.
pub(crate) fn count_up_to(left: &[Node], right: &[Node], k: usize, start: usize) -> usize
    requires rising { IsRising left.now }
    requires within { k < length right.now }
    requires start { start ≤ length left.now }
    requires before { (n : ℕ) → n < start → (node_at left.now n).number ≤ℤ (node_at right.now k).number }
    ensures { IsCountUpTo left.now (node_at right.now k).number result }
{
    let mut count = start;
    while count < left.len() && left[count].number <= right[k].number {
        count += 1;
    }
    count
}

// The left parent of instance `k`, if it has one; `count` instances of the left column have numbers
// up to its own.
pub(crate) fn left_parent(left: &[Node], right: &[Node], k: usize, count: usize) -> Option<usize>
    requires rising { IsRising left.now }
    requires first { (node_at right.now 0).kind ≡ Zero }
    requires within { k < length right.now }
    requires counted { IsCountUpTo left.now (node_at right.now k).number count }
    ensures { IsLeft left.now right.now k result }
{
    if k == 0 {
        if left.is_empty() {
            return None;
        }
        return Some(0);
    }
    match right[k].kind {
        Kind::Wait => {
            if count == 0 {
                return None;
            }
            Some(count - 1)
        }
        Kind::Zero | Kind::Continue => None,
    }
}
