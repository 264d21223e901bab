//! One row of the table: the entries of a column, from the entries of the column on its left.

ghost use Rattle.std.specs.Prelude.{◌≡◌, ◌≤◌, ◌+◌, length, IfOk};
ghost use Rattle.pipe_model.specs.Races.Columns.{IsRising, node_at};
ghost use Rattle.pipe_model.specs.declared.node.Kind.TheVariants.{Zero};
ghost use Rattle.pipe_span.specs.Entries.{AreEntries, AreWeights, IsBounded, most_entries};

use crate::entry::{Entry, Row, entry_of};
use crate::left_parent::{count_up_to, left_parent};
use pipe_model::list::ListOf;
use pipe_model::memory::NoMemory;
use pipe_model::node::Node;
use std::alloc::Global;

/// Returns the entries of the right column, before which there are `first` instances in column
/// order. Takes time linear in both columns. Returns an error only if memory runs out.
pub fn row_of(
    alloc: Global,
    left: &[Node],
    left_row: &[Entry],
    right: &[Node],
    weights: &[u64],
    first: usize,
) -> Result<Row, NoMemory>
    requires weights { AreWeights weights.now }
    requires place { first + length right.now ≤ length weights.now }
    requires bounded { first + length right.now ≤ most_entries }
    requires left_row { IsBounded first left_row.now }
    requires whole { length left_row.now ≡ length left.now }
    requires left { IsRising left.now }
    requires right { IsRising right.now }
    requires zero { (node_at right.now 0).kind ≡ Zero }
    ensures whole { IfOk result (λ row. length row ≡ length right.now) }
    ensures entries { IfOk result (λ row. AreEntries left.now right.now left_row.now row weights.now first) }
    ensures below { IfOk result (λ row. IsBounded (first + length right.now) row) }
{
    let mut row = ListOf::with_capacity(alloc, right.len())?;
    let mut count = 0;
    for k in 0..right.len() {
        count = count_up_to(left, right, k, count);
        let parent = left_parent(left, right, k, count);
        row.push(entry_of(left_row, row.as_slice(), parent, weights, first + k))?;
    }
    Ok(row)
}
