//! The instance to which the heaviest path of all leads.

ghost use Rattle.std.specs.Prelude.{◌<◌, ℕ, length};
ghost use Rattle.pipe_span.specs.Tables.{AreFew, IsFirstHeaviest, IsHeaviestLast, row_at};

use crate::entry::{Entry, Row};
use crate::rows::entries_of;
use pipe_model::node::NodeId;

// The first index with the greatest weight.
fn first_heaviest(row: &[Entry]) -> usize
    requires { 0 < length row.now }
    ensures { IsFirstHeaviest row.now result }
{
    let mut most = 0;
    for k in 0..row.len() {
        if row[k].weight > row[most].weight {
            most = k;
        }
    }
    most
}

/// Returns the instance to which the heaviest path of all leads; of several, the first in column
/// order.
pub fn heaviest_last(rows: &[Row]) -> NodeId
    requires bounded { AreFew rows.now }
    requires nonempty { 0 < length rows.now }
    requires full { (i : ℕ) → i < length rows.now → 0 < length (row_at rows.now i) }
    ensures { IsHeaviestLast rows.now result }
{
    let mut column = 0;
    let mut index = first_heaviest(entries_of(rows, 0));
    for i in 0..rows.len() {
        let row = entries_of(rows, i);
        let most = first_heaviest(row);
        if row[most].weight > entries_of(rows, column)[index].weight {
            column = i;
            index = most;
        }
    }
    NodeId {
        iteration: column as u32,
        index: index as u32,
    }
}
