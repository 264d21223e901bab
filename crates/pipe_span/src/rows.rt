//! The table of heaviest paths: a row for each column.

ghost use Rattle.std.specs.Prelude.{◌≡◌, ◌<◌, ◌≤◌, ◌+◌, ℕ, length, IfOk};
ghost use Rattle.pipe_model.specs.Races.Columns.{AreColumns, IsRising, nodes_at};
ghost use Rattle.pipe_span.specs.Entries.{AreEntries, AreWeights, IsBounded, most_entries};
ghost use Rattle.pipe_span.specs.HeaviestPaths.{instances_before};
ghost use Rattle.pipe_span.specs.Tables.{AreRows, left_nodes, left_row, row_at};

use crate::entry::{Entry, Row};
use crate::row::row_of;
use pipe_model::list::ListOf;
use pipe_model::memory::NoMemory;
use pipe_model::node::{Node, Nodes};
use std::alloc::Global;

// The instances of column `i`; none if there is no such column.
fn nodes_of(columns: &[Nodes], i: usize) -> &[Node]
    ensures { result.now ≡ nodes_at columns.now i }
{
    match columns.get(i) {
        Some(nodes) => nodes.as_slice(),
        None => &[],
    }
}

// The column on the left of column `i`; empty for column 0.
fn nodes_left_of(columns: &[Nodes], i: usize) -> &[Node]
    ensures { result.now ≡ left_nodes columns.now i }
{
    if i == 0 {
        return &[];
    }
    nodes_of(columns, i - 1)
}

/// Returns row `i`; an empty one if there is no such row.
pub fn entries_of(rows: &[Row], i: usize) -> &[Entry]
    ensures { result.now ≡ row_at rows.now i }
{
    match rows.get(i) {
        Some(row) => row.as_slice(),
        None => &[],
    }
}

// The row on the left of row `i`; empty for row 0.
fn entries_left_of(rows: &[Row], i: usize) -> &[Entry]
    ensures { result.now ≡ left_row rows.now i }
{
    if i == 0 {
        return &[];
    }
    entries_of(rows, i - 1)
}

/// Returns the table of all columns. Takes time linear in the number of instances. Returns an error
/// only if memory runs out.
pub fn rows_of(alloc: Global, columns: &[Nodes], weights: &[u64]) -> Result<ListOf<Row>, NoMemory>
    requires columns { AreColumns columns.now }
    requires rising { (i : ℕ) → IsRising (nodes_at columns.now i) }
    requires weights { AreWeights weights.now }
    requires whole { length weights.now ≡ instances_before columns.now (length columns.now) }
    requires bounded { instances_before columns.now (length columns.now) ≤ most_entries }
    ensures { IfOk result (λ rows. AreRows columns.now weights.now rows) }
{
    let mut rows: ListOf<Row> = ListOf::with_capacity(alloc, columns.len())?;
    let mut first = 0;
    for i in 0..columns.len() {
        let left = nodes_left_of(columns, i);
        let left_row = entries_left_of(rows.as_slice(), i);
        let right = nodes_of(columns, i);
        let row = row_of(alloc, left, left_row, right, weights, first)?;
        rows.push(row)?;
        first += right.len();
    }
    Ok(rows)
}
