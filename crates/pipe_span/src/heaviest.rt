//! Work, span and the heaviest path of columns of stage instances.

ghost use Rattle.std.specs.Prelude.{◌≡◌, ◌<◌, ◌≤◌, ◌*◌, ℕ, length, IfOk};
ghost use Rattle.std.specs.List.{sum};
ghost use Rattle.pipe_model.specs.Races.Columns.{AreColumns, IsRising, nodes_at, node_columns};
ghost use Rattle.pipe_span.specs.Entries.{AreWeights, most_entries, most_weight};
ghost use Rattle.pipe_span.specs.HeaviestPaths.{instances_before};
ghost use Rattle.pipe_span.specs.WorkAndSpan.{AreSteps, IsHeaviest, IsWorkAndSpan, weights_of};

use crate::last::heaviest_last;
use crate::rows::{entries_of, rows_of};
use crate::trace::traced;
use pipe_model::column::{Column, Columns};
use pipe_model::list::{ListOf, Numbers};
use pipe_model::memory::NoMemory;
use pipe_model::node::{NodeId, NodeIds, Nodes};
use std::alloc::Global;

/// Work and span of a computation dag, and its heaviest path (Blumofe and Leiserson, "Scheduling
/// Multithreaded Computations by Work Stealing", JACM 1999).
#[derive(Drop)]
pub struct Span {
    /// The steps of all instances together.
    pub work: i64,
    /// The steps of the instances of the heaviest path together.
    pub span: i64,
    /// The instances of the heaviest path, first instance first; empty without columns.
    pub path: NodeIds,
}

// The columns without their ends.
fn copied_columns(alloc: Global, columns: &[Column]) -> Result<ListOf<Nodes>, NoMemory>
    ensures { IfOk result (λ copies. copies ≡ node_columns columns.now) }
{
    let mut copies = ListOf::with_capacity(alloc, columns.len())?;
    for column in columns {
        let nodes = Vec::from_slice(alloc, column.nodes.as_slice())?;
        copies.push(ListOf::from_vec(nodes))?;
    }
    Ok(copies)
}

// The steps as weights.
fn weights(alloc: Global, steps: &[i64]) -> Result<Vec<u64>, NoMemory>
    requires { AreSteps steps.now }
    ensures { IfOk result (λ weights. weights.items ≡ weights_of steps.now) }
{
    let mut weights = Vec::with_capacity(alloc, steps.len())?;
    for step in steps {
        weights.push(*step as u64)?;
    }
    Ok(weights)
}

// The sum of the weights.
fn sum_of(weights: &[u64]) -> u64
    requires weights { AreWeights weights.now }
    requires bounded { length weights.now ≤ most_entries }
    ensures sum { result ≡ sum weights.now }
    ensures below { result ≤ most_weight * most_entries }
{
    let mut total = 0;
    for weight in weights {
        total += *weight;
    }
    total
}

// The weight of the heaviest path, and its instances.
fn heaviest_path(
    alloc: Global,
    columns: &[Nodes],
    weights: &[u64],
) -> Result<(u64, Vec<NodeId>), NoMemory>
    requires nonempty { 0 < length columns.now }
    requires columns { AreColumns columns.now }
    requires rising { (i : ℕ) → IsRising (nodes_at columns.now i) }
    requires weights { AreWeights weights.now }
    requires whole { length weights.now ≡ instances_before columns.now (length columns.now) }
    requires bounded { instances_before columns.now (length columns.now) ≤ most_entries }
    ensures heaviest { IfOk result (λ r. IsHeaviest columns.now weights.now r.1.items r.0) }
    ensures below { IfOk result (λ r. r.0 ≤ most_weight * most_entries) }
{
    let table = rows_of(alloc, columns, weights)?;
    let rows = table.as_slice();
    let last = heaviest_last(rows);
    let weight = entries_of(rows, last.iteration as usize)[last.index as usize].weight;
    let path = traced(alloc, columns, weights, rows, last)?;
    Ok((weight, path))
}

/// Returns work, span and the heaviest path of the dag of the columns.
///
/// Each column has an instance, its first has kind `Zero`, and stage numbers rise along it. `steps`
/// has one number from 0 to 1,000,000 for each instance, column after column, at most 2^32 in all.
///
/// A path is a list of instances, each with an edge of the dag to the next. The returned one is
/// traced back from its last instance, and no path is heavier. If equally heavy paths lead to
/// several instances, the first of these in column order is the last of the path; if equally heavy
/// paths come from two predecessors, the one in the same column is on the path. Takes time and
/// memory linear in the number of instances.
///
/// # Errors
///
/// Only out of memory.
pub fn heaviest(alloc: Global, columns: &Columns, steps: &Numbers) -> Result<Span, NoMemory>
    requires columns { AreColumns (node_columns columns.now) }
    requires rising { (i : ℕ) → IsRising (nodes_at (node_columns columns.now) i) }
    requires whole { length steps.now ≡ instances_before (node_columns columns.now) (length columns.now) }
    requires bounded { length steps.now ≤ most_entries }
    requires steps { AreSteps steps.now }
    ensures { IfOk result (λ span. IsWorkAndSpan (node_columns columns.now) steps.now span) }
{
    let copies = copied_columns(alloc, columns.as_slice())?;
    let weights = weights(alloc, steps.as_slice())?;
    let work = sum_of(weights.as_slice()) as i64;
    if copies.is_empty() {
        return Ok(Span {
            work,
            span: 0,
            path: ListOf::new(alloc),
        });
    }
    let (span, path) = heaviest_path(alloc, copies.as_slice(), weights.as_slice())?;
    Ok(Span {
        work,
        span: span as i64,
        path: ListOf::from_vec(path),
    })
}
