//! Jumps: tables that move the indices of a column several columns further, so that a long way
//! takes few look-ups.

ghost use Rattle.std.specs.Prelude.{◌≡◌, ◌+◌, ◌<◌, ◌≤◌, IfOk, length};
ghost use Rattle.pipe_model.specs.Races.Columns.{nodes_at};
ghost use Rattle.dag_build.specs.Jumps.{AreJumps, AreLevels, IsJumpTable, MovesTo};
ghost use Rattle.dag_build.specs.NodeColumns.{AreRising};

use dag_landings::landing::landings;
use pipe_model::list::ListOf;
use pipe_model::memory::NoMemory;
use pipe_model::node::{Node, Nodes};
use std::alloc::Global;

/// For each column that has another `step` columns further, the indices to which its own move
/// there.
#[derive(Drop)]
pub struct Jumps {
    pub step: usize,
    pub tables: ListOf<ListOf<usize>>,
}

/// Returns the instances of column `i`; none if there is no such column.
pub fn nodes_of(columns: &[Nodes], i: usize) -> &[Node]
    ensures { result.now ≡ nodes_at columns.now i }
{
    match columns.get(i) {
        Some(nodes) => nodes.as_slice(),
        None => &[],
    }
}

// The index to which an index of column `i` moves one step further.
fn jump(columns: &[Nodes], jumps: &Jumps, i: usize, place: usize) -> usize
    requires jumps { AreJumps columns.now jumps.now }
    requires within { i + jumps.now.step < length columns.now }
    ensures { MovesTo columns.now i place (i + jumps.now.step) result }
{
    let table = &jumps.tables.as_slice()[i];
    match table.as_slice().get(place) {
        Some(landing) => *landing,
        None => nodes_of(columns, i + jumps.step).len(),
    }
}

/// Moves an index of column `from` in steps of these jumps as near to column `to` as they lead.
/// Returns the column that is reached, and the index there.
pub fn jumped(
    columns: &[Nodes],
    jumps: &Jumps,
    from: usize,
    place: usize,
    to: usize,
) -> (usize, usize)
    requires jumps { AreJumps columns.now jumps.now }
    requires order { from ≤ to }
    requires within { to < length columns.now }
    ensures moves { MovesTo columns.now from place result.0 result.1 }
    ensures order { result.0 ≤ to }
    ensures near { to < result.0 + jumps.now.step }
{
    let mut column = from;
    let mut front = place;
    while jumps.step <= to - column {
        front = jump(columns, jumps, column, front);
        column += jumps.step;
    }
    (column, front)
}

// The jumps of one column, which are the landings.
fn single_jumps(alloc: Global, columns: &[Nodes]) -> Result<Jumps, NoMemory>
    requires { AreRising columns.now }
    ensures jumps { IfOk result (λ jumps. AreJumps columns.now jumps) }
    ensures single { IfOk result (λ jumps. jumps.step ≡ 1) }
{
    let count = columns.len().saturating_sub(1);
    let mut tables = ListOf::with_capacity(alloc, count)?;
    for i in 0..count {
        let table = landings(alloc, nodes_of(columns, i), nodes_of(columns, i + 1))?;
        tables.push(table)?;
    }
    Ok(Jumps { step: 1, tables })
}

// The table of column `i` for two steps.
fn doubled_table(
    alloc: Global,
    columns: &[Nodes],
    jumps: &Jumps,
    i: usize,
) -> Result<ListOf<usize>, NoMemory>
    requires jumps { AreJumps columns.now jumps.now }
    requires within { i + jumps.now.step + jumps.now.step < length columns.now }
    ensures { IfOk result (λ table. IsJumpTable columns.now (jumps.now.step + jumps.now.step) i table) }
{
    let once = jumps.tables.as_slice()[i].as_slice();
    let mut twice = ListOf::with_capacity(alloc, once.len())?;
    for place in once {
        twice.push(jump(columns, jumps, i + jumps.step, *place))?;
    }
    Ok(twice)
}

// The jumps of twice the step.
fn doubled(alloc: Global, columns: &[Nodes], jumps: &Jumps) -> Result<Jumps, NoMemory>
    requires jumps { AreJumps columns.now jumps.now }
    requires within { jumps.now.step + jumps.now.step ≤ length columns.now }
    ensures jumps { IfOk result (λ twice. AreJumps columns.now twice) }
    ensures step { IfOk result (λ twice. twice.step ≡ jumps.now.step + jumps.now.step) }
{
    let step = jumps.step + jumps.step;
    let count = columns.len() - step;
    let mut tables = ListOf::with_capacity(alloc, count)?;
    for i in 0..count {
        tables.push(doubled_table(alloc, columns, jumps, i)?)?;
    }
    Ok(Jumps { step, tables })
}

/// Returns the jumps of 1, 2, 4 columns and so on. Returns an error only if memory runs out.
pub fn levels(alloc: Global, columns: &[Nodes]) -> Result<ListOf<Jumps>, NoMemory>
    requires { AreRising columns.now }
    ensures { IfOk result (λ levels. AreLevels columns.now levels) }
{
    let mut levels = ListOf::new(alloc);
    let mut jumps = single_jumps(alloc, columns)?;
    while jumps.step <= columns.len() / 2 {
        let twice = doubled(alloc, columns, &jumps)?;
        levels.push(jumps)?;
        jumps = twice;
    }
    levels.push(jumps)?;
    Ok(levels)
}
