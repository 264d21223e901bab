//! Landings: the least index of the next column to which an edge leads from an index of a column or
//! from a later index.

ghost use Rattle.std.specs.Prelude.{ℕ, ◌<◌, ◌≤◌, length, IfOk};
ghost use Rattle.std.specs.Bool.{OnTrue, OnFalse};
ghost use Rattle.pipe_model.specs.Races.Columns.{IsRising};
ghost use Rattle.dag_landings.specs.Landings.{AreLandings, CrossesFrom, IsLanding, NoneCross};

use pipe_model::list::ListOf;
use pipe_model::memory::NoMemory;
use pipe_model::node::{Kind, Node};
use std::alloc::Global;

// Whether an edge leads from index `from` or a later index of the left column to index `k` of the
// right column.
fn is_crossed(left: &[Node], right: &[Node], from: usize, k: usize) -> bool
    requires from_in { from < length left.now }
    requires k_in { k < length right.now }
    requires rising { IsRising left.now }
    ensures yes { OnTrue result (CrossesFrom left.now right.now from k) }
    ensures no { OnFalse result (NoneCross left.now right.now from k) }
{
    if k == 0 && from == 0 {
        return true;
    }
    match right[k].kind {
        Kind::Wait => {
            if right[k].number < left[from].number {
                return false;
            }
            true
        }
        Kind::Zero | Kind::Continue => false,
    }
}

// The landing of index `from`, if no edge from there or later leads to an index before `start`.
fn landing_from(left: &[Node], right: &[Node], from: usize, start: usize) -> usize
    requires from_in { from < length left.now }
    requires start_in { start ≤ length right.now }
    requires rising { IsRising left.now }
    requires none_before { (k : ℕ) → k < start → NoneCross left.now right.now from k }
    ensures { IsLanding left.now right.now from result }
{
    for k in start..right.len() {
        if is_crossed(left, right, from, k) {
            return k;
        }
    }
    right.len()
}

/// Returns the landings of all indices of the left column. They do not decrease, so each column is
/// read once. Returns an error only if memory runs out.
pub fn landings(alloc: Global, left: &[Node], right: &[Node]) -> Result<ListOf<usize>, NoMemory>
    requires { IsRising left.now }
    ensures { IfOk result (λ table. AreLandings left.now right.now table) }
{
    let mut table = ListOf::with_capacity(alloc, left.len())?;
    let mut place = 0;
    for from in 0..left.len() {
        place = landing_from(left, right, from, place);
        table.push(place)?;
    }
    Ok(table)
}
