//! The traps of iterations, by their columns.

ghost use Rattle.std.specs.Prelude.{◌≡◌, ◌≤◌, ◌<◌, ◌^◌, All, length};
ghost use Rattle.pipe_model.specs.Pipelines.WholePrograms as whole_programs;
ghost use Rattle.serial_elision.specs.ColumnTraps as column_traps;

use pipe_model::column::{Column, ColumnEnd};
use pipe_model::node::NodeId;
use pipe_model::trap::{TrapAt, TrapPlace};

/// Returns the trap of a part with this end, if it is a trap, with where it was raised.
pub fn part_trap(place: TrapPlace, end: Option<ColumnEnd>) -> Option<TrapAt>
    ensures { result ≡ whole_programs.part_trap place end }
{
    match end {
        None => None,
        Some(ColumnEnd::End) => None,
        Some(ColumnEnd::Closed) => None,
        Some(ColumnEnd::Trapped(trap)) => Some(TrapAt { place, trap }),
    }
}

// Returns the place of the last instance of an iteration.
fn last_place(iteration: u32, column: &Column) -> TrapPlace
    requires nonempty { 0 < length column.now.nodes }
    requires bounded { length column.now.nodes ≤ 2 ^ 32 }
    ensures { result ≡ column_traps.last_place iteration column.now }
{
    let nodes = column.nodes.as_slice();
    let index = nodes.len() - 1;
    let node = NodeId {
        iteration,
        index: index as u32,
    };
    TrapPlace::At(node, nodes[index].number)
}

/// Returns the trap of iteration `iteration`, if its column ends with one. The column has an
/// instance.
pub fn column_trap(iteration: u32, column: &Column) -> Option<TrapAt>
    requires nonempty { 0 < length column.now.nodes }
    requires bounded { length column.now.nodes ≤ 2 ^ 32 }
    ensures { result ≡ column_traps.column_trap iteration column.now }
{
    part_trap(last_place(iteration, column), column.end)
}

/// Returns the trap of the least iteration that trapped, by the columns of a run. Each column has an
/// instance.
pub fn least_trap(columns: &[Column]) -> Option<TrapAt>
    requires count { length columns.now ≤ 2 ^ 32 }
    requires nonempty { All (λ column. 0 < length column.nodes) columns.now }
    requires bounded { All (λ column. length column.nodes ≤ 2 ^ 32) columns.now }
    ensures { result ≡ column_traps.least_trap 0 columns.now }
{
    let mut trap = None;
    for (iteration, column) in columns.iter().enumerate() {
        trap = trap.or(column_trap(iteration as u32, column));
    }
    trap
}
