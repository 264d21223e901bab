//! The iterations of the loop, in order.

ghost use Rattle.std.specs.Prelude.{◌≡◌, ◌≤◌, IfOk, map, pos};
ghost use Rattle.cell_store.specs.ShardState.{IsStateAfter};
ghost use Rattle.pipe_model.specs.declared.bounds.TheConstants.{MOST_ITERATIONS};
ghost use Rattle.pipe_model.specs.Language.Programs.{natural, store_of};
ghost use Rattle.pipe_model.specs.Language.ProgramsOfTrees.{whole_of};
ghost use Rattle.pipe_model.specs.Language.SyntaxTree.{tree_of};
ghost use Rattle.pipe_model.specs.Pipelines.SerialElision.{serial_traces};
ghost use Rattle.pipe_model.specs.Pipelines.WholePrograms.{init_accesses, loop_after_init};
ghost use Rattle.stage_interp.specs.MachineState.{IsMadeFor};
ghost use Rattle.stage_interp.specs.RemainingBehaviour.{IsCodeOf};
ghost use Rattle.serial_elision.specs.ElisionSteps.{steps_from};
ghost use Rattle.serial_elision.specs.LoopRuns.{LoopRan};
ghost use Rattle.serial_elision.specs.PartRuns as part_runs;
ghost use Rattle.serial_elision.specs.PartRuns.{Serves};

use crate::log::Log;
use crate::part::run_part;
use crate::prepared::Prepared;
use crate::traps::column_trap;
use cell_store::cells::Cells;
use pipe_model::column::{Column, ColumnEnd, Columns};
use pipe_model::list::Numbers;
use pipe_model::memory::NoMemory;
use pipe_model::trap::TrapAt;
use stage_code::code::Code;
use stage_code::instr::Part;
use stage_interp::machine::Machine;
use std::alloc::Global;

/// What the loop did: the column of each iteration, the steps of each stage instance in column
/// order, the trap of the least iteration that trapped, and the log.
#[derive(Drop)]
pub struct LoopRun {
    pub columns: Columns,
    pub steps: Numbers,
    pub trap: Option<TrapAt>,
    pub log: Log,
}

// Returns whether the end closes the loop if instance 0 has it.
fn end_closes(end: Option<ColumnEnd>) -> bool
    ensures { result ≡ part_runs.end_closes end }
{
    match end {
        None => false,
        Some(ColumnEnd::End) => false,
        Some(ColumnEnd::Closed) => true,
        Some(ColumnEnd::Trapped(_)) => true,
    }
}

// Returns whether an iteration with this column closes the loop.
fn column_closes(column: &Column) -> bool
    ensures { result ≡ part_runs.column_closes column.now }
{
    column.nodes.len() == 1 && end_closes(column.end)
}

// Returns the number of the iteration that closes the loop if none before it does.
fn last_iteration(code: &Code) -> u32
    ensures limit { result ≡ natural code.now.limits.iterations }
    ensures bounded { result ≤ natural MOST_ITERATIONS }
{
    code.limits().iterations as u32
}

/// Runs the iterations up to the one that closes the loop, over cells that `init` has left. Returns
/// an error only if memory runs out; the machine is of no use then.
pub fn run_loop(
    alloc: Global,
    machine: &mut Machine,
    prepared: &Prepared,
    cells: Cells,
) -> Result<LoopRun, NoMemory>
    requires code { IsCodeOf (tree_of prepared.now.checked.now) prepared.now.code.now }
    requires made { IsMadeFor prepared.now.code.now machine.old }
    requires serves { Serves (tree_of prepared.now.checked.now) cells }
    requires state { IsStateAfter (store_of (tree_of prepared.now.checked.now))
        (init_accesses (whole_of (tree_of prepared.now.checked.now) prepared.now.input.now)) cells }
    ensures ran { IfOk result (λ run. LoopRan (loop_after_init (whole_of (tree_of prepared.now.checked.now) prepared.now.input.now)) run) }
    ensures steps { IfOk result (λ run. run.steps ≡ map pos (steps_from (tree_of prepared.now.checked.now) prepared.now.input.now 0
        (init_accesses (whole_of (tree_of prepared.now.checked.now) prepared.now.input.now))
        (serial_traces (loop_after_init (whole_of (tree_of prepared.now.checked.now) prepared.now.input.now))))) }
    ensures made { IfOk result (λ run. IsMadeFor prepared.now.code.now machine.new) }
    ensures serves { IfOk result (λ run. Serves (tree_of prepared.now.checked.now) run.log.cells) }
{
    let last = last_iteration(prepared.code);
    let mut columns = Columns::new(alloc);
    let mut steps = Numbers::new(alloc);
    let mut trap = None;
    let mut log = Log::new(alloc, cells);
    for iteration in 0..last + 1 {
        let (column, ran) = run_part(
            alloc,
            machine,
            prepared,
            Part::Pipe,
            iteration,
            log,
            &mut steps,
        )?;
        log = ran;
        trap = trap.or(column_trap(iteration, &column));
        let closes = column_closes(&column);
        columns.push(column)?;
        if closes {
            return Ok(LoopRun {
                columns,
                steps,
                trap,
                log,
            });
        }
    }
    Ok(LoopRun {
        columns,
        steps,
        trap,
        log,
    })
}
