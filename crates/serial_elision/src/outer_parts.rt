//! `init` and `final`, the parts of a program outside its loop.

ghost use Rattle.std.specs.Prelude.{◌≡◌, ◌++◌, [], List, IfOk};
ghost use Rattle.cell_store.specs.ShardState.{IsStateAfter};
ghost use Rattle.pipe_model.specs.declared.access.Access.{Access};
ghost use Rattle.pipe_model.specs.Language.Programs.{store_of};
ghost use Rattle.pipe_model.specs.Language.SyntaxTree.{tree_of};
ghost use Rattle.pipe_model.specs.Pipelines.Behaviour.{accesses_in, trace_end};
ghost use Rattle.pipe_model.specs.Pipelines.SerialElision.{serial_trace};
ghost use Rattle.pipe_model.specs.Pipelines.WholePrograms as whole_programs;
ghost use Rattle.pipe_model.specs.Runs.State.{accesses_of};
ghost use Rattle.stage_interp.specs.MachineState.{IsMadeFor};
ghost use Rattle.stage_interp.specs.RemainingBehaviour.{IsCodeOf, behaviour_in};
ghost use Rattle.serial_elision.specs.PartRuns.{Serves};

use crate::log::Log;
use crate::part::run_part;
use crate::prepared::Prepared;
use crate::traps::part_trap;
use cell_store::cells::Cells;
use pipe_check::checked::Checked;
use pipe_model::access::{Accesses, NodeAccesses};
use pipe_model::list::Numbers;
use pipe_model::memory::NoMemory;
use pipe_model::trap::{TrapAt, TrapPlace};
use stage_code::instr::Part;
use stage_interp::machine::Machine;
use std::alloc::Global;

/// What `init` or `final` did.
#[derive(Drop)]
pub struct PartRun {
    /// Its trap, if it trapped.
    pub trap: Option<TrapAt>,
    /// Its accesses, in the order in which they were made.
    pub accesses: Accesses,
    /// The cells after it.
    pub cells: Cells,
}

/// Returns the cells of a program with their declared values, all in one shard. Returns an error
/// only if memory runs out.
pub fn first_cells(alloc: Global, checked: &Checked) -> Result<Cells, NoMemory>
    ensures state { IfOk result (λ cells. IsStateAfter (store_of (tree_of checked.now)) [] cells) }
    ensures serves { IfOk result (λ cells. Serves (tree_of checked.now) cells) }
{
    let _count = checked.cell_count();
    Cells::new(alloc, checked, 0, 1)
}

// Returns the accesses without the instances that made them.
fn plain_accesses(alloc: Global, accesses: &NodeAccesses) -> Result<Accesses, NoMemory>
    ensures { IfOk result (λ plain. plain ≡ accesses_of accesses.now) }
{
    let mut plain = Accesses::with_capacity(alloc, accesses.len())?;
    for made in accesses.as_slice() {
        plain.push(made.access)?;
    }
    Ok(plain)
}

/// Runs `init` or `final` over the cells. Its trap is raised at `place`. Returns an error only if
/// memory runs out; the machine is of no use then.
pub fn run_alone(
    alloc: Global,
    machine: &mut Machine,
    prepared: &Prepared,
    part: Part,
    place: TrapPlace,
    cells: Cells,
) -> Result<PartRun, NoMemory>
    requires code { IsCodeOf (tree_of prepared.now.checked.now) prepared.now.code.now }
    requires made { IsMadeFor prepared.now.code.now machine.old }
    requires serves { Serves (tree_of prepared.now.checked.now) cells }
    ensures trap { IfOk result (λ r. (before : List Access) → IsStateAfter (store_of (tree_of prepared.now.checked.now)) before cells
        → r.trap ≡ whole_programs.part_trap place (trace_end
        (serial_trace (store_of (tree_of prepared.now.checked.now))
        (behaviour_in (tree_of prepared.now.checked.now) prepared.now.input.now part 0) before))) }
    ensures accesses { IfOk result (λ r. (before : List Access) → IsStateAfter (store_of (tree_of prepared.now.checked.now)) before cells
        → r.accesses ≡ accesses_in
        (serial_trace (store_of (tree_of prepared.now.checked.now))
        (behaviour_in (tree_of prepared.now.checked.now) prepared.now.input.now part 0) before)) }
    ensures state { IfOk result (λ r. (before : List Access) → IsStateAfter (store_of (tree_of prepared.now.checked.now)) before cells
        → IsStateAfter (store_of (tree_of prepared.now.checked.now)) (before ++ accesses_in
        (serial_trace (store_of (tree_of prepared.now.checked.now))
        (behaviour_in (tree_of prepared.now.checked.now) prepared.now.input.now part 0) before)) r.cells) }
    ensures made { IfOk result (λ r. IsMadeFor prepared.now.code.now machine.new) }
    ensures serves { IfOk result (λ r. Serves (tree_of prepared.now.checked.now) r.cells) }
{
    let log = Log::new(alloc, cells);
    let mut steps = Numbers::new(alloc);
    let (column, log) = run_part(alloc, machine, prepared, part, 0, log, &mut steps)?;
    Ok(PartRun {
        trap: part_trap(place, column.end),
        accesses: plain_accesses(alloc, &log.accesses)?,
        cells: log.cells,
    })
}
