//! The output and the trap of a program, and whether `final` runs.

ghost use Rattle.std.specs.Prelude.{◌≡◌, ◌&&◌, ℕ, Bool, IfOk, IsTrue, List, false, is_some, not};
ghost use Rattle.cell_store.specs.ShardState.{IsStateAfter};
ghost use Rattle.pipe_model.specs.Language.CheckingRules.{BreaksNoRule};
ghost use Rattle.pipe_model.specs.Language.Programs.{store_of};
ghost use Rattle.pipe_model.specs.Language.ProgramsOfTrees.{whole_of};
ghost use Rattle.pipe_model.specs.Language.SyntaxTree.{tree_of};
ghost use Rattle.pipe_model.specs.Pipelines.WholePrograms as whole_programs;
ghost use Rattle.pipe_model.specs.Pipelines.WholePrograms.{init_accesses};
ghost use Rattle.pipe_model.specs.Runs.RunLogs.{state_after};
ghost use Rattle.pipe_model.specs.Runs.State.{initial_state};
ghost use Rattle.pipe_model.specs.declared.column.Column.{Column};
ghost use Rattle.pipe_model.specs.declared.event.Event.{Event};
ghost use Rattle.program_ends.specs.ProgramEnds.{HasResults, IsAfterLoop, reaches_final};
ghost use Rattle.serial_elision.specs.ColumnTraps as column_traps;
ghost use Rattle.serial_elision.specs.PartRuns.{Serves};
ghost use Rattle.stage_interp.specs.MachineState.{IsMadeFor};
ghost use Rattle.stage_interp.specs.RemainingBehaviour.{IsCodeOf};

use cell_store::cells::Cells;
use pipe_model::column::Columns;
use pipe_model::list::Numbers;
use pipe_model::memory::NoMemory;
use pipe_model::report::Reports;
use pipe_model::trap::{TrapAt, TrapPlace};
use serial_elision::outer_parts::run_alone;
use serial_elision::prepared::Prepared;
use serial_elision::traps::least_trap;
use stage_code::instr::Part;
use stage_interp::machine::Machine;
use std::alloc::Global;

/// What a program emitted, and its trap.
#[derive(Drop)]
pub struct ProgramResults {
    /// The emitted numbers of `init`, of the loop and of `final`, in order, up to the limit.
    pub output: Numbers,
    /// The trap of `init`, or else of the least iteration that trapped, or else of `final`.
    pub trap: Option<TrapAt>,
}

/// Ends a program whose `init` trapped. The cells are those after `init`.
pub fn end_after_init(prepared: &Prepared, trap: Option<TrapAt>, cells: Cells) -> ProgramResults
    requires trap { trap ≡ whole_programs.init_trap (whole_of (tree_of prepared.now.checked.now) prepared.now.input.now) }
    requires trapped { IsTrue (is_some trap) }
    requires serves { Serves (tree_of prepared.now.checked.now) cells }
    requires state { IsStateAfter (store_of (tree_of prepared.now.checked.now))
        (init_accesses (whole_of (tree_of prepared.now.checked.now) prepared.now.input.now)) cells }
    ensures { (ran : Bool) → HasResults (whole_of (tree_of prepared.now.checked.now) prepared.now.input.now) ran initial_state result }
{
    let _ = prepared;
    ProgramResults {
        output: cells.into_output(),
        trap,
    }
}

// Returns whether `final` runs after a loop: the run is finished, and there is neither a race nor a
// trap.
fn runs_final(finished: bool, reports: &Reports, trap: Option<TrapAt>) -> bool
    ensures { result ≡ (reaches_final finished reports.now && not (is_some trap)) }
{
    finished && reports.is_empty() && trap.is_none()
}

/// Ends a program after a run of its loop, of which these are the columns, the reports, and the cells.
/// Runs `final` exactly if the run is finished and there is neither a report nor a trap. Returns an
/// error only if memory runs out; the machine is of no use then.
pub fn end_after_loop(
    alloc: Global,
    machine: &mut Machine,
    prepared: &Prepared,
    columns: &Columns,
    reports: &Reports,
    finished: bool,
    cells: Cells,
) -> Result<ProgramResults, NoMemory>
    requires code { IsCodeOf (tree_of prepared.now.checked.now) prepared.now.code.now }
    requires made { IsMadeFor prepared.now.code.now machine.old }
    requires accepted { BreaksNoRule (tree_of prepared.now.checked.now) }
    requires no_trap { is_some (whole_programs.init_trap (whole_of (tree_of prepared.now.checked.now) prepared.now.input.now)) ≡ false }
    requires run { (limit : ℕ) × (events : List Event) × IsAfterLoop (tree_of prepared.now.checked.now) prepared.now.input.now limit
        events columns.now cells }
    requires serves { Serves (tree_of prepared.now.checked.now) cells }
    ensures { IfOk result (λ r. (limit : ℕ) (events : List Event) → IsAfterLoop (tree_of prepared.now.checked.now) prepared.now.input.now
        limit events columns.now cells
        → HasResults (whole_of (tree_of prepared.now.checked.now) prepared.now.input.now) (reaches_final finished reports.now)
        (state_after events) r) }
{
    let trap = least_trap(columns.as_slice());
    end_with_trap(alloc, machine, prepared, trap, reports, finished, cells)
}

/// Ends a program after a run of its loop, of which these are the trap of the least iteration that
/// trapped, the reports, and the cells. Runs `final` exactly if the run is finished and there is neither
/// a report nor a trap. Returns an error only if memory runs out; the machine is of no use then.
pub fn end_with_trap(
    alloc: Global,
    machine: &mut Machine,
    prepared: &Prepared,
    trap: Option<TrapAt>,
    reports: &Reports,
    finished: bool,
    cells: Cells,
) -> Result<ProgramResults, NoMemory>
    requires code { IsCodeOf (tree_of prepared.now.checked.now) prepared.now.code.now }
    requires made { IsMadeFor prepared.now.code.now machine.old }
    requires accepted { BreaksNoRule (tree_of prepared.now.checked.now) }
    requires no_trap { is_some (whole_programs.init_trap (whole_of (tree_of prepared.now.checked.now) prepared.now.input.now)) ≡ false }
    requires run { (limit : ℕ) × (events : List Event) × (columns : List Column) × IsAfterLoop (tree_of prepared.now.checked.now)
        prepared.now.input.now limit events columns cells }
    requires serves { Serves (tree_of prepared.now.checked.now) cells }
    ensures { IfOk result (λ r. (limit : ℕ) (events : List Event) (columns : List Column) → IsAfterLoop
        (tree_of prepared.now.checked.now) prepared.now.input.now limit events columns cells
        → trap ≡ column_traps.least_trap 0 columns
        → HasResults (whole_of (tree_of prepared.now.checked.now) prepared.now.input.now) (reaches_final finished reports.now)
        (state_after events) r) }
{
    if !runs_final(finished, reports, trap) {
        return Ok(ProgramResults {
            output: cells.into_output(),
            trap,
        });
    }
    let last = run_alone(alloc, machine, prepared, Part::Last, TrapPlace::Last, cells)?;
    Ok(ProgramResults {
        output: last.cells.into_output(),
        trap: last.trap,
    })
}
