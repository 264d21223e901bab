//! The serial elision of a whole program.

ghost use Rattle.std.specs.Prelude.{◌≡◌, [], IfOk, is_some, false};
ghost use Rattle.pipe_model.specs.Language.ProgramsOfTrees.{whole_of};
ghost use Rattle.pipe_model.specs.Language.SyntaxTree.{tree_of};
ghost use Rattle.pipe_model.specs.Pipelines.WholePrograms as whole_programs;
ghost use Rattle.pipe_model.specs.Pipelines.WholePrograms.{init_trap, loop_accesses, loop_after_init, program_columns};
ghost use Rattle.pipe_model.specs.Pipelines.WholePrograms.{program_output, program_trap};
ghost use Rattle.stage_interp.specs.MachineState.{IsMadeFor};
ghost use Rattle.stage_interp.specs.RemainingBehaviour.{IsCodeOf};
ghost use Rattle.serial_elision.specs.Elisions.{IsElision};
ghost use Rattle.serial_elision.specs.LoopRuns.{LoopRan};
ghost use Rattle.serial_elision.specs.PartRuns.{Serves};

use crate::iterations::{LoopRun, run_loop};
use crate::log::Log;
use crate::outer_parts::{first_cells, run_alone};
use crate::prepared::Prepared;
use pipe_check::checked::Checked;
use pipe_model::access::NodeAccesses;
use pipe_model::column::Columns;
use pipe_model::list::Numbers;
use pipe_model::memory::NoMemory;
use pipe_model::trap::{TrapAt, TrapPlace};
use stage_code::code::Code;
use stage_code::instr::Part;
use stage_interp::machine::Machine;
use std::alloc::Global;

/// The result of a serial elision.
#[derive(Drop)]
pub struct SerialRun {
    /// The emitted numbers, in order.
    pub output: Numbers,
    /// The trap of `init`, or else of the least iteration that trapped, or else of `final`.
    pub trap: Option<TrapAt>,
    /// The stage instances of each iteration, and its end.
    pub columns: Columns,
    /// The accesses of the loop with their stage instances, in the order in which they were made.
    pub accesses: NodeAccesses,
}

// Runs `final` after a loop without a trap.
fn run_final(
    alloc: Global,
    machine: &mut Machine,
    prepared: &Prepared,
    run: LoopRun,
) -> Result<SerialRun, NoMemory>
    requires code { IsCodeOf (tree_of prepared.now.checked.now) prepared.now.code.now }
    requires made { IsMadeFor prepared.now.code.now machine.old }
    requires serves { Serves (tree_of prepared.now.checked.now) run.log.cells }
    requires no_trap { is_some (init_trap (whole_of (tree_of prepared.now.checked.now) prepared.now.input.now)) ≡ false }
    requires ran { LoopRan (loop_after_init (whole_of (tree_of prepared.now.checked.now) prepared.now.input.now)) run }
    ensures { IfOk result (λ r. IsElision (whole_of (tree_of prepared.now.checked.now) prepared.now.input.now) r) }
{
    let LoopRun {
        columns,
        trap,
        log,
        ..
    } = run;
    let Log { cells, accesses } = log;
    if trap.is_some() {
        return Ok(SerialRun {
            output: cells.into_output(),
            trap,
            columns,
            accesses,
        });
    }
    let last = run_alone(alloc, machine, prepared, Part::Last, TrapPlace::Last, cells)?;
    Ok(SerialRun {
        output: last.cells.into_output(),
        trap: last.trap,
        columns,
        accesses,
    })
}

// Runs `init`, and what follows it.
fn run_whole(
    alloc: Global,
    machine: &mut Machine,
    prepared: &Prepared,
) -> Result<SerialRun, NoMemory>
    requires code { IsCodeOf (tree_of prepared.now.checked.now) prepared.now.code.now }
    requires made { IsMadeFor prepared.now.code.now machine.old }
    ensures { IfOk result (λ r. IsElision (whole_of (tree_of prepared.now.checked.now) prepared.now.input.now) r) }
{
    let cells = first_cells(alloc, prepared.checked)?;
    let init = run_alone(alloc, machine, prepared, Part::Init, TrapPlace::Init, cells)?;
    if init.trap.is_some() {
        return Ok(SerialRun {
            output: init.cells.into_output(),
            trap: init.trap,
            columns: Columns::new(alloc),
            accesses: NodeAccesses::new(alloc),
        });
    }
    let run = run_loop(alloc, machine, prepared, init.cells)?;
    run_final(alloc, machine, prepared, run)
}

/// Runs an accepted program on an input as its serial elision: `init`; the iterations one after the
/// other, each to its end, up to the one that closes the loop; `final`. A trap ends `init`, an
/// iteration or `final`; a trap of `init` leaves out the loop, one in instance 0 of an iteration
/// closes the loop, and any trap leaves out `final`.
///
/// # Errors
/// Out of memory.
pub fn run_serial(
    alloc: Global,
    checked: &Checked,
    code: &Code,
    input: &Numbers,
) -> Result<SerialRun, NoMemory>
    requires code { IsCodeOf (tree_of checked.now) code.now }
    ensures output { IfOk result (λ run. run.output ≡ program_output (whole_of (tree_of checked.now) input.now)) }
    ensures trap { IfOk result (λ run. run.trap ≡ program_trap (whole_of (tree_of checked.now) input.now)) }
    ensures columns { IfOk result (λ run. run.columns ≡ program_columns (whole_of (tree_of checked.now) input.now)) }
    ensures accesses { IfOk result (λ run. run.accesses ≡ loop_accesses (whole_of (tree_of checked.now) input.now)) }
{
    let prepared = Prepared {
        checked,
        code,
        input,
    };
    let mut machine = Machine::new(alloc, code)?;
    run_whole(alloc, &mut machine, &prepared)
}
