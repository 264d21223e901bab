//! The stage instances of a program's serial elision, and the steps that each of them takes.

ghost use Rattle.std.specs.Prelude.{◌≡◌, ◌≤◌, ℕ, length, IfOk};
ghost use Rattle.pipe_model.specs.Language.ProgramsOfTrees.{whole_of};
ghost use Rattle.pipe_model.specs.Language.SyntaxTree.{tree_of};
ghost use Rattle.pipe_model.specs.Pipelines.WholePrograms.{program_columns};
ghost use Rattle.pipe_model.specs.Races.Columns.{AreColumns, IsRising, nodes_at, node_columns};
ghost use Rattle.serial_elision.specs.ElisionSteps.{program_steps};
ghost use Rattle.stage_interp.specs.RemainingBehaviour.{IsCodeOf};
ghost use Rattle.pipe_span.specs.Entries.{most_entries};
ghost use Rattle.pipe_span.specs.HeaviestPaths.{instances_before};
ghost use Rattle.pipe_span.specs.WorkAndSpan.{AreSteps};

use pipe_check::checked::Checked;
use pipe_model::column::Columns;
use pipe_model::list::Numbers;
use pipe_model::memory::NoMemory;
use pipe_model::trap::TrapPlace;
use serial_elision::iterations::run_loop;
use serial_elision::outer_parts::{first_cells, run_alone};
use serial_elision::prepared::Prepared;
use stage_code::code::Code;
use stage_code::instr::Part;
use stage_interp::machine::Machine;
use std::alloc::Global;

/// The stage instances of a serial elision, and their steps.
#[derive(Drop)]
pub struct Weighed {
    /// The stage instances of each iteration, and its end; none if `init` traps.
    pub columns: Columns,
    /// The steps of each instance, column after column.
    pub steps: Numbers,
}

/// Runs `init` and the iterations of an accepted program on an input, as its serial elision, and
/// counts the steps of each stage instance of an iteration. The result is what `heaviest` takes:
/// one number for each instance, from 0 to the budget that the program declares.
///
/// # Errors
///
/// Only out of memory.
pub fn weigh(
    alloc: Global,
    checked: &Checked,
    code: &Code,
    input: &Numbers,
) -> Result<Weighed, NoMemory>
    requires code { IsCodeOf (tree_of checked.now) code.now }
    ensures elision { IfOk result (λ w. w.columns ≡ program_columns (whole_of (tree_of checked.now) input.now)) }
    ensures counted { IfOk result (λ w. w.steps ≡ program_steps (tree_of checked.now) input.now) }
    ensures columns { IfOk result (λ w. AreColumns (node_columns w.columns)) }
    ensures rising { IfOk result (λ w. (i : ℕ) → IsRising (nodes_at (node_columns w.columns) i)) }
    ensures whole { IfOk result (λ w. length w.steps ≡ instances_before (node_columns w.columns) (length w.columns)) }
    ensures bounded { IfOk result (λ w. length w.steps ≤ most_entries) }
    ensures steps { IfOk result (λ w. AreSteps w.steps) }
{
    let _limits = code.limits();
    let prepared = Prepared {
        checked,
        code,
        input,
    };
    let mut machine = Machine::new(alloc, code)?;
    let cells = first_cells(alloc, checked)?;
    let init = run_alone(
        alloc,
        &mut machine,
        &prepared,
        Part::Init,
        TrapPlace::Init,
        cells,
    )?;
    if init.trap.is_some() {
        return Ok(Weighed {
            columns: Columns::new(alloc),
            steps: Numbers::new(alloc),
        });
    }
    let run = run_loop(alloc, &mut machine, &prepared, init.cells)?;
    Ok(Weighed {
        columns: run.columns,
        steps: run.steps,
    })
}
