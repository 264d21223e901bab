//! Checks the events of a record of a program.

ghost use Rattle.std.specs.Prelude.{◌≡◌, ◌<◌, ◌^◌, [], ℕ, List, IfOk, length, is_some, true};
ghost use Rattle.pipe_model.specs.Language.ProgramsOfTrees.{whole_of};
ghost use Rattle.pipe_model.specs.Language.CheckingRules.{BreaksNoRule};
ghost use Rattle.pipe_model.specs.Language.SyntaxTree.{tree_of};
ghost use Rattle.pipe_model.specs.Pipelines.WholePrograms as whole_programs;
ghost use Rattle.record_check.specs.CheckedRecords.{IsRecordAnswer};
ghost use Rattle.stage_interp.specs.MachineState.{IsMadeFor};
ghost use Rattle.stage_interp.specs.RemainingBehaviour.{IsCodeOf};

use crate::answer::{RecordAnswer, RunKind};
use crate::check_loop::check_loop;
use pipe_check::checked::Checked;
use pipe_model::column::Columns;
use pipe_model::event::{Events, RunLog};
use pipe_model::list::Numbers;
use pipe_model::memory::NoMemory;
use pipe_model::report::Reports;
use pipe_model::trap::TrapPlace;
use serial_elision::outer_parts::{first_cells, run_alone};
use serial_elision::prepared::Prepared;
use stage_code::code::Code;
use stage_code::instr::Part;
use stage_interp::machine::Machine;
use std::alloc::Global;

// The answer if `init` trapped: the empty list is the only run.
fn end_after_init(alloc: Global, events: &Events) -> RecordAnswer
    ensures { (w : whole_programs.WholeProgram) (limit : ℕ) → is_some (whole_programs.init_trap w) ≡ true
        → IsRecordAnswer w limit events.now result }
{
    if events.is_empty() {
        let columns = Columns::new(alloc);
        let events = Events::new(alloc);
        let run_log = RunLog { columns, events };
        return RecordAnswer::Run(RunKind::Finished, run_log, Reports::new(alloc));
    }
    RecordAnswer::NotAllowed(0)
}

fn check_prepared(
    alloc: Global,
    machine: &mut Machine,
    prepared: &Prepared,
    throttle: u32,
    events: &Events,
) -> Result<RecordAnswer, NoMemory>
    requires code { IsCodeOf (tree_of prepared.now.checked.now) prepared.now.code.now }
    requires made { IsMadeFor prepared.now.code.now machine.old }
    requires accepted { BreaksNoRule (tree_of prepared.now.checked.now) }
    requires throttle { 0 < throttle }
    requires short { length events.now < 2 ^ 32 }
    ensures { IfOk result (IsRecordAnswer (whole_of (tree_of prepared.now.checked.now) prepared.now.input.now) throttle events.now) }
{
    let cells = first_cells(alloc, prepared.checked)?;
    let init = run_alone(alloc, machine, prepared, Part::Init, TrapPlace::Init, cells)?;
    drop(init.accesses);
    if init.trap.is_some() {
        return Ok(end_after_init(alloc, events));
    }
    check_loop(
        alloc,
        prepared.checked,
        prepared.code,
        prepared.input,
        throttle,
        init.cells,
        events,
    )
}

/// Checks whether the events are a run of a program under this throttling limit, which is at least 1. If
/// they are, the result has the kind of the run, its log with its own columns, and a race of each racy
/// cell of the run's own dag, rising by cell. `NotAllowed(k)` is returned exactly if the first `k` events
/// are a run and the first `k + 1` are not. There are fewer than 2^32 events.
///
/// # Errors
/// Out of memory.
pub fn check_record(
    alloc: Global,
    checked: &Checked,
    code: &Code,
    input: &Numbers,
    throttle: u32,
    events: &Events,
) -> Result<RecordAnswer, NoMemory>
    requires code { IsCodeOf (tree_of checked.now) code.now }
    requires throttle { 0 < throttle }
    requires short { length events.now < 2 ^ 32 }
    ensures { IfOk result (IsRecordAnswer (whole_of (tree_of checked.now) input.now) throttle events.now) }
{
    let _program = checked.program();
    let prepared = Prepared {
        checked,
        code,
        input,
    };
    let mut machine = Machine::new(alloc, code)?;
    check_prepared(alloc, &mut machine, &prepared, throttle, events)
}
