//! A program, run by workers on threads of their own: `init`, the loop, `final`.

ghost use Rattle.std.specs.Prelude.{◌≡◌, ◌↔◌, ◌<◌, ◌≤◌, [], IfOk, IsTrue, false, is_some, true, ℕ};
ghost use Rattle.cell_store.specs.ShardState.{IsStateAfter};
ghost use Rattle.pipe_engine.specs.EngineRuns.{IsEngineRun};
ghost use Rattle.pipe_engine.specs.LoopEnds.{IsLoopEnd};
ghost use Rattle.pipe_model.specs.Language.CheckingRules.{BreaksNoRule};
ghost use Rattle.pipe_model.specs.Language.Programs.{store_of};
ghost use Rattle.pipe_model.specs.Language.ProgramsOfTrees.{whole_of};
ghost use Rattle.pipe_model.specs.Language.SyntaxTree.{tree_of};
ghost use Rattle.pipe_model.specs.Orders.Starts.{starts_of};
ghost use Rattle.pipe_model.specs.Pipelines.WholePrograms.{init_accesses, init_trap, program_columns, program_output, program_trap};
ghost use Rattle.pipe_model.specs.Races.Reports.{AreRight};
ghost use Rattle.pipe_model.specs.Runs.RunLogs.{accesses_after, columns_after, state_after};
ghost use Rattle.pipe_model.specs.Runs.Throttling.{IsThrottled};
ghost use Rattle.pipe_model.specs.Runs.WholeProgramRuns.{IsFinishedProgramRun, played_output, played_trap};
ghost use Rattle.program_ends.specs.ProgramEnds.{reaches_final};
ghost use Rattle.program_laws.specs.ProgramHeadline.{HasNoProgramRace};
ghost use Rattle.race_detection.specs.FoundReports.{found_reports};
ghost use Rattle.serial_elision.specs.PartRuns.{Serves};
ghost use Rattle.stage_interp.specs.MachineState.{IsMadeFor};
ghost use Rattle.stage_interp.specs.RemainingBehaviour.{IsCodeOf};

use crate::ending::{LoopEnd, end_loop};
use crate::workers::run_workers;
use cell_store::cells::Cells;
use pipe_check::checked::Checked;
use pipe_model::access::Accesses;
use pipe_model::column::Columns;
use pipe_model::event::{Events, RunLog};
use pipe_model::list::Numbers;
use pipe_model::memory::NoMemory;
use pipe_model::report::Reports;
use pipe_model::trap::{TrapAt, TrapPlace};
use pipe_worker::gate::Gate;
use program_ends::ends::{ProgramResults, end_after_init, end_with_trap};
use program_hall::carried::RunCode;
use program_hall::opening::open;
use run_record::logged_run::LoggedRun;
use serial_elision::outer_parts::{PartRun, first_cells, run_alone};
use serial_elision::prepared::Prepared;
use stage_code::code::Code;
use stage_code::instr::Part;
use stage_interp::machine::Machine;
use std::alloc::Global;
use std::marker::Brand;
use std::sync::Wait;
use std::thread::Threads;

/// A finished run of a program.
#[derive(Drop)]
pub struct EngineRun {
    /// The events of the loop, by their tickets, and their columns. There are none if `init` trapped.
    pub run_log: LoggedRun,
    /// A race of each cell for which its access history found one, rising by cell. These are the cells
    /// that race in the run's own dag.
    pub reports: Reports,
    /// The emitted numbers of `init`, of the loop and of `final`, in order, up to the limit.
    pub output: Numbers,
    /// The trap of `init`, or else of the least iteration that trapped, or else of `final`.
    pub trap: Option<TrapAt>,
}

/// How many workers run a loop, and how many iterations may be alive.
#[derive(Clone, Copy)]
struct EngineLimits {
    workers: u32,
    throttle: u32,
}

// Ends the run of a program whose `init` trapped.
fn run_of_init(alloc: Global, prepared: &Prepared, trap: Option<TrapAt>, cells: Cells) -> EngineRun
    requires accepted { BreaksNoRule (tree_of prepared.now.checked.now) }
    requires trap { trap ≡ init_trap (whole_of (tree_of prepared.now.checked.now) prepared.now.input.now) }
    requires trapped { IsTrue (is_some trap) }
    requires serves { Serves (tree_of prepared.now.checked.now) cells }
    requires state { IsStateAfter (store_of (tree_of prepared.now.checked.now))
        (init_accesses (whole_of (tree_of prepared.now.checked.now) prepared.now.input.now)) cells }
    ensures { (limit : ℕ) → IsEngineRun (tree_of prepared.now.checked.now) prepared.now.input.now limit result }
{
    let ProgramResults { output, trap } = end_after_init(prepared, trap, cells);
    EngineRun {
        run_log: LoggedRun::of_run_log(RunLog {
            columns: Columns::new(alloc),
            events: Events::new(alloc),
        }),
        reports: Reports::new(alloc),
        output,
        trap,
    }
}

// Ends the run of a program after its loop.
fn run_of_loop(
    alloc: Global,
    machine: &mut Machine,
    prepared: &Prepared,
    throttle: u32,
    end: LoopEnd,
) -> Result<EngineRun, NoMemory>
    requires code { IsCodeOf (tree_of prepared.now.checked.now) prepared.now.code.now }
    requires made { IsMadeFor prepared.now.code.now machine.old }
    requires accepted { BreaksNoRule (tree_of prepared.now.checked.now) }
    requires no_trap { is_some (init_trap (whole_of (tree_of prepared.now.checked.now) prepared.now.input.now)) ≡ false }
    requires end { IsLoopEnd (tree_of prepared.now.checked.now) prepared.now.input.now throttle end }
    ensures { IfOk result (IsEngineRun (tree_of prepared.now.checked.now) prepared.now.input.now throttle) }
{
    let _ = throttle;
    let LoopEnd {
        run_log,
        reports,
        trap,
        cells,
    } = end;
    let ProgramResults { output, trap } = end_with_trap(
        alloc, machine, prepared, trap, &reports, true, cells,
    )?;
    Ok(EngineRun {
        run_log,
        reports,
        output,
        trap,
    })
}

// Runs the loop of a program after `init`, of which these are the accesses and the cells.
fn run_loop<R: Threads + Wait + Sync, B: RunCode + Send, G: Gate + Sync>(
    rt: &R,
    alloc: Global,
    prepared: &Prepared,
    limits: EngineLimits,
    before: &Accesses,
    cells: Cells,
    gate: &G,
) -> Result<LoopEnd, NoMemory>
    requires code_of { IsCodeOf (tree_of prepared.now.checked.now) prepared.now.code.now }
    requires accepted { BreaksNoRule (tree_of prepared.now.checked.now) }
    requires code { prepared.now.code.now ≡ B.code }
    requires workers { 0 < limits.workers }
    requires throttle { (0 < limits.throttle) × (limits.throttle ≤ 1024) }
    requires no_trap { is_some (init_trap (whole_of (tree_of prepared.now.checked.now) prepared.now.input.now)) ≡ false }
    requires before { before.now ≡ init_accesses (whole_of (tree_of prepared.now.checked.now) prepared.now.input.now) }
    requires serves { Serves (tree_of prepared.now.checked.now) cells }
    requires state { IsStateAfter (store_of (tree_of prepared.now.checked.now))
        (init_accesses (whole_of (tree_of prepared.now.checked.now) prepared.now.input.now)) cells }
    ensures { IfOk result (IsLoopEnd (tree_of prepared.now.checked.now) prepared.now.input.now limits.throttle) }
{
    let EngineLimits { workers, throttle } = limits;
    let (hall, key) = open::<B>(alloc, prepared, throttle, before)?;
    let key = run_workers(
        rt,
        alloc,
        prepared.code,
        prepared.input,
        workers,
        throttle + 2,
        &hall,
        key,
        gate,
    )?;
    end_loop(rt, alloc, prepared, throttle, hall, key, cells)
}

// Runs a program with the code of `B`. The machine runs `init` and `final`.
fn run_by_machine<R: Threads + Wait + Sync, B: RunCode + Send, G: Gate + Sync>(
    rt: &R,
    alloc: Global,
    machine: &mut Machine,
    prepared: &Prepared,
    limits: EngineLimits,
    gate: &G,
) -> Result<EngineRun, NoMemory>
    requires code_of { IsCodeOf (tree_of prepared.now.checked.now) prepared.now.code.now }
    requires made { IsMadeFor prepared.now.code.now machine.old }
    requires accepted { BreaksNoRule (tree_of prepared.now.checked.now) }
    requires code { prepared.now.code.now ≡ B.code }
    requires workers { 0 < limits.workers }
    requires throttle { (0 < limits.throttle) × (limits.throttle ≤ 1024) }
    ensures { IfOk result (IsEngineRun (tree_of prepared.now.checked.now) prepared.now.input.now limits.throttle) }
{
    let cells = first_cells(alloc, prepared.checked)?;
    let init = run_alone(alloc, machine, prepared, Part::Init, TrapPlace::Init, cells)?;
    if init.trap.is_some() {
        return Ok(run_of_init(alloc, prepared, init.trap, init.cells));
    }
    let PartRun {
        trap: _,
        accesses,
        cells,
    } = init;
    let end = run_loop::<R, B, G>(rt, alloc, prepared, limits, &accesses, cells, gate)?;
    run_of_loop(alloc, machine, prepared, limits.throttle, end)
}

// Runs a program with the code of `B`.
fn run_coded<R: Threads + Wait + Sync, B: RunCode + Send, G: Gate + Sync>(
    rt: &R,
    alloc: Global,
    prepared: &Prepared,
    limits: EngineLimits,
    gate: &G,
) -> Result<EngineRun, NoMemory>
    requires code_of { IsCodeOf (tree_of prepared.now.checked.now) prepared.now.code.now }
    requires accepted { BreaksNoRule (tree_of prepared.now.checked.now) }
    requires code { prepared.now.code.now ≡ B.code }
    requires workers { 0 < limits.workers }
    requires throttle { (0 < limits.throttle) × (limits.throttle ≤ 1024) }
    ensures { IfOk result (IsEngineRun (tree_of prepared.now.checked.now) prepared.now.input.now limits.throttle) }
{
    let mut machine = Machine::new(alloc, prepared.code)?;
    let run = run_by_machine::<R, B, G>(rt, alloc, &mut machine, prepared, limits, gate);
    drop(machine);
    run
}

/// Runs an accepted program on an input: `init`; the loop, whose instances `workers` workers run on
/// threads of their own, with at most `throttle` iterations alive (Lee et al. 2013) and with an access
/// history of each cell (Xu, Lee and Agrawal 2018); and `final`, exactly if there is neither a race nor
/// a trap. There is at least one worker, and `throttle` is from 1 to 1024. Each worker passes `gate`
/// before it runs an instance.
///
/// There is a report exactly if the program's serial elision has a race. Otherwise columns, output and
/// trap are those of the elision.
///
/// # Errors
/// Out of memory. The run may then have been stopped.
pub fn run<R: Threads + Wait + Sync, G: Gate + Sync>(
    rt: &R,
    alloc: Global,
    checked: &Checked,
    code: &Code,
    input: &Numbers,
    workers: u32,
    throttle: u32,
    gate: &G,
) -> Result<EngineRun, NoMemory>
    requires code { IsCodeOf (tree_of checked.now) code.now }
    requires accepted { BreaksNoRule (tree_of checked.now) }
    requires workers { 0 < workers }
    requires throttle { (0 < throttle) × (throttle ≤ 1024) }
    ensures run { IfOk result (λ r. IsFinishedProgramRun (whole_of (tree_of checked.now) input.now) throttle r.run_log) }
    ensures throttled { IfOk result (λ r. IsThrottled throttle r.run_log.events) }
    ensures found { IfOk result (λ r. r.reports ≡ found_reports (columns_after r.run_log.events) (starts_of r.run_log.events)
        (accesses_after r.run_log.events)) }
    ensures right { IfOk result (λ r. AreRight (columns_after r.run_log.events) (accesses_after r.run_log.events) r.reports) }
    ensures output { IfOk result (λ r. r.output ≡ played_output (whole_of (tree_of checked.now) input.now) (reaches_final true r.reports)
        (state_after r.run_log.events)) }
    ensures trap { IfOk result (λ r. r.trap ≡ played_trap (whole_of (tree_of checked.now) input.now) (reaches_final true r.reports)
        (state_after r.run_log.events)) }
    ensures silent { IfOk result (λ r. (r.reports ≡ []) ↔ HasNoProgramRace (whole_of (tree_of checked.now) input.now)) }
    ensures elision_columns { IfOk result (λ r. r.reports ≡ [] → r.run_log.columns ≡ program_columns
        (whole_of (tree_of checked.now) input.now)) }
    ensures elision_output { IfOk result (λ r. r.reports ≡ [] → r.output ≡ program_output (whole_of (tree_of checked.now) input.now)) }
    ensures elision_trap { IfOk result (λ r. r.reports ≡ [] → r.trap ≡ program_trap (whole_of (tree_of checked.now) input.now)) }
{
    let prepared = Prepared {
        checked,
        code,
        input,
    };
    let limits = EngineLimits { workers, throttle };
    run_coded::<R, Brand, G>(rt, alloc, &prepared, limits, gate)
}
