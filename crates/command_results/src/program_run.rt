//! Runs an accepted program: its output, its trap, its log and its races.

ghost use Rattle.std.specs.Prelude.{◌≡◌, ◌≤◌, [], IfOk};
ghost use Rattle.pipe_model.specs.Language.CheckingRules.{BreaksNoRule};
ghost use Rattle.pipe_model.specs.Language.SyntaxTree.{tree_of};
ghost use Rattle.pipe_model.specs.Races.FirstRaces.{AreFirstRaces};
ghost use Rattle.schedule_laws.specs.StartCounts.{instances_in};
ghost use Rattle.command_results.specs.declared.program_run.TheConstants as bounds;
ghost use Rattle.command_results.specs.RecordedRuns.{recorded};
ghost use Rattle.command_results.specs.RunTexts.{IsPrintedAs};
ghost use Rattle.serial_elision.specs.Elisions.{IsElision};
ghost use Rattle.pipe_model.specs.Language.ProgramsOfTrees.{whole_of};
ghost use Rattle.command_results.specs.RunResults.{IsFinishedRunOf};
ghost use Rattle.cilkp_words.specs.declared.ranges.TheConstants as ranges;
ghost use Rattle.pipe_model.specs.Pipelines.WholePrograms.{program_columns};
ghost use Rattle.command_results.specs.SerialResults.{elision_accesses, elision_columns, elision_output, elision_trap};
ghost use Rattle.pipe_model.specs.Races.Columns.{node_columns};

use dag_build::dag::Dag;
use pipe_check::checked::Checked;
use pipe_engine::run::{EngineRun, run};
use pipe_model::column::Columns;
use pipe_model::exit_status::{FINISHED, RACES, TRAPPED};
use pipe_model::list::{Bytes, Numbers};
use pipe_model::memory::NoMemory;
use pipe_model::report::Reports;
use pipe_model::trap::TrapAt;
use pipe_worker::gate::Gate;
use race_report::outcome::outcome_text;
use race_report::race_text::text;
use run_record::logged_run::LoggedRun;
use serial_elision::elision::{SerialRun, run_serial};
use stage_code::lower::lower;
use std::alloc::Global;
use std::sync::Wait;
use std::thread::Threads;

/// The most instances that are counted: more than a run of an accepted program has.
pub const MOST_COUNTED_INSTANCES: u64 = 1_000_000;

/// A finished run of a program.
#[derive(Drop)]
pub struct FinishedRun {
    /// The emitted numbers, in order.
    pub output: Numbers,
    /// The trap, if the program trapped.
    pub trap: Option<TrapAt>,
    /// The events of the run, and its columns.
    pub run_log: LoggedRun,
    /// A race of each cell that has one, rising by cell.
    pub reports: Reports,
}

/// A finished serial elision of a program, which has no run log.
#[derive(Drop)]
pub struct FinishedElision {
    /// The emitted numbers, in order.
    pub output: Numbers,
    /// The trap, if the program trapped.
    pub trap: Option<TrapAt>,
    /// A race of each cell that has one, rising by cell.
    pub reports: Reports,
}

/// Runs the serial elision of a program. Returns an error only if memory runs out.
pub fn elide(alloc: Global, checked: &Checked, input: &Numbers) -> Result<SerialRun, NoMemory>
    requires { BreaksNoRule (tree_of checked.now) }
    ensures { IfOk result (λ r. IsElision (whole_of (tree_of checked.now) input.now) r) }
{
    let code = lower(alloc, checked)?;
    run_serial(alloc, checked, &code, input)
}

/// Runs a program on an input with `workers` threads, which steal work from each other; at most
/// `throttle` iterations are alive. Finds the races of the run by the access histories of its cells.
/// The gate is asked before each stage instance. Returns an error only if memory runs out.
pub fn run_program<R: Threads + Wait + Sync, G: Gate + Sync>(
    rt: &R,
    alloc: Global,
    checked: &Checked,
    input: &Numbers,
    workers: u32,
    throttle: u32,
    gate: &G,
) -> Result<FinishedRun, NoMemory>
    requires accepted { BreaksNoRule (tree_of checked.now) }
    requires workers { 1 ≤ workers }
    requires throttle { (1 ≤ throttle) × (throttle ≤ ranges.MOST_THROTTLE) }
    ensures run { IfOk result (IsFinishedRunOf (tree_of checked.now) input.now throttle) }
    ensures columns { IfOk result (λ r. r.reports ≡ [] → r.run_log.columns ≡ program_columns (whole_of (tree_of checked.now) input.now)) }
{
    let code = lower(alloc, checked)?;
    let EngineRun {
        run_log,
        reports,
        output,
        trap,
    } = run(rt, alloc, checked, &code, input, workers, throttle, gate)?;
    Ok(FinishedRun {
        output,
        trap,
        run_log,
        reports,
    })
}

/// Runs the serial elision of a program on an input, and searches its explicit dag for the first
/// race of each cell. Returns an error only if memory runs out.
pub fn run_elision(
    alloc: Global,
    checked: &Checked,
    input: &Numbers,
) -> Result<FinishedElision, NoMemory>
    requires { BreaksNoRule (tree_of checked.now) }
    ensures output { IfOk result (λ r. r.output ≡ elision_output (tree_of checked.now) input.now) }
    ensures trap { IfOk result (λ r. r.trap ≡ elision_trap (tree_of checked.now) input.now) }
    ensures reports { IfOk result (λ r. AreFirstRaces (elision_columns (tree_of checked.now) input.now)
        (elision_accesses (tree_of checked.now) input.now) r.reports) }
{
    let SerialRun {
        output,
        trap,
        columns,
        accesses,
    } = elide(alloc, checked, input)?;
    let races = Dag::of(alloc, &columns)?.races(alloc, &accesses)?;
    Ok(FinishedElision {
        output,
        trap,
        reports: races,
    })
}

/// Returns the status and the text of a run: the lines of its races, or else its output and its
/// trap. Returns an error only if memory runs out.
pub fn printed_run(
    alloc: Global,
    checked: &Checked,
    output: &Numbers,
    trap: Option<TrapAt>,
    reports: &Reports,
) -> Result<(u8, Bytes), NoMemory>
    ensures { IfOk result (λ r. IsPrintedAs checked.now.cells output.now trap reports.now r.0 r.1) }
{
    if !reports.is_empty() {
        return Ok((RACES, text(alloc, reports, checked)?));
    }
    let lines = outcome_text(alloc, output, trap)?;
    match trap {
        None => Ok((FINISHED, lines)),
        Some(_) => Ok((TRAPPED, lines)),
    }
}

/// Returns the text of a run, followed by the lines of its log if `with_log` is set. Returns an error
/// only if memory runs out.
pub fn recorded(
    alloc: Global,
    checked: &Checked,
    with_log: bool,
    run_log: &LoggedRun,
    text: Bytes,
) -> Result<Bytes, NoMemory>
    ensures { IfOk result (λ whole. whole ≡ recorded with_log checked.now.cells run_log.now text) }
{
    if !with_log {
        return Ok(text);
    }
    let lines = run_log.text(alloc, checked)?;
    let mut whole = text.into_vec();
    whole.extend_from_slice(lines.as_slice())?;
    Ok(Bytes::from_vec(whole))
}

/// Counts the stage instances of the columns of a run.
pub fn instance_count(columns: &Columns) -> u64
    requires { instances_in (node_columns columns.now) ≤ bounds.MOST_COUNTED_INSTANCES }
    ensures { result ≡ instances_in (node_columns columns.now) }
{
    let mut count = 0;
    for column in columns.as_slice() {
        count += column.nodes.len() as u64;
    }
    count
}
