//! A program, played on one thread by a schedule: `init`, the loop, `final`.

ghost use Rattle.std.specs.Prelude.{◌≡◌, ◌≢◌, ◌↔◌, ◌<◌, ◌≤◌, ◌++◌, ◌+◌, ◌*◌, [], ℕ, List, IfOk, None, IsTrue, false, is_some, length};
ghost use Rattle.cell_store.specs.ShardState.{IsStateAfter};
ghost use Rattle.pipe_model.specs.declared.bounds.TheConstants.{MOST_ITERATIONS, MOST_STAGES, MOST_STEPS};
ghost use Rattle.pipe_model.specs.declared.event.Event.{Event as EventOf};
ghost use Rattle.pipe_model.specs.Language.Programs.{natural, store_of};
ghost use Rattle.pipe_model.specs.Language.ProgramsOfTrees.{pipeline_after_init, whole_of};
ghost use Rattle.pipe_model.specs.Language.CheckingRules.{BreaksNoRule};
ghost use Rattle.pipe_model.specs.Language.SyntaxTree.{SyntaxTree, tree_of};
ghost use Rattle.pipe_model.specs.Orders.Starts.{starts_of};
ghost use Rattle.pipe_model.specs.Pipelines.WholePrograms as whole_programs;
ghost use Rattle.pipe_model.specs.Pipelines.WholePrograms.{init_accesses};
ghost use Rattle.pipe_model.specs.Races.Reports.{AreRight};
ghost use Rattle.pipe_model.specs.Runs.Run.{Run};
ghost use Rattle.pipe_model.specs.Runs.RunLogs.{accesses_after, columns_after, ended_columns_after, state_after};
ghost use Rattle.pipe_model.specs.Runs.Schedules.{candidates, running_instances};
ghost use Rattle.pipe_model.specs.Runs.State.{accesses_of};
ghost use Rattle.pipe_model.specs.Runs.Throttling.{IsThrottled};
ghost use Rattle.pipe_model.specs.Runs.WholeProgramRuns.{ProgramIsFinished, ProgramRun, played_output, played_trap};
ghost use Rattle.program_ends.specs.ProgramEnds.{reaches_final};
ghost use Rattle.schedule_laws.specs.StartCounts.{most_instances};
ghost use Rattle.race_detection.specs.FoundReports.{found_reports};
ghost use Rattle.schedule_play.specs.ProgramPlays.{HasElisionResults, IsEndOfLoop, IsPlayed, MeetsPlayGuarantees, enough_turns};
ghost use Rattle.schedule_play.specs.ProgramPlays.{played_events};
ghost use Rattle.serial_elision.specs.PartRuns.{Serves};
ghost use Rattle.stage_code.specs.LimitRanges.{HasRangesOfLimits};
ghost use Rattle.stage_interp.specs.MachineState.{IsMadeFor};
ghost use Rattle.stage_interp.specs.RemainingBehaviour.{IsCodeOf};

use crate::loop_play::{LoopPlay, PlayLimits, play_loop};
use cell_store::cells::Cells;
use pipe_check::checked::Checked;
use pipe_model::column::Columns;
use pipe_model::event::{Events, RunLog};
use pipe_model::list::Numbers;
use pipe_model::memory::NoMemory;
use pipe_model::report::Reports;
use pipe_model::trap::{TrapAt, TrapPlace};
use pipe_model::tree::Limits;
use program_ends::ends;
use program_ends::ends::ProgramResults;
use serial_elision::outer_parts::{first_cells, run_alone};
use serial_elision::prepared::Prepared;
use stage_code::code::Code;
use stage_code::instr::Part;
use stage_interp::machine::Machine;
use std::alloc::Global;

/// A program that was played.
#[derive(Drop)]
pub struct Played {
    /// The events of the loop in the order in which they were made, and their columns. There are
    /// none if `init` trapped.
    pub run_log: RunLog,
    /// A race of each cell for which its access history found one, rising by cell. These are the cells
    /// that race in the run's own dag.
    pub reports: Reports,
    /// The emitted numbers of `init`, of the loop and of `final`, in order, up to the limit.
    pub output: Numbers,
    /// The trap of `init`, or else of the least iteration that trapped, or else of `final`.
    pub trap: Option<TrapAt>,
    /// Whether the run is finished. It is if `init` trapped.
    pub finished: bool,
}

// Ends the play of a program whose `init` trapped.
fn end_after_init(
    alloc: Global,
    prepared: &Prepared,
    limits: PlayLimits,
    choices: &[u32],
    trap: Option<TrapAt>,
    cells: Cells,
) -> Played
    requires trap { trap ≡ whole_programs.init_trap (whole_of (tree_of prepared.now.checked.now) prepared.now.input.now) }
    requires trapped { IsTrue (is_some trap) }
    requires serves { Serves (tree_of prepared.now.checked.now) cells }
    requires state { IsStateAfter (store_of (tree_of prepared.now.checked.now))
        (init_accesses (whole_of (tree_of prepared.now.checked.now) prepared.now.input.now)) cells }
    ensures { IsPlayed (tree_of prepared.now.checked.now) prepared.now.input.now limits choices.now result }
{
    let ProgramResults { output, trap } = ends::end_after_init(prepared, trap, cells);
    Played {
        run_log: RunLog {
            columns: Columns::new(alloc),
            events: Events::new(alloc),
        },
        reports: Reports::new(alloc),
        output,
        trap,
        finished: true,
    }
}

// Runs `final` after a loop that was played, if the run is finished and there is neither a race nor a
// trap.
fn end_after_loop(
    alloc: Global,
    machine: &mut Machine,
    prepared: &Prepared,
    play: LoopPlay,
) -> Result<Played, NoMemory>
    requires code { IsCodeOf (tree_of prepared.now.checked.now) prepared.now.code.now }
    requires made { IsMadeFor prepared.now.code.now machine.old }
    requires accepted { BreaksNoRule (tree_of prepared.now.checked.now) }
    requires no_trap { is_some (whole_programs.init_trap (whole_of (tree_of prepared.now.checked.now) prepared.now.input.now)) ≡ false }
    requires run { (limit : ℕ) × Run (pipeline_after_init (tree_of prepared.now.checked.now) prepared.now.input.now) limit
        play.run_log.events (state_after play.run_log.events) }
    requires columns { play.run_log.columns ≡ ended_columns_after play.run_log.events }
    requires serves { Serves (tree_of prepared.now.checked.now) play.cells }
    requires state { IsStateAfter (store_of (tree_of prepared.now.checked.now))
        (init_accesses (whole_of (tree_of prepared.now.checked.now) prepared.now.input.now) ++ accesses_of
        (accesses_after play.run_log.events)) play.cells }
    ensures { IfOk result (IsEndOfLoop (whole_of (tree_of prepared.now.checked.now) prepared.now.input.now) play) }
{
    let LoopPlay {
        run_log,
        reports,
        finished,
        cells,
    } = play;
    let columns = &run_log.columns;
    let ProgramResults { output, trap } = ends::end_after_loop(
        alloc, machine, prepared, columns, &reports, finished, cells,
    )?;
    Ok(Played {
        run_log,
        reports,
        output,
        trap,
        finished,
    })
}

// Plays `init`, and what follows it.
fn play_prepared(
    alloc: Global,
    machine: &mut Machine,
    prepared: &Prepared,
    limits: PlayLimits,
    choices: &[u32],
) -> Result<Played, NoMemory>
    requires code { IsCodeOf (tree_of prepared.now.checked.now) prepared.now.code.now }
    requires made { IsMadeFor prepared.now.code.now machine.old }
    requires accepted { BreaksNoRule (tree_of prepared.now.checked.now) }
    requires workers { 0 < limits.workers }
    requires throttle { 0 < limits.throttle }
    ensures played { IfOk result (IsPlayed (tree_of prepared.now.checked.now) prepared.now.input.now limits choices.now) }
    ensures meets { IfOk result (MeetsPlayGuarantees (tree_of prepared.now.checked.now) prepared.now.input.now limits) }
{
    let cells = first_cells(alloc, prepared.checked)?;
    let init = run_alone(alloc, machine, prepared, Part::Init, TrapPlace::Init, cells)?;
    drop(init.accesses);
    if init.trap.is_some() {
        return Ok(end_after_init(alloc, prepared, limits, choices, init.trap, init.cells));
    }
    let play = play_loop(
        alloc,
        prepared.checked,
        prepared.code,
        prepared.input,
        limits,
        choices,
        init.cells,
    );
    match play {
        Ok(play) => end_after_loop(alloc, machine, prepared, play),
        Err(refused) => Err(refused),
    }
}

// Returns the greatest number of instances in a run of a program with these limits.
fn most_instances(limits: Limits) -> u64
    requires { HasRangesOfLimits limits }
    ensures count { result ≡ natural limits.iterations * natural limits.stages + 1 }
    ensures bounded { result ≤ natural MOST_ITERATIONS * natural MOST_STAGES + 1 }
{
    limits.iterations as u64 * limits.stages as u64 + 1
}

// Returns a number of turns that is enough for an instance: two for each step and two more.
fn turns_of_instance(limits: Limits) -> u64
    requires { HasRangesOfLimits limits }
    ensures count { result ≡ 2 * natural limits.steps + 2 }
    ensures bounded { result ≤ 2 * natural MOST_STEPS + 2 }
{
    2 * limits.steps as u64 + 2
}

/// Returns a number of turns that is enough for every schedule of the program: for each instance that a
/// run may have, `iterations` times `stages` and one of them by the limits, two for each step and two
/// more. It is less than 2^50.
pub fn enough_turns(code: &Code) -> u64
    ensures { (tree : SyntaxTree) → IsCodeOf tree code.now → result ≡ enough_turns tree }
{
    let limits = code.limits();
    most_instances(limits) * turns_of_instance(limits)
}

/// Plays an accepted program on an input by a schedule, on one thread (Lee et al. 2013): `init`; the
/// loop, of which at most `workers` instances run at a time and at most `throttle` iterations are
/// alive; and `final`, exactly if the run is finished and there is neither a race nor a trap. Event
/// number `j` of the loop, counted from 0, is the candidate whose index is choice `j` modulo the
/// number of candidates; after the last choice the first is used again, and without choices the index
/// is 0. The candidates are the next event of each iteration, by rising number, and then the beginning
/// of the next one; an event that starts an instance is one only while fewer than `workers` run. At
/// most `turns` events are made, and fewer only if the run is finished. Both `workers` and `throttle`
/// are at least 1.
///
/// If the run is finished, it has a report exactly if the program's serial elision has a race, and
/// otherwise the elision's columns, output and trap. Until then each state has a candidate, and there are at
/// most `enough_turns` events, so with that many turns the run is finished.
///
/// # Errors
/// Out of memory.
pub fn play(
    alloc: Global,
    checked: &Checked,
    code: &Code,
    input: &Numbers,
    workers: u32,
    throttle: u32,
    choices: &[u32],
    turns: u64,
) -> Result<Played, NoMemory>
    requires code { IsCodeOf (tree_of checked.now) code.now }
    requires accepted { BreaksNoRule (tree_of checked.now) }
    requires workers { 0 < workers }
    requires throttle { 0 < throttle }
    ensures events { IfOk result (λ r. r.run_log.events ≡ played_events (tree_of checked.now) input.now workers throttle choices.now
        turns) }
    ensures run { IfOk result (λ r. ProgramRun (whole_of (tree_of checked.now) input.now) throttle r.run_log.events
        (state_after r.run_log.events)) }
    ensures columns { IfOk result (λ r. r.run_log.columns ≡ ended_columns_after r.run_log.events) }
    ensures workers { IfOk result (λ r. (before after : List EventOf) → r.run_log.events ≡ before ++ after
        → running_instances (state_after before) ≤ workers) }
    ensures throttled { IfOk result (λ r. IsThrottled throttle r.run_log.events) }
    ensures finished { IfOk result (λ r. IsTrue r.finished ↔ ProgramIsFinished (whole_of (tree_of checked.now) input.now)
        (state_after r.run_log.events)) }
    ensures turns { IfOk result (λ r. (IsTrue r.finished → ⊥) → length r.run_log.events ≡ turns) }
    ensures reports { IfOk result (λ r. r.reports ≡ found_reports (columns_after r.run_log.events) (starts_of r.run_log.events)
        (accesses_after r.run_log.events)) }
    ensures right { IfOk result (λ r. AreRight (columns_after r.run_log.events) (accesses_after r.run_log.events) r.reports) }
    ensures output { IfOk result (λ r. r.output ≡ played_output (whole_of (tree_of checked.now) input.now)
        (reaches_final r.finished r.reports)
        (state_after r.run_log.events)) }
    ensures trap { IfOk result (λ r. r.trap ≡ played_trap (whole_of (tree_of checked.now) input.now) (reaches_final r.finished r.reports)
        (state_after r.run_log.events)) }
    ensures elision { IfOk result (λ r. IsTrue r.finished → HasElisionResults (whole_of (tree_of checked.now) input.now) r) }
    ensures enough { IfOk result (λ r. enough_turns (tree_of checked.now) ≤ turns → IsTrue r.finished) }
    ensures goes_on { IfOk result (λ r. (before after : List EventOf) → r.run_log.events ≡ before ++ after
        → (ProgramIsFinished (whole_of (tree_of checked.now) input.now) (state_after before) → ⊥)
        → candidates (pipeline_after_init (tree_of checked.now) input.now) throttle workers (state_after before) ≢ []) }
    ensures bounded { IfOk result (λ r. length r.run_log.events ≤ enough_turns (tree_of checked.now)) }
    ensures instances { IfOk result (λ r. length (starts_of r.run_log.events) ≤ most_instances (tree_of checked.now)) }
{
    let prepared = Prepared {
        checked,
        code,
        input,
    };
    let limits = PlayLimits {
        workers,
        throttle,
        turns,
    };
    let mut machine = Machine::new(alloc, code)?;
    let played = play_prepared(alloc, &mut machine, &prepared, limits, choices);
    drop(machine);
    played
}
