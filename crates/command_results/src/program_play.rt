//! Plays an accepted program by the schedule of a seed.

ghost use Rattle.std.specs.Prelude.{◌≡◌, ◌≤◌, None, ℕ, List, IfOk};
ghost use Rattle.command_results.specs.RunResults.{IsSeededPlay};
ghost use Rattle.pipe_gen.specs.declared.choices.TheConstants as seeds;
ghost use Rattle.pipe_model.specs.Language.CheckingRules.{BreaksNoRule};
ghost use Rattle.pipe_model.specs.Language.SyntaxTree.{tree_of};

use crate::program_run::FinishedRun;
use pipe_check::checked::Checked;
use pipe_model::list::Numbers;
use pipe_model::memory::NoMemory;
use run_record::logged_run::LoggedRun;
use schedule_play::choices::choices;
use schedule_play::program_play::{Played, enough_turns, play};
use stage_code::lower::lower;
use std::alloc::Global;

/// Plays a program on an input by the schedule that the choices of a seed make, to its end: at most
/// `workers` instances run, and at most `throttle` iterations are alive. Finds the races of the run by
/// the access histories of its cells. Returns an error only if memory runs out.
pub fn play_program(
    alloc: Global,
    checked: &Checked,
    input: &Numbers,
    workers: u32,
    throttle: u32,
    seed: u32,
) -> Result<FinishedRun, NoMemory>
    requires accepted { BreaksNoRule (tree_of checked.now) }
    requires workers { 1 ≤ workers }
    requires throttle { 1 ≤ throttle }
    requires seed { seed ≤ seeds.MOST_SEED }
    ensures { IfOk result (IsSeededPlay (tree_of checked.now) input.now workers throttle seed) }
{
    let code = lower(alloc, checked)?;
    let choices = choices(alloc, seed)?;
    let Played {
        run_log,
        reports,
        output,
        trap,
        finished: _,
    } = play(
        alloc,
        checked,
        &code,
        input,
        workers,
        throttle,
        choices.as_slice(),
        enough_turns(&code),
    )?;
    Ok(FinishedRun {
        output,
        trap,
        run_log: LoggedRun::of_run_log(run_log),
        reports,
    })
}
