//! The loop of a program, played on one thread by a schedule.

ghost use Rattle.std.specs.Prelude.{◌≡◌, ◌<◌, ◌≤◌, ◌+◌, [], ℕ, List, IfOk, None};
ghost use Rattle.cell_store.specs.ShardState.{IsStateAfter};
ghost use Rattle.pipe_model.specs.Language.CheckingRules.{cell_total};
ghost use Rattle.pipe_model.specs.Language.Programs.{store_of};
ghost use Rattle.pipe_model.specs.Language.ProgramsOfTrees.{whole_of};
ghost use Rattle.pipe_model.specs.Language.CheckingRules.{BreaksNoRule};
ghost use Rattle.pipe_model.specs.Language.SyntaxTree.{tree_of};
ghost use Rattle.pipe_model.specs.Pipelines.WholePrograms.{init_accesses};
ghost use Rattle.schedule_play.specs.LoopPlays.{IsEndOf, IsLoopPlay};
ghost use Rattle.schedule_play.specs.OneAccess.{HasAllCells};
ghost use Rattle.schedule_play.specs.PlayStates.{IsPlay};
ghost use Rattle.stage_interp.specs.CellNumbers.{most_cell_ids};
ghost use Rattle.stage_interp.specs.RemainingBehaviour.{IsCodeOf};

use crate::play::play_turns;
use crate::player::Player;
use crate::runner::PlayedCode;
use cell_store::cells::Cells;
use pipe_check::checked::Checked;
use pipe_model::event::RunLog;
use pipe_model::list::Numbers;
use pipe_model::memory::NoMemory;
use pipe_model::report::Reports;
use race_detection::detect::detect;
use run_record::own_columns::columns_of;
use stage_code::code::Code;
use std::alloc::Global;
use std::marker::Brand;

/// How a loop is played.
#[derive(Clone, Copy)]
pub struct PlayLimits {
    /// The most instances that run at a time, at least 1.
    pub workers: u32,
    /// The most iterations that are alive at a time, at least 1.
    pub throttle: u32,
    /// The most events that are made.
    pub turns: u64,
}

/// A loop that was played.
#[derive(Drop)]
pub struct LoopPlay {
    /// The events in the order in which they were made, and their columns.
    pub run_log: RunLog,
    /// A race of each cell for which its access history found one, rising by cell.
    pub reports: Reports,
    /// Whether the run is finished.
    pub finished: bool,
    /// The cells after the events.
    pub cells: Cells,
}

// Finds the races of a run that was played.
fn end_play<B: PlayedCode>(alloc: Global, player: Player<B>) -> Result<LoopPlay, NoMemory>
    requires play { IsPlay B.code B.cells player }
    requires accepted { BreaksNoRule (tree_of player.book.program) }
    requires limit { 0 < player.book.limit }
    ensures { IfOk result (IsEndOf player) }
{
    let finished = player.is_finished();
    let (events, cells) = player.into_run();
    let columns = columns_of(alloc, events.as_slice())?;
    let run_log = RunLog { columns, events };
    let reports = detect(alloc, &run_log)?;
    Ok(LoopPlay {
        run_log,
        reports,
        finished,
        cells,
    })
}

// Plays a loop with a player at its beginning.
fn play_on<B: PlayedCode>(
    alloc: Global,
    player: Player<B>,
    code: &Code,
    input: &Numbers,
    limits: PlayLimits,
    choices: &[u32],
) -> Result<LoopPlay, NoMemory>
    requires code { code.now ≡ B.code }
    requires input { input.now ≡ player.book.input }
    requires play { IsPlay B.code B.cells player }
    requires new { player.events ≡ [] }
    requires accepted { BreaksNoRule (tree_of player.book.program) }
    requires workers { 0 < limits.workers }
    requires throttle { 0 < limits.throttle }
    requires limit { player.book.limit ≡ limits.throttle }
    ensures { IfOk result (IsLoopPlay (tree_of player.book.program) player.book.input limits choices.now) }
{
    let mut player = player;
    let played = play_turns(
        &mut player,
        code,
        input,
        limits.workers,
        choices,
        limits.turns,
    );
    match played {
        Ok(()) => end_play(alloc, player),
        Err(refused) => {
            drop(player);
            Err(refused)
        }
    }
}

// Plays a loop, with the code and the number of cells of `B`.
fn play_coded<B: PlayedCode>(
    alloc: Global,
    checked: &Checked,
    code: &Code,
    input: &Numbers,
    limits: PlayLimits,
    choices: &[u32],
    cells: Cells,
) -> Result<LoopPlay, NoMemory>
    requires code { code.now ≡ B.code }
    requires count { cells.shard.cells ≡ B.cells }
    requires code_of { IsCodeOf (tree_of checked.now) code.now }
    requires accepted { BreaksNoRule (tree_of checked.now) }
    requires workers { 0 < limits.workers }
    requires throttle { 0 < limits.throttle }
    requires served { cell_total (tree_of checked.now).cells + 2 ≤ cells.shard.cells }
    requires bounded { cells.shard.cells ≤ most_cell_ids }
    requires all { HasAllCells cells }
    requires state { IsStateAfter (store_of (tree_of checked.now)) (init_accesses (whole_of (tree_of checked.now) input.now)) cells }
    ensures { IfOk result (IsLoopPlay (tree_of checked.now) input.now limits choices.now) }
{
    match Player::<B>::new(alloc, checked, code, input, limits.throttle, cells) {
        Ok(player) => play_on(alloc, player, code, input, limits, choices),
        Err(refused) => Err(refused),
    }
}

/// Plays the loop of an accepted program by a schedule, over cells that `init` has left, on one thread
/// (Lee et al. 2013). Event number `j`, counted from 0, is the candidate whose index is choice `j` modulo
/// the number of candidates; after the last choice the first is used again, and without choices the
/// index is 0. The candidates are the next event of each iteration, by rising number, and then the
/// beginning of the next one. Returns an error only if memory runs out.
pub fn play_loop(
    alloc: Global,
    checked: &Checked,
    code: &Code,
    input: &Numbers,
    limits: PlayLimits,
    choices: &[u32],
    cells: Cells,
) -> Result<LoopPlay, NoMemory>
    requires code_of { IsCodeOf (tree_of checked.now) code.now }
    requires accepted { BreaksNoRule (tree_of checked.now) }
    requires workers { 0 < limits.workers }
    requires throttle { 0 < limits.throttle }
    requires served { cell_total (tree_of checked.now).cells + 2 ≤ cells.shard.cells }
    requires bounded { cells.shard.cells ≤ most_cell_ids }
    requires all { HasAllCells cells }
    requires state { IsStateAfter (store_of (tree_of checked.now)) (init_accesses (whole_of (tree_of checked.now) input.now)) cells }
    ensures { IfOk result (IsLoopPlay (tree_of checked.now) input.now limits choices.now) }
{
    play_coded::<Brand>(alloc, checked, code, input, limits, choices, cells)
}
