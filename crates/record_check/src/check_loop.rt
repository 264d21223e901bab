//! Checks the events of a loop, over cells that `init` has left.

ghost use Rattle.std.specs.Prelude.{◌≡◌, ◌≢◌, ◌<◌, ◌≤◌, ◌+◌, ◌^◌, ◌++◌, ◌∷◌, [], ℕ, List, IfOk, All, length, take, IsTrue, ◌↔◌};
ghost use Rattle.cell_store.specs.ShardState.{IsStateAfter};
ghost use Rattle.pipe_model.specs.Language.CheckingRules.{BreaksNoRule, cell_total};
ghost use Rattle.pipe_model.specs.Language.Programs.{store_of};
ghost use Rattle.pipe_model.specs.Language.ProgramsOfTrees.{pipeline_after_init, whole_of};
ghost use Rattle.pipe_model.specs.Language.SyntaxTree.{tree_of};
ghost use Rattle.pipe_model.specs.Pipelines.WholePrograms.{init_accesses};
ghost use Rattle.pipe_model.specs.declared.event.Event.TheVariants as plain;
ghost use Rattle.record_check.specs.CheckedLoops.{IsFirstStop, IsLoopAnswer, kind_of, with_stop};
ghost use Rattle.schedule_play.specs.OneAccess.{HasAllCells};
ghost use Rattle.schedule_play.specs.PlayStates.{IsPlay, pipeline_played};
ghost use Rattle.stage_interp.specs.CellNumbers.{most_cell_ids};
ghost use Rattle.stage_interp.specs.RemainingBehaviour.{IsCodeOf};

use crate::answer::{RecordAnswer, RunKind};
use crate::follow::follow;
use cell_store::cells::Cells;
use pipe_check::checked::Checked;
use pipe_model::event::{Event, Events, RunLog};
use pipe_model::list::Numbers;
use pipe_model::memory::NoMemory;
use race_detection::detect::detect;
use run_record::own_columns::columns_of;
use schedule_play::player::Player;
use schedule_play::runner::PlayedCode;
use stage_code::code::Code;
use std::alloc::Global;
use std::marker::Brand;

fn is_stop(event: Event) -> bool
    ensures { IsTrue result ↔ (event ≡ plain.Stop) }
{
    match event {
        Event::Stop => true,
        Event::Begin(_) => false,
        Event::Access(_, _) => false,
        Event::Advance(_, _, _) => false,
        Event::Enter(_) => false,
        Event::Finish(_, _) => false,
    }
}

// The index of the first stop; the number of events if there is none.
fn first_stop(events: &[Event]) -> usize
    ensures { IsFirstStop events.now result }
{
    for k in 0..events.len() {
        if is_stop(events[k]) {
            return k;
        }
    }
    events.len()
}

// How far a run is.
fn kind_of(stopped: bool, finished: bool) -> RunKind
    ensures { result ≡ kind_of stopped finished }
{
    if stopped {
        return RunKind::Stopped;
    }
    if finished {
        return RunKind::Finished;
    }
    RunKind::Unfinished
}

// The events, with a stop after them if the run was stopped.
fn stopped_events(events: Events, stopped: bool) -> Result<Events, NoMemory>
    ensures { IfOk result (λ all. all ≡ with_stop stopped events) }
{
    let mut events = events;
    if stopped {
        events.push(Event::Stop)?;
        return Ok(events);
    }
    Ok(events)
}

// The answer for a run that was followed to its end, or to its stop.
fn end_record<B: PlayedCode>(
    alloc: Global,
    player: Player<B>,
    stopped: bool,
) -> Result<RecordAnswer, NoMemory>
    requires play { IsPlay B.code B.cells player }
    requires accepted { BreaksNoRule (tree_of player.book.program) }
    requires limit { 0 < player.book.limit }
    ensures { IfOk result (IsLoopAnswer (pipeline_played player) player.book.limit (with_stop stopped player.events)) }
{
    let finished = player.is_finished();
    let (events, cells) = player.into_run();
    drop(cells);
    let events = stopped_events(events, stopped)?;
    let columns = columns_of(alloc, events.as_slice())?;
    let run_log = RunLog { columns, events };
    let reports = detect(alloc, &run_log)?;
    Ok(RecordAnswer::Run(kind_of(stopped, finished), run_log, reports))
}

// Checks the events of a loop with a player at its beginning.
fn check_on<B: PlayedCode>(
    alloc: Global,
    player: Player<B>,
    code: &Code,
    input: &Numbers,
    events: &[Event],
) -> Result<RecordAnswer, NoMemory>
    requires code { code.now ≡ B.code }
    requires input { input.now ≡ player.book.input }
    requires play { IsPlay B.code B.cells player }
    requires new { player.events ≡ [] }
    requires accepted { BreaksNoRule (tree_of player.book.program) }
    requires limit { 0 < player.book.limit }
    requires short { length events.now < 2 ^ 32 }
    ensures { IfOk result (IsLoopAnswer (pipeline_played player) player.book.limit events.now) }
{
    let mut player = player;
    let stop = first_stop(events);
    let going = &events[..stop];
    match follow(&mut player, code, input, going) {
        Ok(count) => {
            if count < stop {
                drop(player);
                return Ok(RecordAnswer::NotAllowed(count as u32));
            }
            if stop + 1 < events.len() {
                drop(player);
                return Ok(RecordAnswer::NotAllowed(stop as u32 + 1));
            }
            end_record(alloc, player, stop < events.len())
        }
        Err(refused) => {
            drop(player);
            Err(refused)
        }
    }
}

// Checks the events of a loop, with the code and the number of cells of `B`.
fn check_coded<B: PlayedCode>(
    alloc: Global,
    checked: &Checked,
    code: &Code,
    input: &Numbers,
    throttle: u32,
    cells: Cells,
    events: &Events,
) -> Result<RecordAnswer, NoMemory>
    requires code { code.now ≡ B.code }
    requires count { cells.shard.cells ≡ B.cells }
    requires code_of { IsCodeOf (tree_of checked.now) code.now }
    requires accepted { BreaksNoRule (tree_of checked.now) }
    requires throttle { 0 < throttle }
    requires served { cell_total (tree_of checked.now).cells + 2 ≤ cells.shard.cells }
    requires bounded { cells.shard.cells ≤ most_cell_ids }
    requires all { HasAllCells cells }
    requires state { IsStateAfter (store_of (tree_of checked.now)) (init_accesses (whole_of (tree_of checked.now) input.now)) cells }
    requires short { length events.now < 2 ^ 32 }
    ensures { IfOk result (IsLoopAnswer (pipeline_after_init (tree_of checked.now) input.now) throttle events.now) }
{
    match Player::<B>::new(alloc, checked, code, input, throttle, cells) {
        Ok(player) => check_on(alloc, player, code, input, events.as_slice()),
        Err(refused) => Err(refused),
    }
}

/// Checks whether the events are a run of an accepted program's loop, over cells that `init` has left,
/// and finds its races. Returns an error only if memory runs out.
pub fn check_loop(
    alloc: Global,
    checked: &Checked,
    code: &Code,
    input: &Numbers,
    throttle: u32,
    cells: Cells,
    events: &Events,
) -> Result<RecordAnswer, NoMemory>
    requires code_of { IsCodeOf (tree_of checked.now) code.now }
    requires accepted { BreaksNoRule (tree_of checked.now) }
    requires throttle { 0 < throttle }
    requires served { cell_total (tree_of checked.now).cells + 2 ≤ cells.shard.cells }
    requires bounded { cells.shard.cells ≤ most_cell_ids }
    requires all { HasAllCells cells }
    requires state { IsStateAfter (store_of (tree_of checked.now)) (init_accesses (whole_of (tree_of checked.now) input.now)) cells }
    requires short { length events.now < 2 ^ 32 }
    ensures { IfOk result (IsLoopAnswer (pipeline_after_init (tree_of checked.now) input.now) throttle events.now) }
{
    check_coded::<Brand>(alloc, checked, code, input, throttle, cells, events)
}
