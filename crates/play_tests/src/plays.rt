//! Programs that are played without an input.

ghost use Rattle.std.specs.Prelude.{◌≡◌, ◌<◌};
ghost use Rattle.pipe_model.specs.Language.CheckingRules.{BreaksNoRule};
ghost use Rattle.pipe_model.specs.Language.SyntaxTree.{tree_of};

use pipe_check::checked::Checked;
use pipe_model::list::Numbers;
use pipe_model::memory::NoMemory;
use schedule_play::program_play::{Played, play};
use stage_code::lower::lower;
use std::alloc::Global;

/// The most instances that run at a time, the most iterations that are alive, and the most events.
#[derive(Clone, Copy)]
pub struct Bounds {
    pub workers: u32,
    pub throttle: u32,
    pub turns: u64,
}

/// Returns these bounds.
pub fn limits(workers: u32, throttle: u32, turns: u64) -> Bounds
    ensures workers { result.workers ≡ workers }
    ensures throttle { result.throttle ≡ throttle }
{
    Bounds {
        workers,
        throttle,
        turns,
    }
}

/// Plays an accepted program by these choices. Returns an error only if memory runs out.
pub fn play_of(
    alloc: Global,
    checked: &Checked,
    limits: Bounds,
    choices: &[u32],
) -> Result<Played, NoMemory>
    requires accepted { BreaksNoRule (tree_of checked.now) }
    requires workers { 0 < limits.workers }
    requires throttle { 0 < limits.throttle }
{
    let code = lower(alloc, checked)?;
    let input = Numbers::new(alloc);
    let Bounds {
        workers,
        throttle,
        turns,
    } = limits;
    let played = play(
        alloc, checked, &code, &input, workers, throttle, choices, turns,
    );
    drop(code);
    drop(input);
    played
}
