//! Schedules, played on one thread.

ghost use Rattle.std.specs.Prelude.{◌≡◌, ◌<◌, [], IfOk};
ghost use Rattle.pipe_model.specs.Runs.Schedules.{choice_at, played};
ghost use Rattle.schedule_play.specs.PlayStates.{IsPlay, KeepsProgram, pipeline_played};

use crate::player::Player;
use crate::runner::PlayedCode;
use pipe_model::list::Numbers;
use pipe_model::memory::NoMemory;
use stage_code::code::Code;

// Returns choice `turn`; after the last choice the first is used again. Returns 0 if there is none.
fn choice_at(choices: &[u32], turn: u64) -> u32
    ensures { result ≡ choice_at choices.now turn }
{
    if choices.is_empty() {
        return 0;
    }
    choices[(turn % choices.len() as u64) as usize]
}

/// Makes at most `turns` events, each by its choice, of a run in which at most `workers` instances run
/// at a time; fewer if the run is finished before. Returns an error only if memory runs out.
pub fn play_turns<B: PlayedCode>(
    player: &mut Player<B>,
    code: &Code,
    input: &Numbers,
    workers: u32,
    choices: &[u32],
    turns: u64,
) -> Result<(), NoMemory>
    requires code { code.now ≡ B.code }
    requires input { input.now ≡ player.old.book.input }
    requires play { IsPlay B.code B.cells player.old }
    requires new { player.old.events ≡ [] }
    ensures play { IfOk result (λ u. IsPlay B.code B.cells player.new) }
    ensures events { IfOk result (λ u. player.new.events ≡ played (pipeline_played player.old) player.old.book.limit workers choices.now
        turns) }
    ensures keeps { IfOk result (λ u. KeepsProgram player.old player.new) }
{
    for turn in 0..turns {
        let choice = choice_at(choices, turn);
        let Some(next) = player.choose(workers, choice) else {
            return Ok(());
        };
        player.take_turn(code, input, next)?;
    }
    Ok(())
}
