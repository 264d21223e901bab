//! Follows the events of a record, one by one.

ghost use Rattle.std.specs.Prelude.{◌≡◌, ◌≢◌, IfOk, All, [], length, false};
ghost use Rattle.std.specs.Bool.{OnTrue, OnFalse};
ghost use Rattle.pipe_model.specs.declared.event.Event.{Event as PlainEvent};
ghost use Rattle.pipe_model.specs.declared.event.Event.TheVariants as plain;
ghost use Rattle.record_check.specs.FollowedEvents.{HasFollowed, turn_for};
ghost use Rattle.schedule_play.specs.PlayStates.{IsPlay, KeepsProgram, pipeline_played};

use pipe_model::event::Event;
use pipe_model::list::Numbers;
use pipe_model::memory::NoMemory;
use schedule_play::player::Player;
use schedule_play::runner::PlayedCode;
use schedule_play::turns::Turn;
use stage_code::code::Code;

// The turn in which an event is made, if it is allowed.
fn turn_for(event: Event) -> Turn
    ensures { result ≡ turn_for event }
{
    match event {
        Event::Begin(_) => Turn::Begin,
        Event::Access(iteration, _) => Turn::Next(iteration),
        Event::Advance(iteration, _, _) => Turn::Next(iteration),
        Event::Enter(iteration) => Turn::Next(iteration),
        Event::Finish(iteration, _) => Turn::Next(iteration),
        Event::Stop => Turn::Begin,
    }
}

fn same_event(a: Event, b: Event) -> bool
    ensures yes { OnTrue result (a ≡ b) }
    ensures no { OnFalse result (a ≢ b) }
{
    a == b
}

/// Makes the events as long as they are allowed, and returns how many are.
pub fn follow<B: PlayedCode>(
    player: &mut Player<B>,
    code: &Code,
    input: &Numbers,
    events: &[Event],
) -> Result<usize, NoMemory>
    requires code { code.now ≡ B.code }
    requires input { input.now ≡ player.old.book.input }
    requires play { IsPlay B.code B.cells player.old }
    requires new { player.old.events ≡ [] }
    requires going { All (λ (e : PlainEvent). e ≢ plain.Stop) events.now }
    ensures play { IfOk result (λ n. IsPlay B.code B.cells player.new) }
    ensures followed { IfOk result (λ n. HasFollowed (pipeline_played player.old) player.old.book.limit events.now n) }
    ensures all { IfOk result (λ n. n ≡ length events.now → player.new.events ≡ events.now) }
    ensures keeps { IfOk result (λ n. KeepsProgram player.old player.new) }
{
    for k in 0..events.len() {
        let turn = turn_for(events[k]);
        if !player.has_turn(turn) {
            return Ok(k);
        }
        player.take_turn(code, input, turn)?;
        let made = player.events()[k];
        if !same_event(made, events[k]) {
            return Ok(k);
        }
    }
    Ok(events.len())
}
