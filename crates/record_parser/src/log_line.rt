//! The lines of events.

ghost use Rattle.std.specs.Prelude.{◌≡◌, ◌↔◌, ◌≤◌, ℕ, ℤ, IfNone, IfSome, IsTrue, codes};
ghost use Rattle.pipe_model.specs.Language.CheckingRules.{cell_total};
ghost use Rattle.pipe_model.specs.declared.bounds.TheConstants.{MOST_CELLS};
ghost use Rattle.pipe_model.specs.declared.event.Event.{Event as PlainEvent};
ghost use Rattle.pipe_model.specs.declared.trap.Trap.{Trap as PlainTrap};
ghost use Rattle.record_parser.specs.ByteDivisions.{IsFreeOf};
ghost use Rattle.record_parser.specs.LogForms.{HasFields, IsAccessText, IsAlone, IsStageText, IsTrapText, space};
ghost use Rattle.record_parser.specs.RecordLines.{IsLogLine};

use crate::log_word::{LogWord, log_word};
use crate::names::{cell_field, trap_field};
use crate::numbers::{iteration_field, signed_field};
use crate::split::{split_at_first, split_at_last};
use pipe_model::access::{Access, AccessKind, CellId};
use pipe_model::column::ColumnEnd;
use pipe_model::event::Event;
use pipe_model::trap::Trap;
use pipe_model::tree::{Declaration, StageKind};

// An iteration and a stage number.
#[derive(Clone, Copy)]
struct StageFields {
    iteration: u32,
    number: i64,
}

// An iteration and its trap.
#[derive(Clone, Copy)]
struct TrapFields {
    iteration: u32,
    trap: Trap,
}

// An iteration, a cell and a value.
#[derive(Clone, Copy)]
struct AccessFields {
    iteration: u32,
    cell: CellId,
    value: i64,
}

fn stage_fields(bytes: &[u8]) -> Option<StageFields>
    ensures some { IfSome result (λ f. IsStageText bytes.now f.iteration f.number) }
    ensures none { IfNone result ((i : ℕ) (n : ℤ) → IsStageText bytes.now i n → ⊥) }
{
    let Some((first, second)) = split_at_first(bytes, b' ') else {
        return None;
    };
    let Some(iteration) = iteration_field(first) else {
        return None;
    };
    let Some(number) = signed_field(second) else {
        return None;
    };
    Some(StageFields { iteration, number })
}

fn trap_fields(bytes: &[u8]) -> Option<TrapFields>
    ensures some { IfSome result (λ f. IsTrapText bytes.now f.iteration f.trap) }
    ensures none { IfNone result ((i : ℕ) (t : PlainTrap) → IsTrapText bytes.now i t → ⊥) }
{
    let Some((first, second)) = split_at_first(bytes, b' ') else {
        return None;
    };
    let Some(iteration) = iteration_field(first) else {
        return None;
    };
    let Some(trap) = trap_field(second) else {
        return None;
    };
    Some(TrapFields { iteration, trap })
}

// The name of a cell may have any bytes here, so the value is what follows the last space.
fn access_fields(cells: &[Declaration], bytes: &[u8]) -> Option<AccessFields>
    requires bounded { cell_total cells.now ≤ MOST_CELLS }
    ensures some { IfSome result (λ f. IsAccessText cells.now bytes.now f.iteration f.cell.0 f.value) }
    ensures none { IfNone result ((i c : ℕ) (v : ℤ) → IsAccessText cells.now bytes.now i c v → ⊥) }
{
    let Some((first, others)) = split_at_first(bytes, b' ') else {
        return None;
    };
    let Some((second, third)) = split_at_last(others, b' ') else {
        return None;
    };
    let Some(iteration) = iteration_field(first) else {
        return None;
    };
    let Some(cell) = cell_field(cells, second) else {
        return None;
    };
    let Some(value) = signed_field(third) else {
        return None;
    };
    Some(AccessFields {
        iteration,
        cell,
        value,
    })
}

// The event of an access, by the fields after its word.
fn access_event(cells: &[Declaration], kind: AccessKind, fields: &[u8]) -> Option<Event>
    requires bounded { cell_total cells.now ≤ MOST_CELLS }
    ensures some { IfSome result (λ e. HasFields cells.now fields.now (LogWord.Access kind) e) }
    ensures none { IfNone result ((e : PlainEvent) → HasFields cells.now fields.now (LogWord.Access kind) e → ⊥) }
{
    let Some(f) = access_fields(cells, fields) else {
        return None;
    };
    let access = Access {
        cell: f.cell,
        kind,
        value: f.value,
    };
    Some(Event::Access(f.iteration, access))
}

// The event of a next stage, by the fields after its word.
fn stage_event(cells: &[Declaration], kind: StageKind, fields: &[u8]) -> Option<Event>
    ensures some { IfSome result (λ e. HasFields cells.now fields.now (LogWord.Stage kind) e) }
    ensures none { IfNone result ((e : PlainEvent) → HasFields cells.now fields.now (LogWord.Stage kind) e → ⊥) }
{
    let Some(f) = stage_fields(fields) else {
        return None;
    };
    Some(Event::Advance(f.iteration, kind.kind(), f.number))
}

// The event of the trap of an iteration, by the fields after its word.
fn trap_event(cells: &[Declaration], fields: &[u8]) -> Option<Event>
    ensures some { IfSome result (λ e. HasFields cells.now fields.now LogWord.Trap e) }
    ensures none { IfNone result ((e : PlainEvent) → HasFields cells.now fields.now LogWord.Trap e → ⊥) }
{
    let Some(f) = trap_fields(fields) else {
        return None;
    };
    Some(Event::Finish(f.iteration, ColumnEnd::Trapped(f.trap)))
}

// The event of a word with an iteration alone.
fn iteration_event(cells: &[Declaration], word: LogWord, fields: &[u8]) -> Option<Event>
    requires alone { IsAlone word }
    ensures some { IfSome result (λ e. HasFields cells.now fields.now word e) }
    ensures none { IfNone result ((e : PlainEvent) → HasFields cells.now fields.now word e → ⊥) }
{
    let Some(iteration) = iteration_field(fields) else {
        return None;
    };
    match word {
        LogWord::Begin => Some(Event::Begin(iteration)),
        LogWord::Enter => Some(Event::Enter(iteration)),
        LogWord::End => Some(Event::Finish(iteration, ColumnEnd::End)),
        LogWord::Closed => Some(Event::Finish(iteration, ColumnEnd::Closed)),
        LogWord::Trap | LogWord::Access(_) | LogWord::Stage(_) => None,
    }
}

// The event of a word and the fields after it.
fn event_of(cells: &[Declaration], word: LogWord, fields: &[u8]) -> Option<Event>
    requires bounded { cell_total cells.now ≤ MOST_CELLS }
    ensures some { IfSome result (λ e. HasFields cells.now fields.now word e) }
    ensures none { IfNone result ((e : PlainEvent) → HasFields cells.now fields.now word e → ⊥) }
{
    match word {
        LogWord::Begin => iteration_event(cells, word, fields),
        LogWord::Enter => iteration_event(cells, word, fields),
        LogWord::End => iteration_event(cells, word, fields),
        LogWord::Closed => iteration_event(cells, word, fields),
        LogWord::Trap => trap_event(cells, fields),
        LogWord::Access(kind) => access_event(cells, kind, fields),
        LogWord::Stage(kind) => stage_event(cells, kind, fields),
    }
}

fn is_stop(line: &[u8]) -> bool
    ensures { IsTrue result ↔ (line.now ≡ codes "stop") }
{
    line == b"stop".as_slice()
}

// The event of a line that is one word.
fn event_of_word(cells: &[Declaration], line: &[u8]) -> Option<Event>
    requires word { IsFreeOf space line.now }
    ensures some { IfSome result (λ e. IsLogLine cells.now line.now e) }
    ensures none { IfNone result ((e : PlainEvent) → IsLogLine cells.now line.now e → ⊥) }
{
    if is_stop(line) {
        return Some(Event::Stop);
    }
    None
}

/// Returns the event whose line, without its line feed, these bytes are. Returns `None` if there is none.
pub fn event_of_line(cells: &[Declaration], line: &[u8]) -> Option<Event>
    requires bounded { cell_total cells.now ≤ MOST_CELLS }
    ensures some { IfSome result (λ e. IsLogLine cells.now line.now e) }
    ensures none { IfNone result ((e : PlainEvent) → IsLogLine cells.now line.now e → ⊥) }
{
    let Some((first, fields)) = split_at_first(line, b' ') else {
        return event_of_word(cells, line);
    };
    let Some(word) = log_word(first) else {
        return None;
    };
    event_of(cells, word, fields)
}
